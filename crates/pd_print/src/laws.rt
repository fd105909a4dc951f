//! Laws of what is written: functions without work, whose contracts are the laws.
ghost use Rattle.pd_print.specs.Laws.{LinesAreScripts, SentPacketsAgree};

use pd_script::law_parse_gives_the_only_grammatical_reading;

/// A law: octets that are read as an event are, as a text of one line, a script with just this event.
pub fn law_event_line_is_one_event_script()
    ensures { LinesAreScripts }
{
    law_parse_gives_the_only_grammatical_reading();
}

/// A law: a segment that was sent agrees, in each field, with the packet that is written of it.
pub fn law_printed_packet_agrees_with_segment()
    ensures { SentPacketsAgree }
{}
