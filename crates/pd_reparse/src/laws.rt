//! Laws of readings.
ghost use Rattle.pd_reparse.specs.Laws.{ReadingsAreScripts, FirstEventsStay, FirstEventsOfScriptsStay, EventsAreChained};

use pd_lex::law_first_lines_fix_tokens_in_order;
use pd_script::law_lexing_from_event_start_gives_same_items;

/// A law, and no work: without what decided its events, the reading of a text is what the text is
/// parsed as.
pub fn law_readings_are_scripts()
    ensures { ReadingsAreScripts }
{}

/// Laws, and no work: the events that the equal first lines of two texts decide are the first
/// events of both, and the headers before them are equal.
pub fn law_equal_first_lines_keep_first_events()
    ensures readings { FirstEventsStay }
    ensures scripts { FirstEventsOfScriptsStay }
{
    law_first_lines_fix_tokens_in_order();
}

/// A law, and no work: the events that a text is read as come one after the other, each spelled in
/// the grammar from the place where the one before ended.
pub fn law_events_are_chained()
    ensures { EventsAreChained }
{
    law_lexing_from_event_start_gives_same_items();
}
