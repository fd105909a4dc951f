//! Laws: functions that do no work, whose contracts are the laws. Some call the laws on which they rest.
ghost use Rattle.pd_cause.specs.Origins.{OriginsAreUnique};
ghost use Rattle.pd_cause.specs.ActualPackets.{ActualPacketsPass};
ghost use Rattle.pd_cause.specs.Windows.{NamedWindowsHold};
ghost use Rattle.pd_cause.specs.Leftovers.{PassesHaveEnds};
ghost use Rattle.pd_cause.specs.Inner.{PacketsAppend};

use pd_host::{
    law_calls_append_and_depend_on_consulted, law_expiries_append_in_order_without_settings,
    law_outside_harmless_only_exact_rst_resets,
};
use pd_match::law_first_mismatch_of_packets_and_calls;
use pd_print::law_printed_packet_agrees_with_segment;
use pd_run::{law_passed_events_match_expectations, law_verdicts_have_reasons};

/// One event's input alone, or the timer in the step of one event alone, lets a packet go.
pub fn law_packet_has_at_most_one_origin()
    ensures { OriginsAreUnique }
{
    law_outbox_is_first_in_first_out();
}

/// With the packet that was sent in the place of the expected one, a run goes on past the event where that one differed.
pub fn law_event_passes_with_actual_packet()
    ensures { ActualPacketsPass }
{
    law_verdicts_have_reasons();
    law_first_mismatch_of_packets_and_calls();
    law_printed_packet_agrees_with_segment();
}

/// Where the reason that no packet was sent names a window, the octets that it is about lie beyond that window, and within
/// those that the reasons before it name.
pub fn law_unsent_octets_lie_beyond_window()
    ensures { NamedWindowsHold }
{}

/// A law: a script passes exactly where its run comes to its end.
pub fn law_passes_iff_run_reaches_end()
    ensures { PassesHaveEnds }
{
    law_verdicts_have_reasons();
}

/// Notes of triggers rest on this law: no event takes a packet out of the midst of others, or puts one there.
pub fn law_outbox_is_first_in_first_out()
    ensures { PacketsAppend }
{
    law_passed_events_match_expectations();
    law_outside_harmless_only_exact_rst_resets();
    law_calls_append_and_depend_on_consulted();
    law_expiries_append_in_order_without_settings();
}
