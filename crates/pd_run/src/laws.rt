//! Laws of runs: functions whose contracts are the laws; they call those that they rest on.
ghost use Rattle.pd_run.specs.Consulted.{StepsNote, StepsOnlyUse, RunsOnlyUse, RunsGoOnUnder};
ghost use Rattle.pd_run.specs.Grammatical.{VerdictsAreGrammatical, NoOtherVerdicts};
ghost use Rattle.pd_run.specs.Inner.{InputsOnlyUse, SenderIsLawful};
ghost use Rattle.pd_run.specs.Laws.{PassedPacketsAgree, PassedPacketsAreTaken, PassedCallsAnswer, ToleranceStays, StartsUnderway, StepsGoOn, OtherSettingsGoOn, StartsHeld, StepsStayHeld};
ghost use Rattle.pd_run.specs.StopPoints.{VerdictsHaveReasons};
ghost use Rattle.pd_run.specs.StopReason.{ReasonsGiveVerdicts, DifferencesAreFirst};

use pd_host::{
    law_calls_append_and_depend_on_consulted, law_expiries_append_in_order_without_settings,
    law_outside_harmless_only_exact_rst_resets, law_packets_in_order_and_deadline_ahead,
    law_send_buffer_growth_per_input_bounded,
};
use pd_match::law_first_mismatch_of_packets_and_calls;
use pd_script::law_parse_gives_the_only_grammatical_reading;

/// The laws of the sender that runs rest on, whatever comes in.
pub(crate) fn law_sender_deadline_ahead_and_queue_bounded()
    ensures { SenderIsLawful }
{
    law_packets_in_order_and_deadline_ahead();
    law_send_buffer_growth_per_input_bounded();
}

/// The laws of every step that goes on, whatever the checks and their order.
pub fn law_passed_events_match_expectations()
    ensures packets { PassedPacketsAgree }
    ensures taken { PassedPacketsAreTaken }
    ensures calls { PassedCallsAnswer }
    ensures tolerance { ToleranceStays }
{
    law_first_mismatch_of_packets_and_calls();
    law_inputs_use_only_noted_settings();
}

/// How far along a run is after so many events: within the bounds that a step asks for, up to 4,096 of them, whatever
/// settings it is put under on its way. And the timer of a run that is put under no others goes by those that it began
/// under.
pub fn law_clock_base_and_queue_bounded_per_event()
    ensures start { StartsUnderway }
    ensures step { StepsGoOn }
    ensures rebinding { OtherSettingsGoOn }
    ensures start_held { StartsHeld }
    ensures step_held { StepsStayHeld }
{
    law_sender_deadline_ahead_and_queue_bounded();
    law_inputs_use_only_noted_settings();
}

/// The verdict of a text is that of a script which the grammar gives for the text, and of no other.
pub fn law_verdicts_are_of_grammar_scripts()
    ensures given { VerdictsAreGrammatical }
    ensures only { NoOtherVerdicts }
{
    law_parse_gives_the_only_grammatical_reading();
}

/// A run that stops has a reason for it, with the verdict of that reason: looking into a stop and running to it agree.
pub fn law_verdicts_have_reasons()
    ensures reasons { ReasonsGiveVerdicts }
    ensures verdicts { VerdictsHaveReasons }
    ensures packets { DifferencesAreFirst }
{
    law_first_mismatch_of_packets_and_calls();
}

/// Runs rest on this: the sender consults no settings but those that it notes.
pub(crate) fn law_inputs_use_only_noted_settings()
    ensures { InputsOnlyUse }
{
    law_outside_harmless_only_exact_rst_resets();
    law_calls_append_and_depend_on_consulted();
    law_expiries_append_in_order_without_settings();
}

/// Only consulted settings matter: to a step, and to the first steps of a text's run.
pub fn law_runs_use_only_consulted_settings()
    ensures notes { StepsNote }
    ensures steps { StepsOnlyUse }
    ensures runs { RunsOnlyUse }
    ensures onwards { RunsGoOnUnder }
{
    law_inputs_use_only_noted_settings();
}
