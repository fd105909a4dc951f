//! Laws of the rules: contracts of functions without code. Inputs only append packets, and only consulted settings matter.
ghost use Rattle.pd_host.specs.Growth.{ExpiriesQueueNothing, ArrivalsQueueOurSyn, CallsQueueWhatTheyAsk, CallsAskFew};
ghost use Rattle.pd_host.specs.LossEvidence.{LossEvidenceIsNeeded};
ghost use Rattle.pd_host.specs.StateDiagram.{FollowsStateDiagram};
ghost use Rattle.pd_host.specs.SendBlockers.{SendsWhereNothingBlocks};
ghost use Rattle.pd_host.specs.Laws.{StartsUpToDate, AdvancesKeepUp, ArrivalsKeepUp, CallsKeepUp, TakingKeepsUp};
ghost use Rattle.pd_host.specs.Invariants.{StartsLawful, AdvancesStayLawful, ArrivalsStayLawful, CallsStayLawful, TakingStaysLawful, BoardsAreLawful, CallsStayInRange, EndsForGood};
ghost use Rattle.pd_host.specs.InputLaws.{OutsideIsHarmless, OnlyAnExactRstResets, PutsOutAfter, OnlyUsesMatter, OtherSettingsKeepUp, CallsPutOutAfter, CallsOnlyUse, AdvancesPutOutAfter, AdvancesUseNone, ArrivalsNote, CallsNote, AdvancesNote};
ghost use Rattle.pd_host.specs.SendingLaws.{ControlsFlow, StaysInWindow, ControlsCongestion, KeepsToWindow, RecoversInProportion, SendsOneByOne, SendsAllThatMay, TimesOnce, MeasuresWhatIsSentOnce, EndsWithFin, SparesWhatArrived, EndsRecovery};

use pd_recover::law_congestion_control_and_loss_recovery;
use pd_timer::law_rto_bounded_and_expiries_back_off;

/// The laws of every segment that arrives, whatever the checks and their order.
pub fn law_outside_harmless_only_exact_rst_resets()
    ensures outside { OutsideIsHarmless }
    ensures resets { OnlyAnExactRstResets }
    ensures packets { PutsOutAfter }
    ensures settings { OnlyUsesMatter }
    ensures consulted_settings { ArrivalsNote }
{}

/// The laws of every call, whatever it asks.
pub fn law_calls_append_and_depend_on_consulted()
    ensures packets { CallsPutOutAfter }
    ensures settings { CallsOnlyUse }
    ensures consulted_settings { CallsNote }
{}

/// The laws of all expiries up to a moment.
pub fn law_expiries_append_in_order_without_settings()
    ensures packets { AdvancesPutOutAfter }
    ensures settings { AdvancesUseNone }
    ensures consulted_settings { AdvancesNote }
{}

/// The laws of all that is sent, whatever came in.
pub fn law_sending_by_windows_prr_karn_fin_and_sack()
    ensures flow { ControlsFlow }
    ensures window { StaysInWindow }
    ensures congestion { ControlsCongestion }
    ensures room { KeepsToWindow }
    ensures proportion { RecoversInProportion }
    ensures all { SendsAllThatMay }
    ensures timing { TimesOnce }
    ensures measured { MeasuresWhatIsSentOnce }
    ensures fin { EndsWithFin }
    ensures sacked { SparesWhatArrived }
    ensures recovery { EndsRecovery }
{
    law_congestion_control_and_loss_recovery();
}

/// Sending and expiries put out one packet each time that they go on.
pub fn law_each_send_appends_one_packet()
    ensures { SendsOneByOne }
{}

/// At which moments packets left and the next expiry lies, whatever came in.
pub fn law_packets_in_order_and_deadline_ahead()
    ensures start { StartsUpToDate }
    ensures advances { AdvancesKeepUp }
    ensures arrivals { ArrivalsKeepUp }
    ensures calls { CallsKeepUp }
    ensures taking { TakingKeepsUp }
    ensures rebinding { OtherSettingsKeepUp }
{
    law_rto_bounded_and_expiries_back_off();
}

/// The laws of every state that the rules reach, whatever came in.
pub fn law_reachable_states_lawful_and_follow_diagram()
    ensures start { StartsLawful }
    ensures advances { AdvancesStayLawful }
    ensures arrivals { ArrivalsStayLawful }
    ensures calls { CallsStayLawful }
    ensures taking { TakingStaysLawful }
    ensures boards { BoardsAreLawful }
    ensures range { CallsStayInRange }
    ensures resets { EndsForGood }
    ensures figure { FollowsStateDiagram }
{
    law_rto_bounded_and_expiries_back_off();
    law_congestion_control_and_loss_recovery();
}

/// Where nothing holds a segment back ordinary sending finds one, and only there.
pub fn law_ordinary_sending_iff_no_blocker()
    ensures { SendsWhereNothingBlocks }
{}

/// Loss recovery begins where the shown evidence is complete, and nowhere else.
pub fn law_recovery_begins_iff_evidence_complete()
    ensures { LossEvidenceIsNeeded }
{}

/// How much an input queues at most.
pub fn law_send_buffer_growth_per_input_bounded()
    ensures expiries { ExpiriesQueueNothing }
    ensures arrivals { ArrivalsQueueOurSyn }
    ensures calls { CallsQueueWhatTheyAsk }
    ensures few { CallsAskFew }
{}
