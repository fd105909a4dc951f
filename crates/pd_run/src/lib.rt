//! A run of a script in virtual time, and its verdict.
//!
//! `run_all` gives the `Verdict` of a text. A `RunState` is what a run holds between two events:
//! the host, the clock, the base of relative times, and the header's tolerance. A `Stepper` takes a
//! run through one event at a time, and counts. `run_to_stop_on_line` and
//! `RunState::preview_stop_reason_at_event` look at an event that stops a run once more, and give the reason (`StopReason`) with the packet or the answer that
//! differs.
//!
//! ```text
//!     an event --> a limit, a shape that isn't run, a time that goes back? ---------> stop
//!       a packet arrives:  expiries up to its time; it arrives at the host -- halt --> stop
//!       a call:            expiries up to its time; the host answers ---- differs --> stop
//!       an expected packet, if none waits in the outbox: the next expiry,
//!                          if its packet may come in time ----------- else missing --> stop
//!                          the oldest packet is compared and taken ------- differs --> stop
//!     else the run goes on with the next event; after the last one it passes
//! ```
//!
//! The verdict is the defined one (`verdict_of`, specs/Run.antt), and that of the script that the
//! grammar gives for the text (`IsVerdictOf`, specs/Grammatical.antt). `step` (specs/Step.antt)
//! defines one event. Between two events the sender is up to date at the clock: `IsUpToDate`
//! (specs/RunStates.antt).
//!
//! Why it is so:
//! - The clock moves only by events, and by the expiries that an expected packet waits for. Nothing
//!   waits, so a run takes the time of its steps, whatever times its script has, and has the same
//!   verdict on any machine.
//! - The verdict and its reason come from one function, `RunState::precheck_then_perform_event_and_find_stop`: `step` makes the
//!   verdict of what it gives, and `preview_stop_reason_at_event` calls it on a copy. So an explanation can't be of another
//!   stop (the law `law_verdicts_have_reasons`).
//! - A step has conditions on its clock, its base and the queued octets; a run has none. Each event
//!   moves clock and base, and queues octets, by no more than a limit, so a script's events can't
//!   reach the bounds: the law `law_clock_base_and_queue_bounded_per_event`.
//! - A run that is out of memory answers so to each further step. Nothing is promised of a run that
//!   a verdict has stopped, so a step may leave it half done.
//! - A `Stepper` is a trait with a count, so that contracts can say how many steps a call takes.
//!   `pd_track` spares steps, and says exactly how many.
#![tactic(auto)]

mod host_input;
mod inbound_segment;
mod laws;
mod limits;
mod prechecks;
mod run_state;
mod stepper;
mod stop_point;
mod stop_reason;
mod times;
mod verdict;
mod whole_run;

pub use host_input::failed_check_of_arriving_packet;
pub use laws::{
    law_clock_base_and_queue_bounded_per_event, law_passed_events_match_expectations,
    law_runs_use_only_consulted_settings, law_verdicts_are_of_grammar_scripts,
    law_verdicts_have_reasons,
};
pub use pd_host::ConnState;
pub use pd_match::Kind;
pub use prechecks::{Precheck, failed_precheck};
pub use run_state::RunState;
pub use stepper::{Plain, StepEnd, Stepper};
pub use stop_point::{StopPoint, preview_stop_reason_if_on_line, run_to_stop_on_line};
pub use stop_reason::StopReason;
pub use times::{
    base_from_moment_or_later_of_base_and_sent, is_not_too_late_within_tolerance,
    single_moment_or_base, time_range_of,
};
pub use verdict::Verdict;
pub use whole_run::{run_all, run_with_stepper};
