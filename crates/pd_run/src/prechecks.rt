//! Reasons for which an event isn't run, whatever the sender does.
ghost use Rattle.std.specs.Prelude.{◌≡◌};
ghost use Rattle.pd_run.specs.Prechecks.{failed_precheck};
ghost use Rattle.pd_run.specs.Supported.{is_time_and_action_shape_supported, is_shape_supported};
ghost use Rattle.pd_run.specs.Verdicts.{precheck_verdict};

use crate::limits::is_any_event_number_over_limit;
use crate::times::{is_absolute_start_before_base, is_single_moment};
use crate::verdict::Verdict;
use pd_match::Kind;
use pd_script::{Action, Event, Time};

/// A check that an event doesn't pass.
#[derive(Clone, Copy, PartialEq, Eq)]
pub enum Precheck {
    /// A number of the event is over its limit.
    OverLimit,
    /// The event's shape isn't run.
    NotRun,
    /// Its time lies before the base.
    Backwards,
}

impl Precheck {
    /// The verdict of an event at this line.
    pub fn verdict(self, line: usize) -> Verdict
        ensures { result ≡ precheck_verdict line self }
    {
        match self {
            Precheck::OverLimit => Verdict::Limit(line),
            Precheck::NotRun => Verdict::Unsupported(line),
            Precheck::Backwards => Verdict::Fail(line, Kind::Backwards),
        }
    }
}

/// The first check that an event doesn't pass before anything happens, of limits, shapes that aren't run, and absolute times before
/// the base, in microseconds since the start of the run.
#[inline(always)]
pub fn failed_precheck(base: u64, event: &Event) -> Option<Precheck>
    ensures { result ≡ failed_precheck base event.now }
{
    if is_any_event_number_over_limit(event) {
        Some(Precheck::OverLimit)
    } else if !is_shape_supported(event) {
        Some(Precheck::NotRun)
    } else if is_absolute_start_before_base(base, event.time) {
        Some(Precheck::Backwards)
    } else {
        None
    }
}

/// Whether the shape of an event is run. The sender's state isn't looked at.
pub fn is_shape_supported(event: &Event) -> bool
    ensures { result ≡ is_shape_supported event.now }
{
    event.blocking_end.is_none() && is_time_and_action_shape_supported(event.time, &event.action)
}

fn is_time_and_action_shape_supported(time: Time, action: &Action) -> bool
    ensures { result ≡ is_time_and_action_shape_supported time action.now }
{
    match action {
        Action::Inbound(packet) => is_single_moment(time) && !packet.flags.other,
        Action::Outbound(packet) => !packet.flags.other,
        Action::Call(call) => is_single_moment(time) && pd_host::is_shape_supported(call),
        Action::Command | Action::Code => false,
    }
}
