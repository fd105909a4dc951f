//! Why a run stops at an event.
ghost use Rattle.std.specs.Prelude.{◌≡◌, IfOk};
ghost use Rattle.pd_run.specs.Inner.{ended_by, GivesVerdict, IsReasonOf};

use crate::prechecks::Precheck;
use crate::run_state::RunState;
use crate::verdict::Verdict;
use pd_host::{Halt, HostEnd};
use pd_match::Kind;
use pd_seg::{Answer, Sent};
use std::alloc::AllocError;

/// Why a run stops at an event.
#[derive(Drop)]
pub enum StopReason {
    /// A check that the event doesn't pass.
    FailedPrecheck(Precheck),
    /// The sender halted.
    Halted(Halt),
    /// No packet was sent in time.
    Missing,
    /// This packet was compared, and what of it differs first; with the run that awaited it, where the packet still stands.
    Differs(Kind, Sent, RunState),
    /// The sender answered this, in the run after the call.
    Answered(Answer, RunState),
}

/// How an event stops a run, which is left as it stood there.
#[derive(Clone, Copy)]
pub(crate) enum StopKind {
    FailedPrecheck(Precheck),
    Halted(Halt),
    Missing,
    /// The first thing of the oldest unmatched packet that differs.
    Differs(Kind),
    Answered(Answer),
}

impl StopKind {
    /// How an event stops a run whose sender has ended.
    ///
    /// # Errors
    /// `AllocError` where it ended out of memory.
    pub fn from_host_end(ending: HostEnd) -> Result<StopKind, AllocError>
        ensures { result ≡ ended_by ending }
    {
        match ending {
            HostEnd::Halted(halt) => Ok(StopKind::Halted(halt)),
            HostEnd::OutOfMemory => Err(AllocError),
        }
    }

    /// The verdict of an event at this line.
    pub fn verdict(self, line: usize) -> Verdict
        ensures { GivesVerdict self line result }
    {
        match self {
            StopKind::FailedPrecheck(bar) => bar.verdict(line),
            StopKind::Halted(Halt::Unsupported) => Verdict::Unsupported(line),
            StopKind::Halted(Halt::Limit) => Verdict::Limit(line),
            StopKind::Missing => Verdict::Fail(line, Kind::Missing),
            StopKind::Differs(kind) => Verdict::Fail(line, kind),
            StopKind::Answered(_) => Verdict::Fail(line, Kind::Result),
        }
    }

    /// The reason, with the run that it left.
    ///
    /// # Errors
    /// `AllocError` where a growth is refused.
    pub fn into_reason_with_run(self, left: RunState) -> Result<StopReason, AllocError>
        ensures { IfOk result (IsReasonOf self left) }
    {
        Ok(match self {
            StopKind::FailedPrecheck(bar) => StopReason::FailedPrecheck(bar),
            StopKind::Halted(halt) => StopReason::Halted(halt),
            StopKind::Missing => StopReason::Missing,
            StopKind::Differs(kind) => match left.host().outbox().get(0) {
                Some(sent) => StopReason::Differs(kind, sent.copy()?, left),
                None => StopReason::Missing,
            },
            StopKind::Answered(answer) => StopReason::Answered(answer, left),
        })
    }
}
