//! The next packet or answer of a sender, found on a copy of it.
ghost use Rattle.std.specs.Prelude.{◌≡◌, ◌<◌, ◌^◌, None, IfOk, IfSome};
ghost use Rattle.pd_host.specs.Calls.{called};
ghost use Rattle.pd_host.specs.Expiries.{advanced};
ghost use Rattle.pd_host.specs.InputResults.{Answers};
ghost use Rattle.pd_host.specs.Host.{IsShort, then_on};
ghost use Rattle.pd_record.specs.Recorder.{answered, oldest_unmatched_or_next_expiry_packet};
ghost use Rattle.pd_record.specs.Inner.{Finds};

use crate::record_error::RecordError;
use pd_host::{Halt, Host, HostEnd, law_send_buffer_growth_per_input_bounded};
use pd_run::Verdict;
use pd_script::Call;
use pd_seg::{Answer, Sent};
use std::alloc::AllocError;

/// The packet that leaves next: the oldest that is unmatched, else the one that the next expiry sends, if it comes at a moment.
///
/// # Errors
/// `AllocError` where a growth is refused.
pub fn oldest_unmatched_or_next_expiry_packet(
    host: &Host,
    due: Option<u64>,
) -> Result<Option<Sent>, AllocError>
    requires live { host.now.end_reason ≡ None }
    requires early { IfSome due (λ at. at < 2 ^ 62) }
    ensures { IfOk result (λ sent. sent ≡ oldest_unmatched_or_next_expiry_packet host.now.state due) }
{
    if let Some(sent) = host.outbox().get(0) {
        return Ok(Some(sent.copy()?));
    }
    let Some(at) = due else {
        return Ok(None);
    };
    let mut ahead = host.copy()?;
    match ahead.advance(at) {
        Ok(()) => Ok(ahead.take()),
        Err(HostEnd::Halted(_)) => Ok(None),
        Err(HostEnd::OutOfMemory) => Err(AllocError),
    }
}

/// A sender's answer to a call at a moment, reported at a line.
///
/// # Errors
/// `Stopped` where the sender halts, and `OutOfMemory`.
pub fn answer_to_call(host: &Host, line: usize, at: u64, call: &Call) -> Result<Answer, RecordError>
    requires live { host.now.end_reason ≡ None }
    requires early { at < 2 ^ 62 }
    requires short { IsShort host.now.state }
    ensures { Finds (answered line (then_on (called call.now at) (advanced at host.now.state))) result }
{
    let mut ahead = host.copy()?;
    match advance_and_call(&mut ahead, call, at) {
        Ok(answer) => Ok(answer),
        Err(HostEnd::Halted(Halt::Unsupported)) => {
            Err(RecordError::Stopped(Verdict::Unsupported(line)))
        }
        Err(HostEnd::Halted(Halt::Limit)) => Err(RecordError::Stopped(Verdict::Limit(line))),
        Err(HostEnd::OutOfMemory) => Err(RecordError::OutOfMemory),
    }
}

/// A call is made, after all expiries up to its moment.
fn advance_and_call(host: &mut Host, call: &Call, at: u64) -> Result<Answer, HostEnd>
    requires early { at < 2 ^ 62 }
    requires short { IsShort host.old.state }
    ensures { Answers host.old (λ s. then_on (called call.now at) (advanced at s)) result host.new }
{
    law_send_buffer_growth_per_input_bounded();
    host.advance(at)?;
    host.call(call, at)
}
