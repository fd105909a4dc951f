//! The packets that a run put out and no line took, and which of them no line expects.
ghost use Rattle.std.specs.Prelude.{◌≤◌, IfOk, drop, ◌≡◌, ◌<◌, ◌^◌, false, is_none};
ghost use Rattle.pd_run.specs.Laws.{unmatched};
ghost use Rattle.pd_cause.specs.Leftovers.{Lists};
ghost use Rattle.std.specs.List.{list_any};
ghost use Rattle.pd_match.specs.Packets.{mismatch};
ghost use Rattle.pd_run.specs.Limits.{is_long, written_times};
ghost use Rattle.pd_run.specs.Step.{tolerance_of};
ghost use Rattle.pd_run.specs.Times.{time_range_of};
ghost use Rattle.pd_cause.specs.Unexpected.{before_awaited, CountsUnexpected, IsEarly};

use crate::causes::aligned_packets::render_sent_event_with_moment_comment;
use crate::causes::failure::Unmatched;
use pd_match::{Expect, check_packet};
use pd_run::{RunState, time_range_of};
use pd_script::{Action, Event, Packet, Time};
use pd_seg::Sent;
use std::alloc::{AllocError, Global};

/// The most unmatched packets that are listed one by one.
const MAX_LISTED: usize = 10;

/// The packets of a run that were put out and not taken, the oldest so many left out.
///
/// # Errors
/// `AllocError` where a growth is refused.
pub fn list_first_unmatched_after_skipped(
    alloc: Global,
    run: &RunState,
    skipped: usize,
) -> Result<Unmatched, AllocError>
    requires { skipped ≤ 1 }
    ensures { IfOk result (Lists run.now.base (drop skipped (unmatched run.now))) }
{
    let outbox = run.host().outbox();
    let mut packets = Vec::new(alloc);
    for count in 0..MAX_LISTED {
        match outbox.get(skipped + count) {
            Some(sent) => packets.push(render_sent_event_with_moment_comment(
                alloc,
                sent,
                run.base(),
            )?)?,
            None => return Ok(Unmatched { packets, more: 0 }),
        }
    }
    let more = outbox.len().saturating_sub(skipped + MAX_LISTED);
    Ok(Unmatched { packets, more })
}

/// How many of a run's unmatched packets no line expects: those that come before the first which an event awaits. Each moves the
/// base of times as one that an event takes does. 0 where the awaited one isn't among them.
pub fn count_unmatched_before_awaited_or_zero(event: &Event, run: &RunState) -> usize
    ensures { CountsUnexpected event.now run.now result }
{
    match &event.action {
        Action::Outbound(packet) => count_unmatched_before_match_if_any(
            packet, event.time, run,
        ).unwrap_or(0),
        Action::Inbound(_) => 0,
        Action::Call(_) => 0,
        Action::Command => 0,
        Action::Code => 0,
    }
}

/// How many come before the first that agrees with an expected packet; nothing where none does.
fn count_unmatched_before_match_if_any(packet: &Packet, time: Time, run: &RunState) -> Option<usize>
    ensures { IsEarly run.now → list_any is_long (written_times time) ≡ false → result ≡ before_awaited packet.now time (tolerance_of run.now) run.now.base (unmatched run.now) }
{
    let outbox = run.host().outbox();
    let mut base = run.base();
    for count in 0..outbox.len() {
        let Some(sent) = outbox.get(count) else {
            return None;
        };
        if is_expected_packet(packet, time, base, sent, run.tolerance()) {
            return Some(count);
        }
        base = base.max(sent.at);
    }
    None
}

/// Whether a packet that was sent is an expected one with a time that counts from a base.
fn is_expected_packet(packet: &Packet, time: Time, base: u64, sent: &Sent, tolerance: u64) -> bool
    ensures { base < 2 ^ 61 → list_any is_long (written_times time) ≡ false → result ≡ is_none (mismatch packet.now (time_range_of base time) sent.now tolerance) }
{
    let expect = Expect {
        packet,
        time_range: time_range_of(base, time),
    };
    check_packet(&expect, sent, tolerance).is_none()
}
