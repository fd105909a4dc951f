//! The input of an event to the host, after all expiries up to its moment.
ghost use Rattle.std.specs.Prelude.{◌≡◌, ◌<◌, ◌^◌, false, IfOk};
ghost use Rattle.pd_host.specs.Arrivals.{arrived, failed_check_in};
ghost use Rattle.pd_host.specs.Calls.{called};
ghost use Rattle.pd_host.specs.InputResults.{Goes, Answers};
ghost use Rattle.pd_host.specs.Expiries.{advanced};
ghost use Rattle.pd_host.specs.Host.{IsShort, then_on};
ghost use Rattle.pd_run.specs.InboundSegment.{segment_in};
ghost use Rattle.pd_run.specs.Limits.{is_packet_number_over_limit};

use crate::inbound_segment::segment_of_script_packet;
use crate::laws::law_sender_deadline_ahead_and_queue_bounded;
use pd_host::{Host, HostEnd, SegmentCheck};
use pd_script::{Call, Packet};
use pd_seg::Answer;
use std::alloc::AllocError;

/// A packet arrives at a moment.
///
/// # Errors
/// Why the host has ended, here or before.
#[inline(always)]
pub fn arrive(host: &mut Host, packet: &Packet, at: u64) -> Result<(), HostEnd>
    requires fits { is_packet_number_over_limit packet.now ≡ false }
    requires early { at < 2 ^ 62 }
    ensures { Goes host.old (λ s. then_on (arrived (segment_in packet.now) at) (advanced at s)) result host.new }
{
    host.advance(at)?;
    match segment_of_script_packet(host.outbox().allocator(), packet) {
        Ok(segment) => host.arrive(&segment, at),
        Err(_) => Err(host.get_or_set_end_reason_to_out_of_memory()),
    }
}

/// The check that a packet doesn't pass which arrives at a host; nothing where it passes all, or no connection was begun.
///
/// # Errors
/// `AllocError` where a growth is refused.
pub fn failed_check_of_arriving_packet(
    host: &Host,
    packet: &Packet,
) -> Result<Option<SegmentCheck>, AllocError>
    requires fits { is_packet_number_over_limit packet.now ≡ false }
    ensures { IfOk result (λ failed_check. failed_check ≡ failed_check_in (segment_in packet.now) host.now.state) }
{
    let segment = segment_of_script_packet(host.outbox().allocator(), packet)?;
    Ok(host.find_deciding_segment_check(&segment))
}

/// A call is made at a moment.
///
/// # Errors
/// Why the host has ended, here or before.
#[inline(always)]
pub fn advance_host_and_call(host: &mut Host, call: &Call, now: u64) -> Result<Answer, HostEnd>
    requires early { now < 2 ^ 62 }
    requires short { IsShort host.old.state }
    ensures { Answers host.old (λ s. then_on (called call.now now) (advanced now s)) result host.new }
{
    law_sender_deadline_ahead_and_queue_bounded();
    host.advance(now)?;
    host.call(call, now)
}
