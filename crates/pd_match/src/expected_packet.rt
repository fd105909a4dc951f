//! A packet that was sent against the packet that a script expects.
ghost use Rattle.std.specs.Prelude.{◌≡◌};
ghost use Rattle.pd_match.specs.Packets.{compared_fields, in_time, same_flags, same_seq, same_if_written, mismatch};
ghost use Rattle.pd_match.specs.Agreement.{Agrees, IsFirstFailing};

use crate::kinds::Kind;
use crate::written_options::has_exactly_written_options_unless_any;
use pd_script::{Packet, PacketFlags};
use pd_seg::{Segment, Sent};

/// An outbound packet of a script, and when it may be sent.
#[derive(Clone, Copy)]
pub struct Expect<'a> {
    /// The packet as the script writes it.
    pub packet: &'a Packet,
    /// The first and the last moment, in microseconds since the start of the run; None for `*`.
    pub time_range: Option<(u64, u64)>,
}

/// The first field in the order time, flags, seq, ack, win and options in which the sent packet differs from the
/// expected one; None where they agree. The tolerance is in microseconds.
///
/// Takes no memory.
#[inline(always)]
pub fn check_packet(expect: &Expect<'_>, sent: &Sent, tolerance: u64) -> Option<Kind>
    ensures value { result ≡ mismatch expect.now.packet.now expect.now.time_range sent.now tolerance }
    ensures first { IsFirstFailing (Agrees expect.now.packet.now expect.now.time_range sent.now tolerance) compared_fields result }
{
    first_difference(expect, sent, tolerance)
}

#[inline(always)]
fn first_difference(expect: &Expect<'_>, sent: &Sent, tolerance: u64) -> Option<Kind>
    ensures { result ≡ mismatch expect.now.packet.now expect.now.time_range sent.now tolerance }
{
    let packet = expect.packet;
    let segment = &sent.segment;
    if !is_in_time_range_within_tolerance(expect.time_range, sent.at, tolerance) {
        Some(Kind::Time)
    } else if !has_written_flags(&packet.flags, &segment.flags) {
        Some(Kind::Flags)
    } else if !has_written_seq(packet, segment) {
        Some(Kind::Seq)
    } else if !matches_if_written(packet.ack, segment.ack) {
        Some(Kind::Ack)
    } else if !matches_if_written(packet.win, u32::from(segment.win)) {
        Some(Kind::Win)
    } else if !has_exactly_written_options_unless_any(&packet.options, &segment.options) {
        Some(Kind::Options)
    } else {
        None
    }
}

fn is_in_time_range_within_tolerance(
    time_range: Option<(u64, u64)>,
    at: u64,
    tolerance: u64,
) -> bool
    ensures { result ≡ in_time time_range at tolerance }
{
    match time_range {
        Some((first, last)) => {
            // Nothing is subtracted, so that a tolerance above the first moment does no harm.
            first <= at.saturating_add(tolerance) && at <= last.saturating_add(tolerance)
        }
        None => true,
    }
}

fn has_written_flags(written: &PacketFlags, sent: &pd_seg::Flags) -> bool
    ensures { result ≡ same_flags written.now sent.now }
{
    written.syn == sent.syn
        && written.fin == sent.fin
        && written.rst == sent.rst
        && written.psh == sent.psh
        && written.ack == sent.ack
}

fn has_written_seq(packet: &Packet, segment: &Segment) -> bool
    ensures { result ≡ same_seq packet.now segment.now }
{
    packet.start == segment.start
        && packet.end == segment.end
        && packet.length == segment.data_len()
}

fn matches_if_written(written: Option<u32>, sent: u32) -> bool
    ensures { result ≡ same_if_written written sent }
{
    match written {
        Some(number) => number == sent,
        None => true,
    }
}
