//! Packets as events of a script, one below the other in columns.
ghost use Rattle.std.specs.Prelude.{◌≡◌, ◌++◌, IfOk, OnOk};
ghost use Rattle.pd_print.specs.Sent.{packet_of};
ghost use Rattle.pd_print.specs.Numbers.{time_text};
ghost use Rattle.pd_cause.specs.AlignedPackets.{relative_or_any_time_from_base, comment_of, sent_text, pad_part_before_rest, align_packet_to_other};
ghost use Rattle.pd_cause.specs.Inner.{align_parts_to_other};

use pd_print::{
    PacketParts, render_packet_parts, render_seconds_with_six_decimals, render_sent_segment_event,
    render_time, script_packet_of_segment,
};
use pd_script::{Packet, Time};
use pd_seg::Sent;
use std::alloc::{AllocError, Global};

/// A part that is longer than this isn't lined up.
const MAX_WIDTH: usize = 40;

/// Two events, one below the other.
#[derive(Drop)]
pub struct AlignedPackets {
    /// The event of the script.
    pub script: Vec<u8>,
    /// The event that happened, with its moment in a comment.
    pub actual: Vec<u8>,
}

/// The event of a script, whose time is written so, and the one that happened, with equal columns.
///
/// # Errors
/// `AllocError` where a growth is refused.
pub fn aligned_packets(
    alloc: Global,
    time: &[u8],
    packet: &Packet,
    sent: &Sent,
    base: u64,
) -> Result<AlignedPackets, AllocError>
    ensures script { IfOk result (λ pair. pair.script.items ≡ align_packet_to_other time.now packet.now (time_text (relative_or_any_time_from_base base sent.now.at)) (packet_of sent.now.segment)) }
    ensures actual { IfOk result (λ pair. pair.actual.items ≡ align_packet_to_other (time_text (relative_or_any_time_from_base base sent.now.at)) (packet_of sent.now.segment) time.now packet.now ++ comment_of sent.now.at) }
{
    let since = render_time(alloc, relative_or_any_time_from_base(base, sent.at))?;
    let segment = script_packet_of_segment(alloc, &sent.segment)?;
    let script = align_packet_to_other(alloc, time, packet, &since, &segment)?;
    let actual = align_packet_to_other(alloc, &since, &segment, time, packet)?;
    Ok(AlignedPackets {
        script,
        actual: line_followed_by_moment_comment(alloc, actual, sent.at)?,
    })
}

/// The event of a script by itself, whose time is written so.
///
/// # Errors
/// `AllocError` where a growth is refused.
pub fn render_outbound_event_with_time_text(
    alloc: Global,
    time: &[u8],
    packet: &Packet,
) -> Result<Vec<u8>, AllocError>
    ensures { IfOk result (λ line. line.items ≡ align_packet_to_other time.now packet.now time.now packet.now) }
{
    align_packet_to_other(alloc, time, packet, time, packet)
}

/// A packet that was sent as an event that happened, with its moment in a comment.
///
/// # Errors
/// `AllocError` where a growth is refused.
pub fn render_sent_event_with_moment_comment(
    alloc: Global,
    sent: &Sent,
    base: u64,
) -> Result<Vec<u8>, AllocError>
    ensures { IfOk result (λ line. line.items ≡ sent_text base sent.now) }
{
    let line = render_sent_segment_event(
        alloc,
        relative_or_any_time_from_base(base, sent.at),
        &sent.segment,
    )?;
    line_followed_by_moment_comment(alloc, line, sent.at)
}

/// The time of a moment from the base; `*` where it lies before that, which no written time can express.
fn relative_or_any_time_from_base(base: u64, at: u64) -> Time
    ensures { result ≡ relative_or_any_time_from_base base at }
{
    if base <= at {
        Time::Relative(at - base)
    } else {
        Time::Any
    }
}

/// A line with a moment as a comment.
fn line_followed_by_moment_comment(
    alloc: Global,
    line: Vec<u8>,
    at: u64,
) -> Result<Vec<u8>, AllocError>
    ensures { IfOk result (λ with. with.items ≡ line.items ++ comment_of at) }
{
    let moment = render_seconds_with_six_decimals(alloc, at)?;
    let mut line = line;
    line.extend_from_slice(b" // ")?;
    line.extend_from_slice(&moment)?;
    Ok(line)
}

/// The event of a packet that leaves, its parts as wide as those of another one where these are wider.
fn align_packet_to_other(
    alloc: Global,
    time: &[u8],
    packet: &Packet,
    other_time: &[u8],
    other: &Packet,
) -> Result<Vec<u8>, AllocError>
    ensures { IfOk result (λ line. line.items ≡ align_packet_to_other time.now packet.now other_time.now other.now) }
{
    let parts = render_packet_parts(alloc, packet)?;
    let others = render_packet_parts(alloc, other)?;
    align_parts_to_other(alloc, time, &parts, other_time, &others)
}

/// The same of the parts: a part is laid after the one on its right.
fn align_parts_to_other(
    alloc: Global,
    time: &[u8],
    parts: &PacketParts,
    other_time: &[u8],
    others: &PacketParts,
) -> Result<Vec<u8>, AllocError>
    ensures { IfOk result (λ line. line.items ≡ align_parts_to_other time.now parts.now other_time.now others.now) }
{
    let line = pad_part_before_rest(alloc, &parts.win, &others.win, &parts.options)?;
    let line = pad_part_before_owned_rest(alloc, &parts.ack, &others.ack, line)?;
    let line = pad_part_before_owned_rest(alloc, &parts.octets, &others.octets, line)?;
    let line = pad_part_before_owned_rest(alloc, &parts.flags, &others.flags, line)?;
    let mut rest = Vec::new(alloc);
    rest.extend_from_slice(b" > ")?;
    rest.extend_from_slice(&line)?;
    pad_part_before_rest(alloc, time, other_time, &rest)
}

/// A part and a line that follows it.
fn pad_part_before_owned_rest(
    alloc: Global,
    part: &[u8],
    other: &[u8],
    rest: Vec<u8>,
) -> Result<Vec<u8>, AllocError>
    ensures { IfOk result (λ line. line.items ≡ pad_part_before_rest part.now other.now rest.items) }
{
    pad_part_before_rest(alloc, part, other, &rest)
}

/// A part and what follows it: with blanks between them where another part is wider, and something follows.
fn pad_part_before_rest(
    alloc: Global,
    part: &[u8],
    other: &[u8],
    rest: &[u8],
) -> Result<Vec<u8>, AllocError>
    ensures { IfOk result (λ line. line.items ≡ pad_part_before_rest part.now other.now rest.now) }
{
    let mut line = Vec::new(alloc);
    line.extend_from_slice(part)?;
    if !rest.is_empty() {
        line.resize(part.len().max(other.len().min(MAX_WIDTH)), b' ')?;
        line.extend_from_slice(rest)?;
    }
    Ok(line)
}
