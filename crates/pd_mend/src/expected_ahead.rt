//! The packets that a script awaits before its next input.
use crate::times::{is_in_time, single_moment_of};
use pd_run::time_range_of;
use pd_script::{Action, Event, Packet};
use std::alloc::{AllocError, Global};

/// The most packets that are looked at.
pub const MAX_AHEAD: usize = 24;

/// An awaited packet, and when.
#[derive(Clone, Copy)]
pub struct ExpectedPacket<'a> {
    /// The packet as the script writes it.
    pub packet: &'a Packet,
    /// The first and the last moment, as far as the times before it are known; nothing for `*`.
    pub time_range: Option<(u64, u64)>,
}

/// The packets that a script awaits before its next input.
#[derive(Drop)]
pub struct ExpectedAhead<'a> {
    /// The first of the packets, in their order.
    pub packets: Vec<ExpectedPacket<'a>>,
    /// The moment of the next input, if one comes and counts from there.
    pub input: Option<u64>,
}

impl ExpectedPacket<'_> {
    /// Whether a packet that leaves at a moment is in time.
    pub fn is_in_time(&self, at: u64, tolerance: u64) -> bool {
        is_in_time(self.time_range, at, tolerance)
    }
}

/// The packets that events await before the next input, from a base on.
///
/// # Errors
/// `AllocError` where a growth is refused.
pub fn awaited_packets_and_next_input_moment<'a>(
    alloc: Global,
    events: &'a [Event],
    base: u64,
) -> Result<ExpectedAhead<'a>, AllocError> {
    let mut packets = Vec::new(alloc);
    let mut base = base;
    let mut input = None;
    for event in events {
        let Action::Outbound(packet) = &event.action else {
            input = single_moment_of(base, event.time);
            break;
        };
        if packets.len() == MAX_AHEAD {
            break;
        }
        let time_range = time_range_of(base, event.time);
        packets.push(ExpectedPacket { packet, time_range })?;
        if let Some((first, _)) = time_range {
            base = base.max(first);
        }
    }
    Ok(ExpectedAhead { packets, input })
}
