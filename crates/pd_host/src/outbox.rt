//! The packets that were put out and not yet taken, at most 1,024: the oldest is taken first, one at a time.
ghost use Rattle.std.specs.Prelude.{◌≡◌, ◌==◌, [], not, length, option_copied, slice_get, drop, IfOk, OnOk};
ghost use Rattle.pd_host.specs.InputResults.{Gives};
ghost use Rattle.pd_host.specs.OutboxLimit.{has_place};
ghost use Rattle.pd_host.specs.Host.{with_packet};

use crate::halts::{Halt, HostEnd};
use pd_seg::{Segment, SendRule, Sent};
use std::alloc::{AllocError, Global};
use std::collections::VecDeque;
use std::marker::Model;

/// The most packets that are unmatched.
const MAX_PACKETS: usize = 1_024;

/// The packets that were put out and not yet taken, the oldest first: at most 1,024.
#[derive(Drop)]
pub struct Outbox {
    /// The packets with their moments, the oldest first.
    packets: VecDeque<Sent>,
}

impl Model for Outbox {
    ghost use Rattle.std.specs.Prelude.{List, ◌≤◌, length};
    ghost use Rattle.pd_seg.specs.declared.segments.Sent.{Sent};
    ghost use Rattle.pd_host.specs.OutboxLimit.{most_packets};

    ghost Value = { List Sent };

    ghost view = { λ o. o.packets.items };

    ghost invariant = { λ o. length o.packets.items ≤ most_packets };
}

/// Puts down copies of these packets.
///
/// # Errors
/// `AllocError` where a growth is refused.
fn append_packet_copies(
    packets: &VecDeque<Sent>,
    packet_clones: &mut VecDeque<Sent>,
) -> Result<(), AllocError>
    requires { packet_clones.old.items ≡ [] }
    ensures { OnOk result (packet_clones.new.items ≡ packets.now.items) }
{
    for sent in packets.iter() {
        packet_clones.reserve(1)?;
        packet_clones.push_back_reserved(sent.copy()?);
    }
    Ok(())
}

impl Outbox {
    /// No packets.
    pub fn new(alloc: Global) -> Outbox
        ensures { result ≡ [] }
    {
        Outbox {
            packets: VecDeque::new(alloc),
        }
    }

    /// How many packets are unmatched, at most 1,024.
    pub fn len(&self) -> usize
        ensures { result ≡ length self.now }
    {
        self.packets.len()
    }

    /// Whether no packet is unmatched.
    pub fn is_empty(&self) -> bool
        ensures { result ≡ (length self.now == 0) }
    {
        self.packets.is_empty()
    }

    /// Whether no further packet may be put out.
    fn is_full(&self) -> bool
        ensures { result ≡ not (has_place self.now) }
    {
        self.packets.len() >= MAX_PACKETS
    }

    /// Puts a segment out at a moment by a rule, after the others.
    ///
    /// # Errors
    /// `Halted` by `Limit` where the outbox is full, else `OutOfMemory` where a growth is refused.
    pub fn push(&mut self, segment: Segment, now: u64, rule: SendRule) -> Result<(), HostEnd>
        ensures { Gives (with_packet now rule segment self.old) result self.new }
    {
        if self.is_full() {
            return Err(HostEnd::Halted(Halt::Limit));
        }
        self.packets.reserve(1)?;
        self.packets.push_back_reserved(Sent {
            segment,
            at: now,
            rule,
        });
        Ok(())
    }

    /// The packet at a place, the oldest at 0.
    pub fn get(&self, place: usize) -> Option<&Sent>
        ensures { option_copied result ≡ slice_get self.now place }
    {
        self.packets.get(place)
    }

    /// Takes the oldest packet out, if there is one.
    #[inline(always)]
    pub fn take(&mut self) -> Option<Sent>
        ensures oldest { result ≡ slice_get self.old 0 }
        ensures rest { self.new ≡ drop 1 self.old }
    {
        self.packets.pop_front()
    }

    /// The same packets once more.
    ///
    /// # Errors
    /// `AllocError` where a growth is refused.
    pub fn copy(&self) -> Result<Outbox, AllocError>
        ensures { IfOk result (λ copy. copy ≡ self.now) }
    {
        let mut packets = VecDeque::with_capacity(self.allocator(), self.packets.len())?;
        append_packet_copies(&self.packets, &mut packets)?;
        Ok(Outbox { packets })
    }

    /// The allocator of the outbox.
    pub fn allocator(&self) -> Global {
        *self.packets.allocator()
    }
}
