//! The report of an event that didn't happen as written. Texts are octets as a script has them, neither escaped nor cut.
use crate::causes::not_sent_reason::NotSentReason;
use crate::causes::outlook::Outlook;
use crate::dropped::DroppedSegment;
use crate::origins::Origin;
use pd_host::{ConnState, ConnectionSnapshot};
use pd_match::Kind;

/// An event that didn't happen as written.
#[derive(Drop)]
pub struct Failure {
    /// How the event failed.
    pub failed: Failed,
    /// The packets that were put out and not taken, the one compared left out.
    pub unmatched: Unmatched,
    /// The origin of the packet that was compared, if one was, and then of each of those that are listed. None of a run that isn't
    /// a script's.
    pub origins: Vec<Origin>,
    /// Where a packet differs or is missing, the last segments that checks dropped before the event: four at most, of those that
    /// arrived in the 16 events before it. None of a run that isn't a script's.
    pub dropped: Vec<DroppedSegment>,
    /// The sender at the stop.
    pub sender: SenderSnapshot,
}

impl Failure {
    /// The origin of the packet that was compared, if one was.
    pub fn origin_of_compared_packet_if_any(&self) -> Option<Origin> {
        match self.failed {
            Failed::Packet(_) => self.origins.first().copied(),
            Failed::Missing(_) | Failed::Result(_) | Failed::Backwards(_) => None,
        }
    }

    /// The origins of the packets that are listed as unmatched.
    pub fn unmatched_origins(&self) -> &[Origin] {
        match (&self.failed, self.origins.as_slice()) {
            (Failed::Packet(_), [_, listed @ ..]) => listed,
            (_, origins) => origins,
        }
    }
}

/// How an event failed.
#[derive(Drop)]
pub enum Failed {
    /// The packet that was sent differs from the script's.
    Packet(WrongPacket),
    /// No packet was sent in time.
    Missing(MissingPacket),
    /// The call answered something else.
    Result(WrongResult),
    /// The event's time lies before the base.
    Backwards(TimeBackwards),
}

/// A packet of a script beside the one that was sent.
#[derive(Drop)]
pub struct WrongPacket {
    /// The first field that differs.
    pub kind: Kind,
    /// The event of the script: its time as written, and of the packet what is written.
    pub script: Vec<u8>,
    /// The event that happened, with all fields and its moment in a comment.
    pub actual: Vec<u8>,
    /// When it happened, in microseconds since the start of the run.
    pub at: u64,
    /// When the packet was awaited, where its time is what differs.
    pub expected_time: Option<ExpectedTime>,
    /// How many packets come before the awaited one, this one the first: no line asks for them. 0 where the awaited one isn't among
    /// those that were sent.
    pub unexpected: usize,
}

/// When a packet was awaited, in microseconds since the start of the run.
#[derive(Clone, Copy)]
pub struct ExpectedTime {
    /// The first moment.
    pub first: u64,
    /// The last moment.
    pub last: u64,
    /// How far outside of these a packet may be sent.
    pub tolerance: u64,
}

/// A packet of a script that wasn't sent.
#[derive(Drop)]
pub struct MissingPacket {
    /// The event of the script: its time as written, and of the packet what is written.
    pub script: Vec<u8>,
    /// When the packet was awaited; nothing for `*`.
    pub expected_time: Option<ExpectedTime>,
    /// When the timer expires next, in microseconds since the start of the run; nothing where it doesn't run.
    pub expiry: Option<u64>,
    /// Why nothing was sent.
    pub reason: NotSentReason,
    /// The same in words, with the numbers concerned.
    pub words: Vec<u8>,
    /// The events that may lead to sending next.
    pub outlook: Outlook,
}

/// A call that answered something else.
#[derive(Drop)]
pub struct WrongResult {
    /// The event as written.
    pub call: Vec<u8>,
    /// The result as written.
    pub expected: Vec<u8>,
    /// The answer, as a script writes it.
    pub answer: Vec<u8>,
}

/// An event whose time lies before the base.
#[derive(Drop)]
pub struct TimeBackwards {
    /// The event as written.
    pub event: Vec<u8>,
    /// Its moment, in microseconds since the start of the run.
    pub time: u64,
    /// The moment that it lies before.
    pub base: u64,
}

/// Packets that were put out and not taken.
#[derive(Drop)]
pub struct Unmatched {
    /// The oldest of them, the oldest first, as events that happened: ten at most.
    pub packets: Vec<Vec<u8>>,
    /// How many more there are.
    pub more: usize,
}

impl Unmatched {
    /// How many packets were put out and not taken.
    pub fn count(&self) -> usize {
        self.packets.len().saturating_add(self.more)
    }
}

/// How a sender stands.
#[derive(Clone, Copy)]
pub struct SenderSnapshot {
    /// The name of its state.
    pub state: ConnState,
    /// The numbers of its connection, if it has one.
    pub connection_snapshot: Option<ConnectionSnapshot>,
    /// When its timer expires next, in microseconds since the start of the run; nothing where it doesn't run.
    pub expiry: Option<u64>,
}
