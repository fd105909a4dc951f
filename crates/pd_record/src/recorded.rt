//! Recordings of a script's events.
ghost use Rattle.std.specs.Prelude.{◌≡◌};

use pd_host::{ConnState, ConnectionSnapshot, Host};
use pd_script::Event;
use pd_seg::Answer;
use std::marker::Model;

/// How a sender stands.
#[derive(Clone, Copy)]
pub struct TraceSnapshot {
    /// The state of its connection.
    pub state: ConnState,
    /// The numbers of its connection, if it has one.
    pub connection_snapshot: Option<ConnectionSnapshot>,
    /// When its timer expires next, in microseconds since the start of the run; nothing where it doesn't run.
    pub expiry: Option<u64>,
    /// How many packets left that no event has taken.
    pub unmatched: usize,
}

impl TraceSnapshot {
    ghost use Rattle.pd_record.specs.SenderSnapshots.{snapshot_of};

    /// How the sender of a host stands.
    pub fn of_host(host: &Host) -> TraceSnapshot
        ensures { result ≡ snapshot_of host.now }
    {
        TraceSnapshot {
            state: host.state(),
            connection_snapshot: host.connection_snapshot(),
            expiry: host.deadline(),
            unmatched: host.outbox().len(),
        }
    }
}

/// An event that was recorded.
#[derive(Drop)]
pub struct RecordedEvent {
    /// The event: its time counts from the event recorded before, and its packet or result is the sender's.
    pub event: Event,
    /// Its moment, in microseconds since the start of the run.
    pub at: u64,
}

/// The recording of one event of a script.
#[derive(Drop)]
pub struct EventRecording {
    /// The packets that are before an input: those that left before it, and that no expected packet has met.
    pub before: Vec<RecordedEvent>,
    /// The event in its place: an input, or the packet that an expected one met, unless it was recorded before.
    pub own: Option<OwnEvent>,
}

impl Model for EventRecording {
    ghost use Rattle.pd_record.specs.Recorder.{EventRecordingView};

    ghost Value = { EventRecordingView };

    ghost view = { λ t. record { before = t.before.items; own = t.own } };
}

/// The answer of a call.
#[derive(Clone, Copy)]
pub struct RecordedAnswer {
    /// The answer.
    pub answer: Answer,
    /// Whether it is the written result, whose note stays then.
    pub is_expected: bool,
}

/// The event in the place of one of a script.
#[derive(Drop)]
pub struct OwnEvent {
    /// The recorded event.
    pub recorded: RecordedEvent,
    /// Of a call what it answers.
    pub recorded_answer: Option<RecordedAnswer>,
}
