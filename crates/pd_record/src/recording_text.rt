//! Recordings as texts.
use crate::recorded::TraceSnapshot;
use pd_text::Lines;

/// A recording: the text of a script that passes.
#[derive(Drop)]
pub struct Recording {
    /// Its lines.
    pub lines: Lines,
    /// How many events it has.
    pub events: usize,
    /// The trace of each of its events, in order; nothing where no trace is written.
    pub trace_entries: Vec<TraceEntry>,
}

/// The trace of an event.
#[derive(Clone, Copy)]
pub struct TraceEntry {
    /// How many lines stand up to the event's end.
    pub lines: usize,
    /// The event's moment, in microseconds since the start of the run.
    pub at: u64,
    /// The sender after the input or expiry that the event belongs to.
    pub sender: TraceSnapshot,
    /// Of a packet that left what let it go; nothing of an input.
    pub origin: Option<TraceOrigin>,
}

/// The input or timer that let a packet go.
#[derive(Clone, Copy)]
pub enum TraceOrigin {
    /// The input that begins at a line of the trace.
    Line(usize),
    /// The timer.
    Timer,
}
