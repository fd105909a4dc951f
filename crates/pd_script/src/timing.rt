//! The times of a script's events.

/// When an event happens, in microseconds; digits after the sixth decimal were dropped.
#[derive(Clone, Copy)]
pub enum Time {
    /// `*`: at any time.
    Any,
    /// Since the start of the run.
    Absolute(u64),
    /// `+`: since the event before.
    Relative(u64),
    /// Between two moments since the start of the run, the second at least the first.
    AbsoluteRange(u64, u64),
    /// Between two moments since the event before, the second at least the first.
    RelativeRange(u64, u64),
}

/// When a blocking call comes back, in microseconds, as written after `...`.
#[derive(Clone, Copy)]
pub enum BlockingEnd {
    /// Since the start of the run.
    Absolute(u64),
    /// `+`: since the event before.
    Relative(u64),
}
