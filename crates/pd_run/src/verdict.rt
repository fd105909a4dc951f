//! The verdict of a run.
use pd_match::Kind;

/// The verdict of a script. Lines are counted from 1: that of the first token of the event that stopped the run, or
/// of the fault of a text that is no script.
#[derive(Clone, Copy, PartialEq, Eq)]
pub enum Verdict {
    /// All events passed: their number.
    Pass(usize),
    /// The event at this line didn't happen as written, and what differed first.
    Fail(usize, Kind),
    /// The grammar refuses the text at this line.
    Syntax(usize),
    /// The event or header item at this line isn't run.
    Unsupported(usize),
    /// A number of the event at this line is over its limit, or too many packets were unmatched there.
    Limit(usize),
}
