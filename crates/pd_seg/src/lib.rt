//! TCP segments as the sender takes them and puts them out, and what its calls answer.
//!
//! A `Segment` has control bits (`Flags`), the numbers of its data, an ack number, the window field
//! as it stands there, and its options (`SegOptions`), with the blocks of SACK (`SackSpans`) among
//! them. A `Sent` is a segment with the time at which it was put out and the rule that let it go
//! (`SendRule`). An `Answer` is what a call answers.
//!
//! These are plain values without a rule: to compare two is equality, and a copy is an equal value.
//! The rules begin in `pd_board`.
//!
//! Why it is so:
//! - A segment has no octets of data, only the numbers of the first and of the one after the last,
//!   since no rule of the sender and no expectation of a script looks at data.
//! - Both initial sequence numbers are 0, as scripts write numbers, so that no rule adds or
//!   subtracts a start. SYN and FIN are control bits, and don't lie between `start` and `end`; the
//!   sender counts them itself.
//! - A packet keeps its rule, since a later look at the state can't tell it: the same octets may
//!   leave by three rules of loss recovery. No rule reads it, and no expectation compares it.
//! - It isn't the `Packet` of `pd_script`. A script may leave out an ack number or a window, and
//!   write that any options will do; a segment has all of it. `pd_match` compares the two.
#![tactic(auto)]

mod call_results;
mod flags;
mod option_list;
mod sack_spans;
mod segments;
mod send_rule;

pub use call_results::{Answer, Errno};
pub use flags::Flags;
pub use option_list::{SegOption, SegOptions};
pub use sack_spans::{SackSpans, Span};
pub use segments::{Segment, Sent};
pub use send_rule::SendRule;
