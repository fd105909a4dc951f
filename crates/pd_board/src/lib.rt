//! The sender's scoreboard: the numbers that it sends by, and which octets the peer has (RFC 6675, section 3).
//!
//! A `Board` has SMSS, the four numbers below, and the octets that SACK blocks reported. It answers the
//! questions of RFC 6675: whether an octet is lost, how large the pipe is, and which segment to
//! send again.
//!
//! ```text
//!     una          next             top           end
//!      |  sent and not acknowledged  |   queued    |
//!      |   [SACKed]    [SACKed]      |             |
//! ```
//!
//! The numbers stay in this order and below 2^31, and SACKed octets lie from `una` on and below
//! `top`: `IsBoardView` (specs/Board.antt).
//!
//! Why it is so:
//! - Contracts see the SACKed octets as a set of numbers, the ascending list of its members, so
//!   that equal sets are equal values. So each rule can be stated of an octet, as the RFC states
//!   it. The code keeps `Ranges` instead: half-open ranges in ascending order, each apart from the
//!   next by at least one octet, so that each is a maximal run (`Between`, specs/Runs.antt). So a
//!   question takes a time that grows with the runs, and not with the octets.
//! - No octet or segment has a mark that says that it is lost. That is counted from the runs when
//!   it is asked, so no mark can be out of date; the module `counts` has these passes. The octets
//!   sent again are one number, HighRxt, which the caller keeps.
//! - All below a lost octet is lost, whatever was SACKed (the law `law_lost_downward_closed_pipe_bounded`). So
//!   one number, `lost_edge`, says all that is lost.
//! - A board that finds no memory keeps its numbers and refuses the call, and from then on each
//!   call that may fail, since without the block that was left out the rules would count wrongly.
#![tactic(auto)]

mod board;
mod laws;
mod queries;
mod ranges;

pub use board::Board;
pub use laws::law_lost_downward_closed_pipe_bounded;
pub use queries::{DUP_THRESH, SackedAbove};
