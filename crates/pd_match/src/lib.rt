//! Whether a packet that was sent, or the answer of a call, is what a script expects.
//!
//! `check_packet` compares a packet that was sent with an `Expect`: the packet as the script writes
//! it, and the first and the last moment at which it may leave. `check_call` compares the answer of
//! a call with the written result. Each gives the first thing that differs, a `Kind`, or nothing. A
//! `Kind` is the word of a fail in a report, too; the kinds `Missing` and `Backwards` are found in
//! `pd_run`.
//!
//! The kind is the first of `compared` in which the packet doesn't agree, and without one it agrees
//! in all: `mismatch` (specs/Packets.antt), `Agrees` and `IsFirstFailing` (specs/Agreement.antt),
//! the law `law_first_mismatch_of_packets_and_calls`.
//!
//! Why it is so:
//! - A fail names one thing. The order is fixed, so the word depends on the packet alone, and not
//!   on the way in which it was compared.
//! - A field that a script doesn't write isn't compared: an ack number, a window, or options written as
//!   `<...>`. If no options are written, none may be sent.
//! - Moments come from the caller, since relative times count from a base, which `pd_run` keeps.
//! - A result is compared as a number first, so that `-1` stands for any error. Only if the script
//!   names an error, the answer must be that one.
#![tactic(auto)]

mod expected_call;
mod expected_packet;
mod kinds;
mod laws;
mod written_options;

pub use expected_call::check_call;
pub use expected_packet::{Expect, check_packet};
pub use kinds::Kind;
pub use laws::law_first_mismatch_of_packets_and_calls;
