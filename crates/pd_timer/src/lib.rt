//! The retransmission timer of TCP (RFC 6298), in virtual time.
//!
//! An `Rto` has what was measured of round trips (an `Estimate`), RTO with its two bounds, and the
//! time of the next expiry while the timer runs. A `Timeout` says how RTO comes from what was
//! measured.
//!
//! ```text
//!                 start, restart: deadline = now + RTO
//!     stopped ------------------------------------------> running --+
//!        ^                                                 |   ^    | expire: RTO is doubled, up
//!        |                     stop                        |   |    | to its bound; restart
//!        +-------------------------------------------------+   +----+
//! ```
//!
//! RTO lies between its bounds, and these in the ranges of their settings: `IsBounded`
//! (specs/Rto.antt). An expiry comes at most `max_rto_us` after the timer was started, and never
//! lowers RTO: the law `law_rto_bounded_and_expiries_back_off`.
//!
//! Why it is so:
//! - No clock is read, and nobody is woken. Each call gets the present time, and the next expiry is
//!   a number that the owner asks for. So a run waits for nothing, and two runs of a script are
//!   alike.
//! - When the timer starts, restarts and stops is decided in `pd_host`, which knows what is
//!   outstanding.
//! - `sample` gets the clock's granularity as an argument, so that a timer made at the SYN depends
//!   on its two bounds alone. A timer goes by the settings that were held when its SYN was
//!   answered.
#![tactic(auto)]

mod estimate;
mod laws;
mod timer;

pub use estimate::{Estimate, Timeout};
pub use laws::law_rto_bounded_and_expiries_back_off;
pub use timer::Rto;
