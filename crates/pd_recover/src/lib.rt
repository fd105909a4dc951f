//! Congestion control (RFC 5681) and loss recovery (RFC 6675): how much may be sent, and what an ACK leads to.
//!
//! A `Cong` has the congestion window, the slow start threshold, and what loss recovery keeps.
//! `Cong::on_ack` takes an `Ack`, which says what a segment acknowledged and where the sender
//! stands since, and answers what to send (`AckAction`). In recovery with SACK, `Cong::next_send`
//! chooses each segment by NextSeg (`NextSegment`). A `PrrState` has the counts of Proportional
//! Rate Reduction (RFC 9937), if the setting `recovery_algorithm` asks for it.
//!
//! ```text
//!     no recovery -- third duplicate, with SACK also one that shows SND.UNA as lost --> recovery
//!          ^                                                                               |
//!          +-- with SACK: an ACK that reaches RecoveryPoint -------------------------------+
//!          +-- without SACK: an ACK of new octets -----------------------------------------+
//!          +-- an expiry ------------------------------------------------------------------+
//!     at each expiry RecoveryPoint becomes the top; below it duplicates begin no recovery
//! ```
//!
//! Windows and counts are always in their ranges: `IsCongView` (specs/Cong.antt). The law
//! `law_congestion_control_and_loss_recovery` says what holds of all states that the rules reach.
//!
//! Why it is so:
//! - `on_ack` sends nothing. It is a function from a state and an ACK to the next state and what
//!   follows, and `pd_host` sends. So a rule sees no outbox and no clock, takes no memory, and
//!   can't fail.
//! - HighRxt, RescueRxt and RecoveryPoint are each kept as the number after their octet, so that 0
//!   is none and all are compared with SND.UNA as it is.
//! - DupAcks is counted up to DupThresh + 1, and the octets of limited transmit up to 2^31. No rule
//!   distinguishes larger counts, so no count needs a condition.
//! - The settings are consulted once, at the establishment (`Cong::new`), and what they say is
//!   kept. So a run depends on them from that event on and no earlier.
//! - A `Cong` is `Copy`: it has no list. Which octets are lost or on the way is asked of
//!   `pd_board`.
#![tactic(auto)]

mod ack;
mod ack_action;
mod congestion;
mod laws;
mod next_segment;
mod prr;

pub use ack::{Ack, Delivery, SackNews};
pub use ack_action::AckAction;
pub use congestion::Cong;
pub use laws::law_congestion_control_and_loss_recovery;
pub use next_segment::NextSegment;
pub use prr::PrrState;
