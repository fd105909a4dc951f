//! The TCP sender: what it answers to calls and to segments that arrive, and which packets it puts out when.
//!
//! A `Host` has three inputs, each with its time: `call`, `arrive`, and `advance`, which performs
//! the expiries up to a time. The packets that it puts out stand in its `Outbox`, until somebody takes them. In
//! a host are the settings, which of them were consulted, descriptor 3, the connection, and, if it
//! has ended, why (`HostEnd`). A connection has a scoreboard (`pd_board`), a timer (`pd_timer`), and
//! from the establishment on congestion control (`pd_recover`, which draws the states of recovery).
//!
//! ```text
//!     CLOSED --listen--> LISTEN --SYN--> SYN-RECEIVED --ACK of ours--> ESTABLISHED
//!       ^                   |                                            |     |
//!       +------close(3)-----+                                     close  |     |  FIN
//!                                                                        v     v
//!                              FIN-WAIT-1 <------------------------------+   CLOSE-WAIT
//!                     ACK of ours |   | FIN                                    | close
//!                                 v   v                                        v
//!                        FIN-WAIT-2   CLOSING                               LAST-ACK
//!                             FIN |   | ACK of ours                            | ACK of ours
//!                                 v   v                                        v
//!                               TIME-WAIT                                    CLOSED
//!     an RST at RCV.NXT: CLOSED, for good, from each state after LISTEN
//!     a segment that acknowledges our SYN or FIN and has a FIN takes two edges at once
//! ```
//!
//! Every state that the rules reach is lawful: `IsLawful` (specs/Invariants.antt), the law
//! `law_reachable_states_lawful_and_follow_diagram`. An input gives the state and the answer of its rule, or ends the host by
//! the rule's halt: `Goes` and `Answers` (specs/InputResults.antt). A host that has ended answers that
//! again.
//!
//! Why it is so:
//! - Time is an argument. So a run waits for nothing, and each run of a script has the same packets
//!   at the same times.
//! - Packets stand in the outbox and aren't handed to anyone, so that the sender knows nothing of
//!   what a script expects, and a packet that left before its event is compared when the event
//!   comes.
//! - The name of a state isn't kept: `Host::state` finds it from the two FINs and from what is
//!   acknowledged, so it can't be another than these say. The peer's FIN is noted together with
//!   whether ours was queued then, since LAST-ACK and CLOSING differ in that alone.
//! - Settings are copied when a rule consults them, and that is noted (the module `consulted_settings`). So a
//!   copy of a host can be put under other settings (`set_settings`), and goes on as if it had always
//!   been under them, if they agree on what was consulted: `OnlyUsesMatter`, `CallsOnlyUse`
//!   (specs/InputLaws.antt).
//! - Our SYN counts as outstanding, so that one equation says when the timer runs, in the handshake
//!   too.
#![tactic(auto)]

mod ack_actions;
mod arrivals;
mod connection;
mod connection_snapshot;
mod consulted_settings;
mod descriptors;
mod endpoint;
mod established;
mod expiry;
mod halts;
mod host;
mod laws;
mod outbox;
mod send;
mod syn_options;
mod syscall;
mod syscall_table;

pub use connection::introspection::SendBlocker;
pub use connection::loss_evidence::{DupAckEffect, LossEvidence, SackEvidence};
pub use connection::segment_check::SegmentCheck;
pub use connection::states::ConnState;
pub use connection_snapshot::{ConnectionSnapshot, Recovery, WindowSnapshot};
pub use endpoint::ClonedParts;
pub use halts::{Halt, HostEnd};
pub use host::Host;
pub use laws::{
    law_calls_append_and_depend_on_consulted, law_each_send_appends_one_packet,
    law_expiries_append_in_order_without_settings, law_ordinary_sending_iff_no_blocker,
    law_outside_harmless_only_exact_rst_resets, law_packets_in_order_and_deadline_ahead,
    law_reachable_states_lawful_and_follow_diagram, law_recovery_begins_iff_evidence_complete,
    law_send_buffer_growth_per_input_bounded, law_sending_by_windows_prr_karn_fin_and_sack,
};
pub use outbox::Outbox;
pub use syscall::{SocketOperation, Syscall, is_shape_supported};
