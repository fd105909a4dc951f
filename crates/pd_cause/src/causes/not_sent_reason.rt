//! Why no packet was sent.
ghost use Rattle.std.specs.Prelude.{◌≡◌};
ghost use Rattle.pd_cause.specs.Reasons.{send_blocker_key, reason_key};
ghost use Rattle.pd_cause.specs.SenderSnapshots.{expects_no_sequence_space, reason_of};

use crate::causes::sentences::{Phrase, put_concatenated_phrases};
use pd_host::{ConnectionSnapshot, Recovery, SendBlocker};
use pd_script::Action;
use std::alloc::{AllocError, Global};

/// Why no packet was sent: the first of these that holds.
#[derive(Clone, Copy, PartialEq, Eq)]
pub enum NotSentReason {
    /// The awaited packet has no octets, so it is an answer to something that didn't come. It is looked at once a connection is
    /// established and wasn't reset.
    NoOctets,
    /// The blocker that holds the sender back.
    Held(SendBlocker),
}

use Phrase::Words;

/// The numbers that reasons name, 0 where there is no connection.
#[derive(Clone, Copy)]
struct SendNumbers {
    /// The number after the last octet queued.
    end: u32,
    /// The octet that has to lie within the windows for the next segment to leave.
    wanted: u32,
    /// How many octets were sent and aren't acknowledged.
    flight: u32,
    smss: u32,
    cwnd: u32,
    pipe: u32,
    /// The number after the last octet within the peer's window.
    peer_edge: u32,
    /// The number after the last octet within the congestion window.
    congestion_edge: u32,
    /// How many octets are queued and weren't sent.
    unsent: u32,
    /// How many octets the windows let leave from there on.
    usable: u32,
}

impl NotSentReason {
    /// Why a packet that is expected wasn't sent, by what holds the sender back.
    pub fn no_octets_expected_or_blocker(
        expected: &Action,
        send_blocker: SendBlocker,
    ) -> NotSentReason
        ensures { result ≡ reason_of expected.now send_blocker }
    {
        match send_blocker {
            SendBlocker::Reset | SendBlocker::NotEstablished => NotSentReason::Held(send_blocker),
            _ if expects_no_sequence_space(expected) => NotSentReason::NoOctets,
            _ => NotSentReason::Held(send_blocker),
        }
    }

    /// Its name in JSON.
    pub fn key(self) -> &'static str
        ensures { result.now ≡ reason_key self }
    {
        match self {
            NotSentReason::NoOctets => "no_octets",
            NotSentReason::Held(send_blocker) => send_blocker_key(send_blocker),
        }
    }

    /// The reason in words, with the numbers of the connection that it concerns. `wanted` is the octet that has to lie within
    /// the windows for the next segment to leave.
    ///
    /// # Errors
    /// `AllocError` where a growth is refused.
    pub fn in_words(
        self,
        alloc: Global,
        connection_snapshot: Option<ConnectionSnapshot>,
        wanted: Option<u32>,
    ) -> Result<Vec<u8>, AllocError> {
        match self {
            NotSentReason::NoOctets => concatenate_phrases(
                alloc,
                &[Words(
                    "the awaited packet has no octets (no data, SYN or FIN), so it is an answer to something that didn't come",
                )],
            ),
            NotSentReason::Held(send_blocker) => {
                let numbers = SendNumbers {
                    wanted: wanted.unwrap_or(0),
                    ..SendNumbers::from_snapshot_or_all_zero(connection_snapshot)
                };
                blocker_in_words(alloc, send_blocker, numbers)
            }
        }
    }
}

/// Whether a packet is expected that has no octets: no data, SYN or FIN.
fn expects_no_sequence_space(expected: &Action) -> bool
    ensures { result ≡ expects_no_sequence_space expected.now }
{
    match expected {
        Action::Outbound(packet) => packet.length == 0 && !packet.flags.syn && !packet.flags.fin,
        Action::Inbound(_) | Action::Call(_) | Action::Command | Action::Code => false,
    }
}

fn send_blocker_key(send_blocker: SendBlocker) -> &'static str
    ensures { result.now ≡ send_blocker_key send_blocker }
{
    match send_blocker {
        SendBlocker::Reset => "reset",
        SendBlocker::NotEstablished => "not_established",
        SendBlocker::Acknowledged => "acknowledged",
        SendBlocker::PipeFull => "pipe_full",
        SendBlocker::NothingNext => "nothing_next",
        SendBlocker::Recovering => "recovering",
        SendBlocker::AllSent => "all_sent",
        SendBlocker::PeerWindow => "peer_window",
        SendBlocker::CongestionWindow => "congestion_window",
        SendBlocker::PartOfSegment => "part_of_segment",
        SendBlocker::Nagle => "nagle",
        SendBlocker::Open => "open",
    }
}

fn blocker_in_words(
    alloc: Global,
    send_blocker: SendBlocker,
    numbers: SendNumbers,
) -> Result<Vec<u8>, AllocError> {
    let words = match send_blocker {
        SendBlocker::Reset => "the connection was reset (RFC 9293, section 3.10.7.4)",
        SendBlocker::NotEstablished => "no connection is established",
        SendBlocker::NothingNext =>
            "in recovery with SACK, NextSeg gives nothing (RFC 6675, section 4)",
        SendBlocker::Recovering => "in recovery with SACK, a call sends nothing by itself",
        SendBlocker::Open => "a segment could leave, and nothing has led to sending since",
        _ => return numbered_blocker_in_words(alloc, send_blocker, numbers),
    };
    concatenate_phrases(alloc, &[Words(words)])
}

/// A reason that names numbers, in words.
fn numbered_blocker_in_words(
    alloc: Global,
    send_blocker: SendBlocker,
    numbers: SendNumbers,
) -> Result<Vec<u8>, AllocError> {
    match send_blocker {
        SendBlocker::Acknowledged => concatenate_phrases(
            alloc,
            &[
                Words("all that was handed over is acknowledged: una is end, "),
                number_as_phrase(numbers.end),
            ],
        ),
        SendBlocker::AllSent => concatenate_phrases(
            alloc,
            &[
                Words("all that is queued was sent, up to "),
                number_as_phrase(numbers.end),
                Words(", and only the timer sends the oldest again (RFC 6298, section 5.4)"),
            ],
        ),
        SendBlocker::PeerWindow => concatenate_phrases(
            alloc,
            &[
                Words("octet "),
                number_as_phrase(numbers.wanted),
                Words(" lies beyond the peer's window, which ends before octet "),
                number_as_phrase(numbers.peer_edge),
                Words(" (RFC 9293, section 3.8.6)"),
            ],
        ),
        SendBlocker::CongestionWindow => concatenate_phrases(
            alloc,
            &[
                Words("octet "),
                number_as_phrase(numbers.wanted),
                Words(" lies beyond the congestion window, which ends before octet "),
                number_as_phrase(numbers.congestion_edge),
                Words(" (RFC 5681, section 3.1)"),
            ],
        ),
        _ => segment_size_blocker_in_words(alloc, send_blocker, numbers),
    }
}

/// A reason that names a segment, in words.
fn segment_size_blocker_in_words(
    alloc: Global,
    send_blocker: SendBlocker,
    numbers: SendNumbers,
) -> Result<Vec<u8>, AllocError> {
    match send_blocker {
        SendBlocker::PipeFull => concatenate_phrases(
            alloc,
            &[
                Words("in recovery with SACK, cwnd "),
                number_as_phrase(numbers.cwnd),
                Words(" less the pipe "),
                number_as_phrase(numbers.pipe),
                Words(" is below SMSS "),
                number_as_phrase(numbers.smss),
                Words(" (RFC 6675, section 5, step C)"),
            ],
        ),
        SendBlocker::PartOfSegment => concatenate_phrases(
            alloc,
            &[
                Words("the windows leave only "),
                number_as_phrase(numbers.usable),
                Words(" octets of a segment of "),
                number_as_phrase(numbers.unsent.min(numbers.smss)),
                Words(" (RFC 9293, section 3.8.6.2.1)"),
            ],
        ),
        _ => concatenate_phrases(
            alloc,
            &[
                Words("Nagle's algorithm holds "),
                number_as_phrase(numbers.unsent_octets_within_windows()),
                Words(if numbers.unsent_octets_within_windows() == 1 {
                    " octet, less than SMSS "
                } else {
                    " octets, less than SMSS "
                }),
                number_as_phrase(numbers.smss),
                Words(", while "),
                number_as_phrase(numbers.flight),
                Words(" are outstanding (RFC 9293, section 3.7.4)"),
            ],
        ),
    }
}

fn number_as_phrase(number_phrase: u32) -> Phrase {
    Phrase::Number(u64::from(number_phrase))
}

/// The pieces one after the other.
fn concatenate_phrases(alloc: Global, pieces: &[Phrase]) -> Result<Vec<u8>, AllocError> {
    let mut words = Vec::new(alloc);
    put_concatenated_phrases(&mut words, pieces)?;
    Ok(words)
}

impl SendNumbers {
    fn from_snapshot_or_all_zero(connection_snapshot: Option<ConnectionSnapshot>) -> SendNumbers {
        let Some(connection_snapshot) = connection_snapshot else {
            return SendNumbers::all_zero();
        };
        let mut numbers = SendNumbers {
            end: connection_snapshot.end,
            flight: connection_snapshot
                .top
                .saturating_sub(connection_snapshot.una),
            smss: u32::from(connection_snapshot.smss),
            unsent: connection_snapshot
                .end
                .saturating_sub(connection_snapshot.top),
            ..SendNumbers::all_zero()
        };
        if let Some(windows) = connection_snapshot.windows {
            numbers.cwnd = windows.cwnd;
            numbers.peer_edge = connection_snapshot.una.saturating_add(windows.rwnd);
            numbers.congestion_edge = connection_snapshot.una.saturating_add(windows.cwnd);
            numbers.usable = numbers
                .peer_edge
                .min(numbers.congestion_edge)
                .saturating_sub(connection_snapshot.top);
            if let Recovery::WithSack(pipe) = windows.recovery {
                numbers.pipe = pipe;
            }
        }
        numbers
    }

    /// How many octets may leave by the windows.
    fn unsent_octets_within_windows(self) -> u32 {
        self.unsent.min(self.usable)
    }

    fn all_zero() -> SendNumbers {
        SendNumbers {
            end: 0,
            wanted: 0,
            flight: 0,
            smss: 0,
            cwnd: 0,
            pipe: 0,
            peer_edge: 0,
            congestion_edge: 0,
            unsent: 0,
            usable: 0,
        }
    }
}
