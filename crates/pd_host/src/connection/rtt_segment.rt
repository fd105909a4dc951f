//! The timer of a connection, and the segment whose round trip is measured.
ghost use Rattle.std.specs.Prelude.{◌≡◌, ◌<◌, ◌^◌};
ghost use Rattle.pd_host.specs.RttSegment.{overlaps, rtt_segment_by_karn_after_sending, timing_started, with_sample, with_timer_updated, with_handshake_timer_ended};

use super::Connection;
use pd_seg::Span;

/// A segment whose round trip is measured.
#[derive(Clone, Copy)]
pub struct RttSegment {
    /// Its sequence numbers, those of SYN and FIN too.
    pub segment: Span,
    /// When it was sent, in microseconds since the start of the run.
    pub sent_at: u64,
}

fn overlaps(a: Span, b: Span) -> bool
    ensures { result ≡ overlaps a b }
{
    a.start < b.end && b.start < a.end
}

/// The segment that is timed after another one was sent at a moment.
fn rtt_segment_by_karn_after_sending(
    now: u64,
    segment: Span,
    top: u32,
    rtt_segment: Option<RttSegment>,
) -> Option<RttSegment>
    ensures { result ≡ rtt_segment_by_karn_after_sending now segment top rtt_segment }
{
    match rtt_segment {
        None if top <= segment.start => Some(RttSegment {
            segment,
            sent_at: now,
        }),
        Some(timing) if !overlaps(timing.segment, segment) => Some(timing),
        // Octets that were sent twice aren't measured: their ACK may be of either time (Karn's algorithm).
        _ => None,
    }
}

impl Connection {
    /// A segment was sent at a moment.
    pub fn update_rtt_segment_timer_and_last_sent(&mut self, segment: Span, now: u64)
        requires early { now < 2 ^ 62 }
        ensures { self.new ≡ timing_started now segment self.old }
    {
        self.rtt_segment = rtt_segment_by_karn_after_sending(
            now,
            segment,
            self.board.top(),
            self.rtt_segment,
        );
        self.timer.start(now);
        self.last_sent = now;
    }

    /// A sample is taken, if the timed segment lies below this ack number.
    pub fn sample(&mut self, now: u64, granularity_us: u64, ack: u32)
        requires early { now < 2 ^ 62 }
        ensures { self.new ≡ with_sample now granularity_us ack self.old }
    {
        if let Some(timing) = self.rtt_segment {
            if timing.segment.end <= ack {
                self.timer
                    .sample(now.saturating_sub(timing.sent_at), granularity_us);
                self.rtt_segment = None;
            }
        }
    }

    /// The timer starts anew, or stops where all that was sent is acknowledged.
    pub fn restart_timer_or_stop_if_all_acked(&mut self, now: u64)
        requires early { now < 2 ^ 62 }
        ensures { self.new ≡ with_timer_updated now self.old }
    {
        if self.board.una() == self.board.top() {
            self.timer.stop();
        } else {
            self.timer.restart(now);
        }
    }

    /// The timer at the end of the handshake.
    pub fn stop_handshake_timer_set_rto_if_resent(&mut self)
        ensures { self.new ≡ with_handshake_timer_ended self.old }
    {
        if self.syn_ack_resent {
            self.timer.set_timeout_after_handshake_expiry();
        }
        self.timer.stop();
    }
}
