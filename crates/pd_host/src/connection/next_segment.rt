//! Which segment a connection sends next, and what a segment has.
ghost use Rattle.std.specs.Prelude.{◌≡◌, ◌<◌, ◌^◌, Some, IfSome, IfOk};
ghost use Rattle.pd_host.specs.Connection.{data_end};
ghost use Rattle.pd_host.specs.Packets.{covers_fin, has_last_data_octet, data_of};
ghost use Rattle.pd_host.specs.SendBlockers.{may_leave_by_sws_ignoring_nagle};
ghost use Rattle.pd_host.specs.Sending.{una_plus_smaller_window, usable_window, unsent_octets, unsent_octets_in_usable_window, unsent_segment, can_send_full_segment, is_unsent_within_usable_window, can_send_half_max_window, may_leave_by_sws_and_nagle, is_partial_held_by_nagle_unless_fin, next_new_segment, retransmit_segment_at_next_if_in_windows, found, ordinary_rule, is_all_acked_and_idle_over_rto, restarted_if_idle, with_next_past_sacked, sent_on};
ghost use Rattle.pd_host.specs.Steps.{IsQueued};

use super::Connection;
use super::control_segments::{MAX_WINDOW_FIELD, NO_FLAGS};
use crate::established::Established;
use pd_seg::{Flags, SegOptions, Segment, SendRule, Span};
use std::alloc::{AllocError, Global};

impl Connection {
    /// The number after the last octet of data that is queued.
    fn data_end(&self) -> u32
        ensures { result ≡ data_end self.now }
    {
        if self.fin {
            self.board.end().saturating_sub(1)
        } else {
            self.board.end()
        }
    }

    fn covers_fin(&self, segment: Span) -> bool
        ensures { result ≡ covers_fin self.now segment }
    {
        self.fin && segment.start < self.board.end() && self.board.end() <= segment.end
    }

    fn has_last_data_octet(&self, segment: Span) -> bool
        ensures { result ≡ has_last_data_octet self.now segment }
    {
        segment.start < self.data_end() && self.data_end() <= segment.end
    }

    /// A segment with these octets of data.
    pub fn data_segment(&self, segment: Span, alloc: Global) -> Segment
        ensures { result ≡ data_of self.now segment }
    {
        Segment {
            flags: Flags {
                fin: self.covers_fin(segment),
                psh: self.has_last_data_octet(segment),
                ack: true,
                ..NO_FLAGS
            },
            start: segment.start,
            end: segment.end.min(self.data_end()),
            ack: self.rcv_nxt(),
            win: self.own_window_field(),
            options: SegOptions::new(alloc),
        }
    }

    fn una_plus_smaller_window(&self, established: &Established) -> u32
        ensures { result ≡ una_plus_smaller_window self.now established.now }
    {
        self.board.una() + established.congestion.cwnd().min(established.rwnd)
    }

    /// U: how many octets from the sending place on the windows let leave.
    fn usable_window(&self, established: &Established) -> u32
        ensures { result ≡ usable_window self.now established.now }
    {
        self.una_plus_smaller_window(established)
            .saturating_sub(self.board.next())
    }

    /// D: how many octets are queued from there on.
    fn unsent_octets(&self) -> u32
        ensures { result ≡ unsent_octets self.now }
    {
        self.board.end().saturating_sub(self.board.next())
    }

    fn unsent_octets_in_usable_window(&self, established: &Established) -> u32
        ensures { result ≡ unsent_octets_in_usable_window self.now established.now }
    {
        self.unsent_octets().min(self.usable_window(established))
    }

    fn unsent_segment(&self, established: &Established) -> Span
        ensures value { result ≡ unsent_segment self.now established.now }
        ensures queued { IsQueued result self.now }
    {
        let octets = self
            .unsent_octets_in_usable_window(established)
            .min(u32::from(self.board.smss()));
        Span {
            start: self.board.next(),
            end: self.board.next() + octets,
        }
    }

    /// Whether Nagle's algorithm holds a segment that isn't full.
    fn is_partial_held_by_nagle_unless_fin(&self, established: &Established) -> bool
        ensures { result ≡ is_partial_held_by_nagle_unless_fin self.now established.now }
    {
        established.nagle
            && self.board.una() < self.board.top()
            && !self.covers_fin(self.unsent_segment(established))
    }

    /// Whether a full segment can leave.
    fn can_send_full_segment(&self, established: &Established) -> bool
        ensures { result ≡ can_send_full_segment self.now established.now }
    {
        self.unsent_octets_in_usable_window(established) >= u32::from(self.board.smss())
    }

    /// Whether all that is queued can leave.
    fn is_unsent_within_usable_window(&self, established: &Established) -> bool
        ensures { result ≡ is_unsent_within_usable_window self.now established.now }
    {
        self.unsent_octets() <= self.usable_window(established)
    }

    /// Whether at least half of the largest window seen can leave.
    fn can_send_half_max_window(&self, established: &Established) -> bool
        ensures { result ≡ can_send_half_max_window self.now established.now }
    {
        u64::from(self.unsent_octets_in_usable_window(established)) * 2
            >= u64::from(self.max_window)
    }

    /// Whether a segment of new octets leaves.
    pub fn may_leave_by_sws_and_nagle(&self, established: &Established) -> bool
        ensures { result ≡ may_leave_by_sws_and_nagle self.now established.now }
    {
        self.can_send_full_segment(established)
            || ((self.is_unsent_within_usable_window(established)
                || self.can_send_half_max_window(established))
                && !self.is_partial_held_by_nagle_unless_fin(established))
    }

    /// Whether what could leave is a segment worth sending, Nagle's algorithm apart.
    pub fn may_leave_by_sws_ignoring_nagle(&self, established: &Established) -> bool
        ensures { result ≡ may_leave_by_sws_ignoring_nagle self.now established.now }
    {
        self.can_send_full_segment(established)
            || self.is_unsent_within_usable_window(established)
            || self.can_send_half_max_window(established)
    }

    fn next_new_segment(&self, established: &Established) -> Option<Span>
        ensures value { result ≡ next_new_segment self.now established.now }
        ensures queued { IfSome result (λ segment. IsQueued segment self.now) }
    {
        if self.unsent_octets_in_usable_window(established) > 0
            && self.may_leave_by_sws_and_nagle(established)
        {
            Some(self.unsent_segment(established))
        } else {
            None
        }
    }

    fn retransmit_segment_at_next_if_in_windows(&self, established: &Established) -> Option<Span>
        ensures value { result ≡ retransmit_segment_at_next_if_in_windows self.now established.now }
        ensures queued { IfSome result (λ segment. IsQueued segment self.now) }
    {
        let segment = self.board.run_at(self.board.next());
        if segment.end <= self.una_plus_smaller_window(established) {
            Some(segment)
        } else {
            None
        }
    }

    /// The segment that ordinary sending sends next.
    pub fn next_segment(&self) -> Option<Span>
        ensures value { result ≡ found (Some self.now) }
        ensures queued { IfSome result (λ segment. IsQueued segment self.now) }
    {
        let Some(established) = &self.established else {
            return None;
        };
        if self.board.next() < self.board.top() {
            self.retransmit_segment_at_next_if_in_windows(established)
        } else {
            self.next_new_segment(established)
        }
    }

    /// The rule by which that segment leaves: octets that were sent before an expiry again, or new ones.
    pub fn ordinary_rule(&self) -> SendRule
        ensures { result ≡ ordinary_rule self.now }
    {
        if self.board.next() < self.board.top() {
            SendRule::AfterExpiry
        } else {
            SendRule::NewData
        }
    }

    /// Whether no octets were sent for longer than RTO and none are outstanding.
    fn is_all_acked_and_idle_over_rto(&self, now: u64) -> bool
        ensures { result ≡ is_all_acked_and_idle_over_rto now self.now }
    {
        self.board.una() == self.board.top()
            && now.saturating_sub(self.last_sent) > self.timer.rto()
    }

    /// Sending begins at a moment: after an idle time the congestion window restarts, where the setting was on (RFC 5681,
    /// section 4.1).
    pub fn restart_cwnd_if_idle_and_setting_on(&mut self, now: u64)
        ensures { self.new ≡ restarted_if_idle now self.old }
    {
        let idle = self.is_all_acked_and_idle_over_rto(now);
        let smss = self.board.smss();
        if let Some(established) = &mut self.established {
            established.congestion.restart_cwnd_if_idle(smss, idle);
        }
    }

    /// The sending place moves past SACKed octets.
    pub fn advance_next_past_sacked(&mut self)
        ensures { self.new ≡ with_next_past_sacked self.old }
    {
        self.board.advance_next_past_sacked();
    }

    /// A segment was sent from the sending place at a moment.
    ///
    /// # Errors
    /// `AllocError` where the scoreboard has found no memory before.
    pub fn note_segment_sent(&mut self, segment: Span, now: u64) -> Result<(), AllocError>
        requires early { now < 2 ^ 62 }
        requires queued { IsQueued segment self.old }
        ensures { IfOk result (λ done. self.new ≡ sent_on now segment self.old) }
    {
        self.update_rtt_segment_timer_and_last_sent(segment, now);
        self.board.sent(segment.end)
    }
}
