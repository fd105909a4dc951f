//! The checks of a segment that arrives on a connection.
ghost use Rattle.std.specs.Prelude.{◌≡◌, ◌≤◌, Some, IfNone};
ghost use Rattle.pd_host.specs.declared.connection.segment_check.SegmentCheck.TheVariants.{FirstAck};
ghost use Rattle.pd_host.specs.Arrivals.{is_in_window, is_first_fin_at_rcv_nxt, has_in_window_fin_out_of_order, not_run_if_data_syn_misplaced_fin_or_closed, failed_check_if_outside_receive_window, exact_or_challenged_check_if_rst, failed_check_if_ack_flag_missing, first_or_refused_ack_check_in_handshake, failed_check_if_ack_above_top_or_below_una, failed_check_of};

use super::Connection;
use pd_seg::Segment;

/// The check that a segment doesn't pass, and so what becomes of it.
#[derive(Clone, Copy, PartialEq, Eq)]
pub enum SegmentCheck {
    /// Data, a SYN, a FIN that isn't the next octet, or anything on a closed connection: it isn't run.
    NotRun,
    /// An RST from outside the receive window: it is dropped.
    StrayRst,
    /// Another segment from outside the receive window: it is answered by an ACK and dropped.
    OutsideWindow,
    /// An RST at RCV.NXT: it resets the connection.
    ExactRst,
    /// Another RST: it is answered by an ACK and dropped.
    ChallengedRst,
    /// A segment without the ACK flag: it is dropped.
    WithoutAck,
    /// An ACK of our SYN: it establishes the connection.
    FirstAck,
    /// Another ACK in the handshake: it is refused by an RST.
    RefusedAck,
    /// An ACK of what wasn't sent: it is answered by an ACK and dropped.
    EarlyAck,
    /// An ACK below what is acknowledged: of its segment the FIN alone is looked at.
    OldAck,
}

impl Connection {
    /// The ruling of the first check that rules; `None` for a segment that passes them all.
    #[inline(always)]
    pub fn find_deciding_segment_check(&self, segment: &Segment) -> Option<SegmentCheck>
        ensures failed_check { result ≡ failed_check_of self.now segment.now }
        ensures known { IfNone result (self.now.board.una ≤ segment.now.ack) }
        ensures sent { IfNone result (segment.now.ack ≤ self.now.board.top) }
        ensures first { result ≡ Some FirstAck → (self.now.board.una ≤ 1) × (1 ≤ self.now.board.top) }
    {
        self.not_run_if_data_syn_misplaced_fin_or_closed(segment)
            .or(self.failed_check_if_outside_receive_window(segment))
            .or(self.exact_or_challenged_check_if_rst(segment))
            .or(failed_check_if_ack_flag_missing(segment))
            .or(self.first_or_refused_ack_check_in_handshake(segment))
            .or(self.failed_check_if_ack_above_top_or_below_una(segment))
    }

    fn not_run_if_data_syn_misplaced_fin_or_closed(&self, segment: &Segment) -> Option<SegmentCheck>
        ensures { result ≡ not_run_if_data_syn_misplaced_fin_or_closed self.now segment.now }
    {
        if segment.data_len() > 0
            || segment.flags.syn
            || self.has_in_window_fin_out_of_order(segment)
            || self.state().is_closed()
        {
            Some(SegmentCheck::NotRun)
        } else {
            None
        }
    }

    /// Whether it has a FIN in the receive window that isn't the peer's next octet.
    fn has_in_window_fin_out_of_order(&self, segment: &Segment) -> bool
        ensures { result ≡ has_in_window_fin_out_of_order self.now segment.now }
    {
        segment.flags.fin && self.is_in_window(segment) && !self.is_first_fin_at_rcv_nxt(segment)
    }

    /// Whether its FIN is the peer's next octet, and the first one.
    fn is_first_fin_at_rcv_nxt(&self, segment: &Segment) -> bool
        ensures { result ≡ is_first_fin_at_rcv_nxt self.now segment.now }
    {
        self.peer_fin().is_awaited() && segment.start == self.rcv_nxt()
    }

    fn is_in_window(&self, segment: &Segment) -> bool
        ensures { result ≡ is_in_window self.now segment.now }
    {
        let next = self.rcv_nxt();
        next <= segment.start && segment.start - next < self.rcv_wnd
    }

    fn failed_check_if_outside_receive_window(&self, segment: &Segment) -> Option<SegmentCheck>
        ensures { result ≡ failed_check_if_outside_receive_window self.now segment.now }
    {
        if self.is_in_window(segment) {
            None
        } else if segment.flags.rst {
            Some(SegmentCheck::StrayRst)
        } else {
            Some(SegmentCheck::OutsideWindow)
        }
    }

    fn exact_or_challenged_check_if_rst(&self, segment: &Segment) -> Option<SegmentCheck>
        ensures { result ≡ exact_or_challenged_check_if_rst self.now segment.now }
    {
        if !segment.flags.rst {
            None
        } else if segment.start == self.rcv_nxt() {
            Some(SegmentCheck::ExactRst)
        } else {
            Some(SegmentCheck::ChallengedRst)
        }
    }

    fn first_or_refused_ack_check_in_handshake(&self, segment: &Segment) -> Option<SegmentCheck>
        ensures failed_check { result ≡ first_or_refused_ack_check_in_handshake self.now segment.now }
        ensures known { IfNone self.now.established (self.now.board.una ≤ 1) }
    {
        if self.established.is_some() {
            None
        } else if self.board.una() < segment.ack && segment.ack <= self.board.top() {
            Some(SegmentCheck::FirstAck)
        } else {
            Some(SegmentCheck::RefusedAck)
        }
    }

    fn failed_check_if_ack_above_top_or_below_una(&self, segment: &Segment) -> Option<SegmentCheck>
        ensures { result ≡ failed_check_if_ack_above_top_or_below_una self.now segment.now }
    {
        if self.board.top() < segment.ack {
            Some(SegmentCheck::EarlyAck)
        } else if segment.ack < self.board.una() {
            Some(SegmentCheck::OldAck)
        } else {
            None
        }
    }
}

fn failed_check_if_ack_flag_missing(segment: &Segment) -> Option<SegmentCheck>
    ensures { result ≡ failed_check_if_ack_flag_missing segment.now }
{
    if segment.flags.ack {
        None
    } else {
        Some(SegmentCheck::WithoutAck)
    }
}
