//! Sending with SACK: NextSeg (`next_send`, whatever cwnd is); step C and limited transmit if cwnd - pipe holds a segment.
ghost use Rattle.std.specs.Prelude.{◌≡◌, ◌+◌, ◌≤◌, IfSome};
ghost use Rattle.std.specs.Bool.{OnTrue};
ghost use Rattle.pd_board.specs.Board.{IsBoardView};
ghost use Rattle.pd_recover.specs.NextSeg.{IsSendable, segment_of, first_by_next_seg_rules, next_send, step_c_segment, limited_transmit_segment, board_new_segment_at_top_if_whole_in_rwnd, has_room_for_segment, with_sent_noted};

use super::Cong;
use super::on_ack::new_segment_at_top_if_whole_in_rwnd;
use crate::next_segment::NextSegment;
use pd_board::Board;
use pd_seg::Span;

/// The new segment at `top`, where data is queued and the peer's window in octets takes it.
fn board_new_segment_at_top_if_whole_in_rwnd(board: &Board, rwnd: u32) -> Option<Span>
    ensures value { result ≡ board_new_segment_at_top_if_whole_in_rwnd rwnd board.now }
    ensures sendable { IfSome result (IsSendable board.now) }
    ensures known { IsBoardView board.now }
{
    new_segment_at_top_if_whole_in_rwnd(board.smss(), board.una(), board.top(), board.end(), rwnd)
}

impl Cong {
    /// NextSeg: the segment to send next in loss recovery, by the first rule that gives one (RFC 6675, section 4). The
    /// peer's window is in octets.
    pub fn next_send(&self, board: &Board, rwnd: u32) -> Option<NextSegment>
        ensures value { result ≡ next_send rwnd board.now self.now }
        ensures sendable { IfSome result (λ sent. IsSendable board.now (segment_of sent)) }
    {
        let unsent = board_new_segment_at_top_if_whole_in_rwnd(board, rwnd);
        self.first_by_next_seg_rules(board, unsent)
    }

    /// The first rule that gives a segment, by what the second one gives.
    fn first_by_next_seg_rules(&self, board: &Board, unsent: Option<Span>) -> Option<NextSegment>
        ensures { result ≡ first_by_next_seg_rules unsent board.now self.now }
    {
        if let Some(start) = board.next_lost(self.high_rxt) {
            return Some(NextSegment::Lost(board.run_at(start)));
        }
        if let Some(segment) = unsent {
            return Some(NextSegment::New(segment));
        }
        if let Some(start) = board.find_unsacked_octet_by_nextseg_rule_3(self.high_rxt) {
            return Some(NextSegment::Hole(board.run_at(start)));
        }
        if self.rescue_rxt < board.una() {
            return board.rescue().map(NextSegment::Rescue);
        }
        None
    }

    /// The segment to send next in loss recovery, where cwnd - pipe holds a full one (RFC 6675, section 5, step C).
    pub fn step_c_segment(&self, board: &Board, rwnd: u32, pipe: u32) -> Option<NextSegment>
        ensures value { result ≡ step_c_segment rwnd pipe board.now self.now }
        ensures sendable { IfSome result (λ sent. IsSendable board.now (segment_of sent)) }
        ensures fits { IfSome result (λ _. pipe + board.now.smss ≤ self.now.cwnd) }
    {
        if self.has_room_for_segment(board, pipe) {
            return self.next_send(board, rwnd);
        }
        None
    }

    /// The segment that limited transmit sends next with SACK, where cwnd - pipe holds a full one (RFC 6675, section 5,
    /// step 3).
    pub fn limited_transmit_segment(&self, board: &Board, rwnd: u32, pipe: u32) -> Option<Span>
        ensures value { result ≡ limited_transmit_segment rwnd pipe board.now self.now }
        ensures sendable { IfSome result (IsSendable board.now) }
        ensures fits { IfSome result (λ _. pipe + board.now.smss ≤ self.now.cwnd) }
    {
        if self.has_room_for_segment(board, pipe) {
            return board_new_segment_at_top_if_whole_in_rwnd(board, rwnd);
        }
        None
    }

    /// Whether cwnd - pipe holds a full segment (RFC 6675, section 5, step C). The pipe is in octets.
    pub fn has_room_for_segment(&self, board: &Board, pipe: u32) -> bool
        ensures value { result ≡ has_room_for_segment pipe board.now self.now }
        ensures fits { OnTrue result (pipe + board.now.smss ≤ self.now.cwnd) }
    {
        self.cwnd.saturating_sub(pipe) >= u32::from(board.smss())
    }

    /// Loss recovery has sent this segment (RFC 6675, section 4, NextSeg).
    pub fn update_high_or_rescue_rxt_and_prr(&mut self, sent: &NextSegment)
        ensures { self.new ≡ with_sent_noted sent.now self.old }
    {
        match *sent {
            NextSegment::Lost(segment) => self.high_rxt = segment.end,
            NextSegment::New(_) => {}
            NextSegment::Hole(segment) => self.high_rxt = segment.end,
            // `una` stays below RecoveryPoint in this recovery, so no second rescue leaves.
            NextSegment::Rescue(_) => self.rescue_rxt = self.recovery_point,
        }
        self.count_prr_out(sent.segment());
    }
}
