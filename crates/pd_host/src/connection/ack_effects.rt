//! The changes of a connection by an acceptable ACK: its number, SACK blocks, RTT and timer, window, congestion control.
ghost use Rattle.std.specs.Prelude.{◌≡◌, ◌+◌, ◌-◌, ◌≤◌, ◌<◌, ◌^◌, ◌&&◌, nat_lt, nat_le, false, Some, IfOk, OnOk, IfSome};
ghost use Rattle.pd_board.specs.Retransmit.{run_at};
ghost use Rattle.pd_board.specs.Loss.{sacked_octets, undelivered_octets, lost_edge};
ghost use Rattle.pd_recover.specs.NextSeg.{IsSendable, segment_of};
ghost use Rattle.pd_host.specs.AckEffects.{with_block_marked, with_blocks_marked, blocks_in, blocks_of, with_blocks, blocks_marked, with_timing, with_new_window, sack_news_of, with_prr_cwnd_on, cwnd_after, with_ack, ack_of_segment, congestion_updated, taking, next_fill, next_seg_rule, fill_rule, sent_as, fill_noted_by, fill_noted_on, octets_of, pipe_of, entered_on};
ghost use Rattle.pd_host.specs.Handshake.{before_eol};
ghost use Rattle.pd_host.specs.Steps.{FollowsQueued};

use super::Connection;
use crate::established::Established;
use pd_board::Board;
use pd_recover::{Ack, AckAction, Cong, Delivery, NextSegment, SackNews};
use pd_seg::{SegOption, Segment, SendRule, Span};
use std::alloc::AllocError;

/// Which segments are sent while the congestion window has room for a full one beside what is on the way.
#[derive(Clone, Copy)]
pub enum WindowFill {
    /// In loss recovery: what NextSeg gives (RFC 6675, section 5, step C).
    NextSeg,
    /// By limited transmit: new octets alone (RFC 6675, section 5, step 3; RFC 3042).
    NewData,
}

impl WindowFill {
    /// The rule by which such a segment leaves.
    pub fn rule(self, sent: &NextSegment) -> SendRule
        ensures { result ≡ fill_rule self sent.now }
    {
        match self {
            WindowFill::NextSeg => next_seg_rule(sent),
            WindowFill::NewData => SendRule::SackLimitedTransmit,
        }
    }
}

/// The rule of NextSeg that gave a segment.
fn next_seg_rule(sent: &NextSegment) -> SendRule
    ensures { result ≡ next_seg_rule sent.now }
{
    match sent {
        NextSegment::Lost(_) => SendRule::NextSegLost,
        NextSegment::New(_) => SendRule::NextSegNew,
        NextSegment::Hole(_) => SendRule::NextSegHole,
        NextSegment::Rescue(_) => SendRule::NextSegRescue,
    }
}

/// The scoreboard's counts before an ACK, by which PRR counts the octets that the ACK delivers (RFC 9937, section 6).
#[derive(Clone, Copy)]
struct BoardBeforeAck {
    /// How many octets are SACKed.
    sacked: u32,
    /// How many octets are outstanding and not SACKed.
    undelivered_octets: u32,
    /// The number after the highest octet that is lost.
    lost_edge: u32,
}

impl BoardBeforeAck {
    fn of(board: &Board) -> BoardBeforeAck
        ensures { result ≡ record { sacked = sacked_octets board.now; undelivered_octets = undelivered_octets board.now; lost_edge = lost_edge board.now } }
    {
        BoardBeforeAck {
            sacked: board.sacked_octets(),
            undelivered_octets: board.undelivered_octets(),
            lost_edge: board.after_last_lost_octet_or_zero(),
        }
    }

    /// The octets that the ACK delivers, by the scoreboard after it and how many octets it acknowledges.
    fn prr_delivered_recover_fs_and_safe_ack(self, acked: u32, board: &Board) -> Delivery
        requires { acked < 2 ^ 31 }
        ensures { result ≡ record { delivered_data = acked + sacked_octets board.now - self.sacked; recover_fs = self.undelivered_octets; safe_ack = nat_lt 0 acked && nat_le (lost_edge board.now) self.lost_edge } }
    {
        Delivery {
            delivered_data: (acked + board.sacked_octets()).saturating_sub(self.sacked),
            recover_fs: self.undelivered_octets,
            safe_ack: acked > 0 && board.after_last_lost_octet_or_zero() <= self.lost_edge,
        }
    }
}

/// Marks one block more, if all its octets were sent. The answer says whether a block reported a new octet: `so_far` says it
/// of those before.
fn mark_block_if_sent_updating_any_new_so_far(
    board: &mut Board,
    block: Span,
    so_far: bool,
) -> Result<bool, AllocError>
    ensures ok { IfOk result (λ fresh. (board.new, fresh) ≡ with_block_marked block (board.old, so_far)) }
    ensures una { board.new.una ≡ board.old.una }
{
    if block.start < block.end && block.end <= board.top() {
        let fresh = board.mark(block)?;
        return Ok(so_far || fresh);
    }
    Ok(so_far)
}

fn mark_blocks_if_sent_updating_any_new_so_far(
    board: &mut Board,
    blocks: &[Span],
    so_far: bool,
) -> Result<bool, AllocError>
    ensures ok { IfOk result (λ fresh. (board.new, fresh) ≡ with_blocks_marked blocks.now (board.old, so_far)) }
    ensures una { board.new.una ≡ board.old.una }
{
    let mut fresh = so_far;
    for block in blocks {
        fresh = mark_block_if_sent_updating_any_new_so_far(board, *block, fresh)?;
    }
    Ok(fresh)
}

fn mark_sack_option_updating_any_new_so_far(
    board: &mut Board,
    option: &SegOption,
    so_far: bool,
) -> Result<bool, AllocError>
    ensures ok { IfOk result (λ fresh. (board.new, fresh) ≡ with_blocks_marked (blocks_in option.now) (board.old, so_far)) }
    ensures una { board.new.una ≡ board.old.una }
{
    match option {
        SegOption::Sack(blocks) => mark_blocks_if_sent_updating_any_new_so_far(
            board,
            blocks.as_slice(),
            so_far,
        ),
        _ => Ok(so_far),
    }
}

/// Marks the blocks before the end of the options. The answer says whether they reported a new octet.
fn mark_blocks_before_eol_reporting_any_new(
    board: &mut Board,
    options: &[SegOption],
) -> Result<bool, AllocError>
    ensures ok { IfOk result (λ fresh. (board.new, fresh) ≡ with_blocks_marked (blocks_of (before_eol options.now)) (board.old, false)) }
    ensures una { board.new.una ≡ board.old.una }
{
    let mut fresh = false;
    for option in options {
        if let SegOption::Eol = option {
            return Ok(fresh);
        }
        fresh = mark_sack_option_updating_any_new_so_far(board, option, fresh)?;
    }
    Ok(fresh)
}

/// Congestion control notes a segment that filled the room of its window.
fn note_nextseg_or_limited_transmit_sent(
    congestion: &mut Cong,
    filling: WindowFill,
    sent: &NextSegment,
)
    requires some { (segment_of sent.now).start ≤ (segment_of sent.now).end }
    requires short { octets_of (segment_of sent.now) ≤ 65495 }
    ensures { congestion.new ≡ fill_noted_by filling sent.now congestion.old }
{
    match filling {
        WindowFill::NextSeg => congestion.update_high_or_rescue_rxt_and_prr(sent),
        WindowFill::NewData => {
            let segment = sent.segment();
            congestion.count_limited_transmit_octets(segment.end - segment.start);
        }
    }
}

impl Connection {
    /// The number, the blocks, the timer and the window of a segment that passed all checks are taken, and congestion
    /// control learns: what follows.
    ///
    /// # Errors
    /// `AllocError` where the scoreboard finds no memory for a block, or has found none before.
    pub fn update_by_ack_and_choose_ack_action(
        &mut self,
        segment: &Segment,
        now: u64,
    ) -> Result<AckAction, AllocError>
        requires early { now < 2 ^ 62 }
        requires known { self.old.board.una ≤ segment.now.ack }
        requires sent { segment.now.ack ≤ self.old.board.top }
        ensures taken { OnOk result (self.new ≡ (taking now segment.now self.old self.old.established).0) }
        ensures next { IfOk result (λ next. next ≡ (taking now segment.now self.old self.old.established).1) }
        ensures queued { IfOk result (λ next. FollowsQueued next self.new) }
    {
        let Some(mut established) = self.established else {
            return Ok(AckAction::Nothing);
        };
        let rwnd = established.rwnd;
        let acked = segment.ack - self.board.una();
        let before = BoardBeforeAck::of(&self.board);
        let fresh = self.take_ack(segment, &mut established, now)?;
        let delivery = before.prr_delivered_recover_fs_and_safe_ack(acked, &self.board);
        Ok(self.update_congestion_and_choose_ack_action(
            segment,
            acked,
            delivery,
            fresh,
            rwnd,
            established,
        ))
    }

    /// Takes the number, the blocks, the timer and the window of a segment. The answer says whether the blocks reported a new
    /// octet.
    fn take_ack(
        &mut self,
        segment: &Segment,
        established: &mut Established,
        now: u64,
    ) -> Result<bool, AllocError>
        requires early { now < 2 ^ 62 }
        requires established { self.old.established ≡ Some established.old }
        requires known { self.old.board.una ≤ segment.now.ack }
        requires sent { segment.now.ack ≤ self.old.board.top }
        ensures taken { OnOk result ((self.new, established.new) ≡ (with_ack now segment.now established.old self.old).0) }
        ensures fresh { IfOk result (λ fresh. fresh ≡ (with_ack now segment.now established.old self.old).1) }
    {
        let acked = segment.ack - self.board.una();
        self.board.take_ack(segment.ack);
        let fresh = self.mark_blocks_if_sack_agreed_reporting_new(segment)?;
        self.update_rtt_and_timer_if_una_advanced(acked, established.granularity_us, now);
        self.update_rwnd_unless_segment_old(segment, established);
        Ok(fresh)
    }

    /// Marks the octets of the blocks, where SACK was agreed. The answer says whether they reported a new octet.
    fn mark_blocks_if_sack_agreed_reporting_new(
        &mut self,
        segment: &Segment,
    ) -> Result<bool, AllocError>
        ensures marked { OnOk result (self.new ≡ with_blocks segment.now self.old) }
        ensures fresh { IfOk result (λ fresh. fresh ≡ (blocks_marked segment.now self.old).1) }
    {
        if !self.sack {
            return Ok(false);
        }
        let fresh = mark_blocks_before_eol_reporting_any_new(
            &mut self.board,
            segment.options.as_slice(),
        )?;
        Ok(fresh)
    }

    /// Only new octets move the timer.
    fn update_rtt_and_timer_if_una_advanced(&mut self, acked: u32, granularity_us: u64, now: u64)
        requires early { now < 2 ^ 62 }
        ensures { self.new ≡ with_timing now granularity_us acked self.old }
    {
        if acked == 0 {
            return;
        }
        let una = self.board.una();
        self.sample(now, granularity_us, una);
        self.restart_timer_or_stop_if_all_acked(now);
    }

    /// The window is taken, unless the segment is old.
    fn update_rwnd_unless_segment_old(&mut self, segment: &Segment, established: &mut Established)
        ensures { (self.new, established.new) ≡ with_new_window segment.now established.old self.old }
    {
        if established.can_update_window(segment) {
            let window = self.scaled_window_in(segment);
            established.set_rwnd_wl1_and_wl2(segment, window);
            self.max_window = self.max_window.max(window);
        }
    }

    /// The report of the blocks, where SACK was agreed.
    fn sack_news_fresh_and_lost_if_agreed(&self, fresh: bool) -> Option<SackNews>
        ensures { result ≡ sack_news_of fresh self.now }
    {
        if !self.sack {
            return None;
        }
        let lost = fresh && self.board.is_lost(self.board.una());
        Some(SackNews { fresh, lost })
    }

    /// Congestion control learns what the segment acknowledged: what follows.
    fn update_congestion_and_choose_ack_action(
        &mut self,
        segment: &Segment,
        acked: u32,
        delivery: Delivery,
        fresh: bool,
        rwnd: u32,
        mut after: Established,
    ) -> AckAction
        ensures so_far { self.new ≡ (congestion_updated self.old after (ack_of_segment segment.now acked delivery fresh rwnd after self.old)).0 }
        ensures next { result ≡ (congestion_updated self.old after (ack_of_segment segment.now acked delivery fresh rwnd after self.old)).1 }
        ensures queued { FollowsQueued result self.new }
    {
        let ack = Ack {
            smss: self.board.smss(),
            una: self.board.una(),
            top: self.board.top(),
            end: self.board.end(),
            rwnd: after.rwnd,
            acked,
            delivery,
            same_window: self.scaled_window_in(segment) == rwnd,
            fin: segment.flags.fin,
            sack: self.sack_news_fresh_and_lost_if_agreed(fresh),
        };
        let next = after.congestion.on_ack(ack);
        self.set_prr_cwnd_on_stepc_or_entry(next, &mut after.congestion);
        self.established = Some(after);
        next
    }

    /// The window of what follows: by PRR it is set before anything is sent.
    fn set_prr_cwnd_on_stepc_or_entry(&self, next: AckAction, congestion: &mut Cong)
        ensures { congestion.new ≡ record congestion.old { cwnd = cwnd_after next self.now congestion.old } }
    {
        match next {
            AckAction::StepC | AckAction::Entry => self.set_cwnd_by_pipe_if_prr_recovering(
                congestion,
            ),
            _ => {}
        }
    }

    /// By PRR the pipe sets the window (RFC 9937, section 6).
    fn set_cwnd_by_pipe_if_prr_recovering(&self, congestion: &mut Cong)
        ensures { congestion.new ≡ with_prr_cwnd_on self.now congestion.old }
    {
        if congestion.is_prr_recovering() {
            let pipe = self.board.pipe(congestion.high_rxt());
            congestion.set_cwnd_pipe_plus_sndcnt_if_prr(self.board.smss(), pipe);
        }
    }

    /// How many octets count as on the way (RFC 6675, section 4).
    pub fn pipe(&self) -> u32
        ensures { result ≡ pipe_of (Some self.now) }
    {
        match &self.established {
            None => 0,
            Some(established) => self.board.pipe(established.congestion.high_rxt()),
        }
    }

    /// The segment that recovery begins with.
    pub fn first_recovery_segment(&self) -> Span
        ensures { result ≡ run_at self.now.board.una self.now.board }
    {
        self.board.run_at(self.board.una())
    }

    /// Recovery has begun with this segment: HighRxt and RescueRxt, and by PRR what was sent.
    pub fn set_high_and_rescue_rxt_and_count_prr_out(&mut self, segment: Span)
        ensures { self.new ≡ entered_on segment self.old self.old.established }
    {
        let Some(mut established) = self.established else {
            return;
        };
        established
            .congestion
            .set_high_and_rescue_rxt_and_count_prr_out(segment);
        self.established = Some(established);
    }

    /// The segment that is sent next while the congestion window has room.
    pub fn find_nextseg_or_limited_transmit_segment(
        &self,
        filling: WindowFill,
        pipe: u32,
    ) -> Option<NextSegment>
        ensures value { result ≡ next_fill filling pipe (Some self.now) }
        ensures sendable { IfSome result (λ sent. IsSendable self.now.board (segment_of sent)) }
        ensures fits { IfSome result (λ sent. pipe + octets_of (segment_of sent) ≤ 2 ^ 31) }
    {
        let Some(established) = &self.established else {
            return None;
        };
        established.congestion.law_invariant();
        let congestion = &established.congestion;
        match filling {
            WindowFill::NextSeg => congestion.step_c_segment(&self.board, established.rwnd, pipe),
            WindowFill::NewData => congestion
                .limited_transmit_segment(&self.board, established.rwnd, pipe)
                .map(NextSegment::New),
        }
    }

    /// It was sent at a moment.
    ///
    /// # Errors
    /// `AllocError` for new octets where the scoreboard has found no memory before.
    pub fn note_fill_sent_in_board_timer_and_congestion(
        &mut self,
        filling: WindowFill,
        sent: &NextSegment,
        now: u64,
    ) -> Result<(), AllocError>
        requires early { now < 2 ^ 62 }
        requires sendable { IsSendable self.old.board (segment_of sent.now) }
        ensures { OnOk result (self.new ≡ fill_noted_on filling sent.now (sent_as now sent.now self.old) self.old.established) }
    {
        self.board.law_invariant();
        self.start_rtt_and_timer_advancing_next_if_new(sent, now)?;
        self.note_sent_segment_in_congestion(filling, sent);
        Ok(())
    }

    /// New octets move the sending place; octets sent again leave it.
    fn start_rtt_and_timer_advancing_next_if_new(
        &mut self,
        sent: &NextSegment,
        now: u64,
    ) -> Result<(), AllocError>
        requires early { now < 2 ^ 62 }
        requires sendable { IsSendable self.old.board (segment_of sent.now) }
        ensures { OnOk result (self.new ≡ sent_as now sent.now self.old) }
    {
        match *sent {
            NextSegment::New(segment) => self.note_segment_sent(segment, now),
            NextSegment::Lost(segment)
            | NextSegment::Hole(segment)
            | NextSegment::Rescue(segment) => {
                self.update_rtt_segment_timer_and_last_sent(segment, now);
                Ok(())
            }
        }
    }

    fn note_sent_segment_in_congestion(&mut self, filling: WindowFill, sent: &NextSegment)
        requires some { (segment_of sent.now).start ≤ (segment_of sent.now).end }
        requires short { octets_of (segment_of sent.now) ≤ 65495 }
        ensures { self.new ≡ fill_noted_on filling sent.now self.old self.old.established }
    {
        if let Some(established) = &mut self.established {
            note_nextseg_or_limited_transmit_sent(&mut established.congestion, filling, sent);
        }
    }
}
