//! A connection for its observers: its numbers, and why it sends nothing by itself, `Open` where a segment could leave.
ghost use Rattle.std.specs.Prelude.{◌≡◌, ◌+◌, nat_le, IfOk};
ghost use Rattle.pd_host.specs.ConnectionSnapshot.{recovery_of, reduction_of, windows_of, connection_snapshot_of};
ghost use Rattle.pd_host.specs.SendBlockers.{last_octet_needed_in_windows, may_leave_by_sws_ignoring_nagle, new_segment_send_blocker, ordinary_send_blocker, blocker_in_recovery, established_send_blocker, blocker_of};
ghost use Rattle.pd_host.specs.Sending.{with_next_past_sacked};

use super::Connection;
use crate::connection_snapshot::{ConnectionSnapshot, Recovery, WindowSnapshot};
use crate::established::Established;
use pd_recover::{Cong, PrrState};
use std::alloc::AllocError;

/// Why a sender sends nothing by itself at some moment: the first of these that holds.
#[derive(Clone, Copy, PartialEq, Eq)]
pub enum SendBlocker {
    /// An RST has ended the connection.
    Reset,
    /// No connection is established.
    NotEstablished,
    /// All that was handed over is acknowledged.
    Acknowledged,
    /// In recovery with SACK, cwnd less the pipe is below SMSS (RFC 6675, section 5, step C).
    PipeFull,
    /// In recovery with SACK, NextSeg gives nothing (RFC 6675, section 4).
    NothingNext,
    /// In recovery with SACK a call sends nothing by itself (own profile).
    Recovering,
    /// All that is queued was sent: the timer alone sends the oldest again.
    AllSent,
    /// The next segment's octet lies beyond the peer's window (RFC 9293, section 3.8.6).
    PeerWindow,
    /// It lies beyond the congestion window (RFC 5681, section 3.1).
    CongestionWindow,
    /// The windows leave only a part of a segment (RFC 9293, section 3.8.6.2.1).
    PartOfSegment,
    /// Nagle's algorithm holds it (RFC 9293, section 3.7.4).
    Nagle,
    /// A segment could leave: nothing has led to sending since.
    Open,
}

/// The state of PRR, where recovery goes by it.
fn prr_state_if_recovery_algorithm_is_prr(congestion: &Cong) -> Option<PrrState>
    ensures { result ≡ reduction_of congestion.now }
{
    if congestion.uses_prr() {
        Some(congestion.prr())
    } else {
        None
    }
}

impl Connection {
    /// Its numbers.
    pub fn connection_snapshot(&self) -> ConnectionSnapshot
        ensures { result ≡ connection_snapshot_of self.now }
    {
        ConnectionSnapshot {
            smss: self.board.smss(),
            una: self.board.una(),
            next: self.board.next(),
            top: self.board.top(),
            end: self.board.end(),
            rto_us: self.timer.rto(),
            windows: self.window_snapshot_if_established(),
            is_reset: self.is_reset,
        }
    }

    fn window_snapshot_if_established(&self) -> Option<WindowSnapshot>
        ensures { result ≡ windows_of self.now }
    {
        match &self.established {
            None => None,
            Some(established) => Some(WindowSnapshot {
                cwnd: established.congestion.cwnd(),
                ssthresh: established.congestion.ssthresh(),
                rwnd: established.rwnd,
                dup_acks: established.congestion.dup_acks(),
                recovery: self.recovery_kind_with_pipe(established),
                prr: prr_state_if_recovery_algorithm_is_prr(&established.congestion),
            }),
        }
    }

    fn recovery_kind_with_pipe(&self, established: &Established) -> Recovery
        ensures { result ≡ recovery_of self.now established.now.congestion }
    {
        if !established.congestion.is_recovering() {
            Recovery::Idle
        } else if self.sack {
            Recovery::WithSack(self.board.pipe(established.congestion.high_rxt()))
        } else {
            Recovery::WithoutSack
        }
    }

    /// Why it sends nothing by itself, once its sending place has moved past SACKed octets.
    ///
    /// # Errors
    /// `AllocError` where a growth is refused, or the scoreboard has found no memory before.
    pub fn send_blocker(&self) -> Result<SendBlocker, AllocError>
        ensures { IfOk result (λ send_blocker. send_blocker ≡ blocker_of (with_next_past_sacked self.now)) }
    {
        Ok(
            self.with_next_past_sacked()?
                .send_blocker_without_skipping_sacked(),
        )
    }

    /// The octet that has to lie within the windows for the next segment to leave, once its sending place has moved past
    /// SACKed octets.
    ///
    /// # Errors
    /// `AllocError` where a growth is refused, or the scoreboard has found no memory before.
    pub fn octet_needed_in_windows(&self) -> Result<u32, AllocError>
        ensures { IfOk result (λ octet. octet ≡ last_octet_needed_in_windows (with_next_past_sacked self.now)) }
    {
        Ok(self.with_next_past_sacked()?.last_octet_needed_in_windows())
    }

    /// The same connection with its sending place past SACKed octets.
    fn with_next_past_sacked(&self) -> Result<Connection, AllocError>
        ensures { IfOk result (λ ready. ready ≡ with_next_past_sacked self.now) }
    {
        let mut ready = self.with_board(self.board.copy()?);
        ready.advance_next_past_sacked();
        Ok(ready)
    }

    /// Why it sends nothing by itself from the sending place on.
    fn send_blocker_without_skipping_sacked(&self) -> SendBlocker
        ensures { result ≡ blocker_of self.now }
    {
        if self.is_reset {
            return SendBlocker::Reset;
        }
        match &self.established {
            None => SendBlocker::NotEstablished,
            Some(established) => self.established_send_blocker(established),
        }
    }

    fn established_send_blocker(&self, established: &Established) -> SendBlocker
        ensures { result ≡ established_send_blocker self.now established.now }
    {
        if self.board.una() == self.board.end() {
            SendBlocker::Acknowledged
        } else if self.sack && established.congestion.is_recovering() {
            self.blocker_in_recovery(established)
        } else {
            self.ordinary_send_blocker(established)
        }
    }

    fn blocker_in_recovery(&self, established: &Established) -> SendBlocker
        ensures { result ≡ blocker_in_recovery self.now established.now }
    {
        let congestion = &established.congestion;
        let pipe = self.board.pipe(congestion.high_rxt());
        if !congestion.has_room_for_segment(&self.board, pipe) {
            return SendBlocker::PipeFull;
        }
        match congestion.next_send(&self.board, established.rwnd) {
            None => SendBlocker::NothingNext,
            Some(_) => SendBlocker::Recovering,
        }
    }

    fn ordinary_send_blocker(&self, established: &Established) -> SendBlocker
        ensures { result ≡ ordinary_send_blocker self.now established.now }
    {
        let last_octet_needed_in_windows = self.last_octet_needed_in_windows();
        if self.board.end() <= self.board.next() {
            SendBlocker::AllSent
        } else if self.is_beyond_window(established.rwnd, last_octet_needed_in_windows) {
            SendBlocker::PeerWindow
        } else if self.is_beyond_window(
            established.congestion.cwnd(),
            last_octet_needed_in_windows,
        ) {
            SendBlocker::CongestionWindow
        } else if self.board.next() < self.board.top() {
            SendBlocker::Open
        } else {
            self.new_segment_send_blocker(established)
        }
    }

    /// Whether an octet lies beyond a window of so many octets.
    fn is_beyond_window(&self, window: u32, octet: u32) -> bool
        ensures { result ≡ nat_le (self.now.board.una + window) octet }
    {
        u64::from(self.board.una()) + u64::from(window) <= u64::from(octet)
    }

    /// The last octet that has to lie within the windows for the next segment to leave.
    fn last_octet_needed_in_windows(&self) -> u32
        ensures { result ≡ last_octet_needed_in_windows self.now }
    {
        if self.board.next() < self.board.top() {
            self.board.run_at(self.board.next()).end.saturating_sub(1)
        } else {
            self.board.next()
        }
    }

    fn new_segment_send_blocker(&self, established: &Established) -> SendBlocker
        ensures { result ≡ new_segment_send_blocker self.now established.now }
    {
        if !self.may_leave_by_sws_ignoring_nagle(established) {
            SendBlocker::PartOfSegment
        } else if self.may_leave_by_sws_and_nagle(established) {
            SendBlocker::Open
        } else {
            SendBlocker::Nagle
        }
    }
}
