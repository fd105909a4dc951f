//! The effect of an ACK on cwnd and loss recovery, and the sending after it: by RFC 6675 or 9937 with SACK, else RFC 5681.
ghost use Rattle.std.specs.Prelude.{◌≡◌, false, ◌+◌, ◌<◌, ◌≤◌, ◌^◌, IfSome};
ghost use Rattle.std.specs.Bool.{OnTrue};
ghost use Rattle.pd_recover.specs.Acks.{IsAck, IsNamed, acked, is_rfc5681_duplicate, grown_by, half_of, dup_ack_counted, recovery_ended, prr_begun, with_delivered, recovery_continued, new_segment_at_top_if_whole_in_rwnd, first_outstanding_segment, acked_with_sack, acked_without_sack, selective_duplicate, plain_duplicate, limited_transmit, new_octets_acked};
ghost use Rattle.pd_recover.specs.Cong.{cwnd_growth, limit_of, widened};
ghost use Rattle.pd_recover.specs.Prr.{IsPrrState};

use super::{Cong, MAX_WINDOW};
use crate::ack::{Ack, SackNews};
use crate::ack_action::AckAction;
use crate::prr::PrrState;
use pd_board::DUP_THRESH;
use pd_seg::Span;

/// The new segment at `top`, where data is queued and the peer's window takes it.
pub fn new_segment_at_top_if_whole_in_rwnd(
    smss: u16,
    una: u32,
    top: u32,
    end: u32,
    rwnd: u32,
) -> Option<Span>
    requires queued { top ≤ end }
    requires small { end < 2 ^ 31 }
    ensures value { result ≡ new_segment_at_top_if_whole_in_rwnd smss una top end rwnd }
    ensures within { IfSome result (λ s. (s.start ≡ top) × (s.start < s.end) × (s.end ≤ top + smss) × (s.end ≤ end)) }
{
    let to = top + u32::from(smss).min(end - top);
    if top < to && u64::from(to) <= u64::from(una) + u64::from(rwnd) {
        return Some(Span {
            start: top,
            end: to,
        });
    }
    None
}

impl Ack {
    /// The segment at SND.UNA, SMSS octets at most.
    fn first_outstanding_segment(self) -> Span
        requires { IsAck self }
        ensures value { result ≡ first_outstanding_segment self }
        ensures within { self.una < self.top → (result.start < result.end) × (result.end ≤ self.top) }
    {
        Span {
            start: self.una,
            end: (self.una + u32::from(self.smss)).min(self.top),
        }
    }

    /// Whether it acknowledges nothing new while octets are outstanding, its window is the one before, and no FIN comes
    /// with it.
    fn is_rfc5681_duplicate(self) -> bool
        ensures value { result ≡ is_rfc5681_duplicate self }
        ensures outstanding { OnTrue result (self.una < self.top) }
    {
        self.acked == 0 && self.una < self.top && self.same_window && !self.fin
    }
}

impl Cong {
    /// Takes an ACK, with the peer's window and the SACKed octets as they are since, and answers what to send
    /// (RFC 5681, section 3; RFC 6675, section 5).
    pub fn on_ack(&mut self, ack: Ack) -> AckAction
        requires { IsAck ack }
        ensures state { self.new ≡ (acked ack self.old).0 }
        ensures then { result ≡ (acked ack self.old).1 }
        ensures named { IsNamed ack result }
    {
        if ack.acked > 0 {
            self.dup_acks = 0;
            self.limited_octets = 0;
            self.expired = false;
        }
        match ack.sack {
            Some(sack_news) => self.on_ack_with_sack(ack, sack_news),
            None => self.on_ack_without_sack(ack),
        }
    }

    /// An ACK where SACK was agreed (RFC 6675, section 5).
    fn on_ack_with_sack(&mut self, ack: Ack, sack_news: SackNews) -> AckAction
        requires { IsAck ack }
        ensures state { self.new ≡ (acked_with_sack ack sack_news self.old).0 }
        ensures then { result ≡ (acked_with_sack ack sack_news self.old).1 }
        ensures named { IsNamed ack result }
    {
        if self.recovering && self.recovery_point <= ack.una {
            self.end_sack_recovery_cwnd_to_ssthresh_if_prr();
            return AckAction::Ordinary;
        }
        if self.recovering {
            return self.count_prr_delivery_then_step_c_unless_none(ack);
        }
        self.grow_cwnd_by_ack(ack);
        if !sack_news.fresh {
            return AckAction::Ordinary;
        }
        self.count_dup_ack();
        self.act_on_counted_sack_duplicate(ack, sack_news.lost)
    }

    /// Recovery with SACK ends.
    fn end_sack_recovery_cwnd_to_ssthresh_if_prr(&mut self)
        ensures { self.new ≡ recovery_ended self.old }
    {
        if self.uses_prr() {
            self.cwnd = self.ssthresh;
        }
        self.dup_acks = 0;
        self.limited_octets = 0;
        self.recovering = false;
        self.prr = PrrState::NONE;
    }

    /// An ACK in recovery with SACK that doesn't end it. By PRR one that delivers nothing changes nothing.
    fn count_prr_delivery_then_step_c_unless_none(&mut self, ack: Ack) -> AckAction
        ensures state { self.new ≡ (recovery_continued ack self.old).0 }
        ensures then { result ≡ (recovery_continued ack self.old).1 }
        ensures named { IsNamed ack result }
    {
        if self.uses_prr() && ack.delivery.delivered_data == 0 {
            return AckAction::Nothing;
        }
        self.count_prr_delivered(ack);
        AckAction::StepC
    }

    /// An ACK in recovery with SACK has reported the octets that reached the peer.
    fn count_prr_delivered(&mut self, ack: Ack)
        ensures { self.new ≡ with_delivered ack self.old }
    {
        if self.uses_prr() {
            self.prr = self.prr.count_delivery(ack.delivery);
        }
    }

    /// The state of PRR where recovery with SACK begins.
    fn prr_begun_with_entry_ack_counted(&self, ack: Ack) -> PrrState
        ensures value { result ≡ prr_begun ack self.now }
        ensures known { IsPrrState result }
    {
        if self.uses_prr() {
            PrrState::begin(ack.delivery.recover_fs).count_delivery(ack.delivery)
        } else {
            self.prr
        }
    }

    /// A duplicate with SACK, which is counted already (RFC 6675, section 5, steps 1 to 4).
    fn act_on_counted_sack_duplicate(&mut self, ack: Ack, lost: bool) -> AckAction
        requires { IsAck ack }
        ensures state { self.new ≡ (selective_duplicate ack lost self.old).0 }
        ensures then { result ≡ (selective_duplicate ack lost self.old).1 }
        ensures named { IsNamed ack result }
    {
        if ack.una < self.recovery_point {
            return AckAction::Ordinary;
        }
        if self.dup_acks < DUP_THRESH && !lost {
            if !self.limited_transmit {
                return AckAction::Ordinary;
            }
            // Nothing was sent again yet, so the pipe counts no octet twice.
            self.high_rxt = ack.una;
            return AckAction::LimitedTransmit;
        }
        let ssthresh_after_loss = self.rfc5681_ssthresh_after_loss(ack);
        self.prr = self.prr_begun_with_entry_ack_counted(ack);
        self.cwnd = ssthresh_after_loss;
        self.ssthresh = ssthresh_after_loss;
        self.recovering = true;
        self.recovery_point = ack.top;
        self.high_rxt = ack.una;
        AckAction::Entry
    }

    /// An ACK where SACK wasn't agreed (RFC 5681, section 3.2).
    fn on_ack_without_sack(&mut self, ack: Ack) -> AckAction
        requires { IsAck ack }
        ensures state { self.new ≡ (acked_without_sack ack self.old).0 }
        ensures then { result ≡ (acked_without_sack ack self.old).1 }
        ensures named { IsNamed ack result }
    {
        if ack.acked > 0 {
            self.end_recovery_or_grow_cwnd_by_new_ack(ack);
            return AckAction::Ordinary;
        }
        if ack.is_rfc5681_duplicate() && self.recovery_point <= ack.una {
            self.count_dup_ack();
            return self.act_on_counted_duplicate_without_sack(ack);
        }
        AckAction::Ordinary
    }

    /// New octets end recovery without SACK, and outside it widen the window.
    fn end_recovery_or_grow_cwnd_by_new_ack(&mut self, ack: Ack)
        requires { IsAck ack }
        ensures { self.new ≡ new_octets_acked ack self.old }
    {
        if self.recovering {
            self.cwnd = self.ssthresh;
            self.recovering = false;
        } else {
            self.grow_cwnd_by_ack(ack);
        }
    }

    /// A duplicate without SACK, which is counted already (RFC 5681, section 3.2, steps 1 to 4).
    fn act_on_counted_duplicate_without_sack(&mut self, ack: Ack) -> AckAction
        requires ack { IsAck ack }
        requires outstanding { ack.una < ack.top }
        ensures state { self.new ≡ (plain_duplicate ack self.old).0 }
        ensures then { result ≡ (plain_duplicate ack self.old).1 }
        ensures named { IsNamed ack result }
    {
        if self.dup_acks < DUP_THRESH {
            return self.limited_transmit_without_sack(ack);
        }
        if self.dup_acks == DUP_THRESH {
            let ssthresh_after_loss = self.rfc5681_ssthresh_after_loss(ack);
            self.cwnd = ssthresh_after_loss + DUP_THRESH * u32::from(ack.smss);
            self.ssthresh = ssthresh_after_loss;
            self.recovering = true;
            return AckAction::FastRetransmit(ack.first_outstanding_segment());
        }
        self.add_to_cwnd(u32::from(ack.smss));
        AckAction::Ordinary
    }

    /// Limited transmit without SACK (RFC 3042).
    fn limited_transmit_without_sack(&mut self, ack: Ack) -> AckAction
        requires { IsAck ack }
        ensures state { self.new ≡ (limited_transmit ack self.old).0 }
        ensures then { result ≡ (limited_transmit ack self.old).1 }
        ensures named { IsNamed ack result }
    {
        if !self.limited_transmit {
            return AckAction::Nothing;
        }
        let Some(segment) = new_segment_at_top_if_whole_in_rwnd(
            ack.smss, ack.una, ack.top, ack.end, ack.rwnd,
        ) else {
            return AckAction::Nothing;
        };
        if segment.end - ack.una > self.cwnd + 2 * u32::from(ack.smss) {
            return AckAction::Nothing;
        }
        self.count_limited_transmit_octets(segment.end - segment.start);
        AckAction::NewSegment(segment)
    }

    /// Outside recovery new octets widen the window (RFC 5681, section 3.1, equations 2 and 3; RFC 3465, section 2.2).
    fn grow_cwnd_by_ack(&mut self, ack: Ack)
        requires ack { IsAck ack }
        requires outside { self.old.recovering ≡ false }
        ensures { self.new ≡ grown_by ack self.old }
    {
        if ack.acked > 0 {
            let more = self.cwnd_growth(ack.smss, ack.acked);
            self.add_to_cwnd(more);
        }
    }

    /// L, in segments: 1 in the slow start after an expiry (RFC 3465, sections 2.2 and 2.3).
    fn effective_abc_limit(&self) -> u32
        ensures value { result ≡ limit_of self.now }
        ensures small { result < 2 ^ 8 }
    {
        if self.follows_expiry {
            1
        } else {
            u32::from(self.abc_limit)
        }
    }

    fn cwnd_growth(&self, smss: u16, acked: u32) -> u32
        requires to { smss ≤ 65495 }
        requires outside { self.now.recovering ≡ false }
        ensures { result ≡ cwnd_growth smss acked self.now }
    {
        let smss = u32::from(smss);
        if self.cwnd < self.ssthresh {
            acked.min(self.effective_abc_limit() * smss)
        } else {
            (smss * smss / self.cwnd).max(1)
        }
    }

    /// The window grows by this many octets.
    fn add_to_cwnd(&mut self, octets: u32)
        ensures { self.new ≡ widened octets self.old }
    {
        self.cwnd = self.cwnd.saturating_add(octets).min(MAX_WINDOW);
    }

    /// One more duplicate.
    fn count_dup_ack(&mut self)
        ensures { self.new ≡ dup_ack_counted self.old }
    {
        self.dup_acks = (self.dup_acks + 1).min(DUP_THRESH + 1);
    }

    /// Half of what is outstanding, without what limited transmit has sent (RFC 5681, section 3.1, equation 4).
    fn rfc5681_ssthresh_after_loss(&self, ack: Ack) -> u32
        requires { IsAck ack }
        ensures value { result ≡ half_of ack self.now }
        ensures small { result ≤ 2 ^ 30 }
    {
        let flight = ack.top - ack.una;
        (flight.saturating_sub(self.limited_octets) / 2).max(2 * u32::from(ack.smss))
    }
}
