//! Evidence that may lead to sending next: duplicates, and the measurements of the timer.
ghost use Rattle.std.specs.Prelude.{◌≡◌};
ghost use Rattle.pd_board.specs.Runs.{AreRuns};
ghost use Rattle.pd_host.specs.LossEvidence.{sack_evidence_of, loss_evidence_of, established_loss_evidence_or_barring_point, dup_ack_status_of, timeout_of};

use super::Connection;
use crate::established::Established;
use pd_board::DUP_THRESH;
use pd_recover::Cong;
use pd_seg::Span;
use pd_timer::Timeout;

/// The effect of a duplicate, where octets are outstanding and no loss recovery goes on.
#[derive(Clone, Copy)]
pub enum DupAckEffect {
    /// To no recovery while SND.UNA is below this number, the one after RecoveryPoint (RFC 6675, sections 5 and 5.1).
    Below(u32),
    /// To recovery, where enough has come with it.
    Counted(LossEvidence),
}

/// The evidence of a loss so far, and how much is needed.
#[derive(Clone, Copy)]
pub struct LossEvidence {
    /// DupAcks: how many duplicates came since the last ACK of new octets or expiry (RFC 6675, section 5).
    pub dup_acks: u32,
    /// How many begin recovery: DupThresh (RFC 6675, section 5; RFC 5681, section 3.2).
    pub needed: u32,
    /// The octets SACKed above SND.UNA, where SACK was agreed.
    pub sacked: Option<SackEvidence>,
}

/// The octets SACKed above SND.UNA, and how many of them show that octet to be lost (RFC 6675, section 4, IsLost).
#[derive(Clone, Copy)]
pub struct SackEvidence {
    /// How many octets.
    pub octets: u32,
    /// More octets than this are needed: (DupThresh - 1) * SMSS.
    pub most: u32,
    /// In how many maximal runs they lie.
    pub runs: usize,
    /// How many runs are needed instead: DupThresh.
    pub needed: usize,
}

impl Connection {
    /// The effect of a duplicate; nothing where no octet is outstanding, recovery goes on, or none is looked at.
    pub fn loss_evidence_or_barring_recovery_point(&self) -> Option<DupAckEffect>
        ensures { result ≡ dup_ack_status_of self.now }
    {
        match &self.established {
            None => None,
            Some(established) => self.established_loss_evidence_or_barring_point(established),
        }
    }

    fn established_loss_evidence_or_barring_point(
        &self,
        established: &Established,
    ) -> Option<DupAckEffect>
        ensures { result ≡ established_loss_evidence_or_barring_point self.now established.now }
    {
        let congestion = &established.congestion;
        if self.is_reset || congestion.is_recovering() || self.board.una() == self.board.top() {
            None
        } else if self.board.una() < congestion.recovery_point() {
            Some(DupAckEffect::Below(congestion.recovery_point()))
        } else {
            Some(DupAckEffect::Counted(self.loss_evidence(congestion)))
        }
    }

    fn loss_evidence(&self, congestion: &Cong) -> LossEvidence
        ensures { result ≡ loss_evidence_of self.now congestion.now }
    {
        LossEvidence {
            dup_acks: congestion.dup_acks(),
            needed: DUP_THRESH,
            sacked: if self.sack {
                Some(self.sack_evidence())
            } else {
                None
            },
        }
    }

    fn sack_evidence(&self) -> SackEvidence
        ensures { result ≡ sack_evidence_of self.now.board }
    {
        self.board.law_invariant();
        let sacked_counts_above = self.board.sacked_octets_and_runs_above(self.board.una());
        SackEvidence {
            octets: sacked_counts_above.octets,
            most: (DUP_THRESH - 1) * u32::from(self.board.smss()),
            runs: sacked_counts_above.runs,
            needed: DUP_THRESH as usize,
        }
    }

    /// How the timeout comes from what was measured; nothing before any measurement.
    pub fn measured_rto_derivation_before_backoff(&self) -> Option<Timeout>
        ensures { result ≡ timeout_of self.now }
    {
        match &self.established {
            None => None,
            Some(established) => self
                .timer
                .rto_derivation_before_backoff(established.granularity_us),
        }
    }

    /// The maximal runs of SACKed octets, in ascending order.
    pub fn sacked_runs(&self) -> &[Span]
        ensures { AreRuns self.now.board result.now }
    {
        self.board.sacked_spans()
    }
}
