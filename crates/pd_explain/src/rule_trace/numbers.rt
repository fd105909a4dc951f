//! The numbers of a sender by which the rules of an event are found.
ghost use Rattle.std.specs.Prelude.{◌≡◌};
ghost use Rattle.pd_explain.specs.RuleTrace.{numbers_in};

use pd_host::{ConnectionSnapshot, DupAckEffect, Host};
use pd_timer::Timeout;

/// The numbers of a sender at a moment.
#[derive(Clone, Copy)]
pub struct Numbers {
    /// Those of its connection, once a SYN has begun it.
    pub snapshot: Option<ConnectionSnapshot>,
    /// SRTT, RTTVAR and the RTO of them, after a first sample (RFC 6298, section 2).
    pub measured: Option<Timeout>,
    /// The time of its next expiry in microseconds, while the timer runs.
    pub deadline: Option<u64>,
    /// The effect of a duplicate, where octets are outstanding and no recovery goes on.
    pub duplicate: Option<DupAckEffect>,
}

impl Numbers {
    /// Those of a host.
    pub fn of_host(host: &Host) -> Numbers
        ensures { result ≡ numbers_in host.now.state }
    {
        Numbers {
            snapshot: host.connection_snapshot(),
            measured: host.measured_rto_derivation_before_backoff(),
            deadline: host.deadline(),
            duplicate: host.loss_evidence_or_barring_recovery_point(),
        }
    }
}
