//! The state of Proportional Rate Reduction in a recovery.
ghost use Rattle.std.specs.Prelude.{◌≡◌, ◌<◌, ◌≤◌, ◌^◌};
ghost use Rattle.pd_recover.specs.Prr.{IsPrrState, no_prr, begun_with, delivery_counted, with_sent, proportional_ssthresh, sndcnt_limit_plus_smss_if_safe_ack};

use crate::ack::Delivery;

/// No connection has more octets than this.
const MAX_OCTETS: u32 = 0x8000_0000;

/// The variables of Proportional Rate Reduction, in octets (RFC 9937, section 6).
#[derive(Clone, Copy)]
pub struct PrrState {
    /// prr_delivered: how many octets reached the peer in this recovery.
    pub prr_delivered: u32,
    /// prr_out: how many octets were sent in it, new ones and again.
    pub prr_out: u32,
    /// RecoverFS: how many octets can reach the peer from the ACK on that it began with.
    pub recover_fs: u32,
    /// DeliveredData: how many octets the last ACK reported to have reached the peer.
    pub delivered_data: u32,
    /// SafeACK: whether that ACK made SND.UNA advance and showed no further loss.
    pub safe_ack: bool,
}

impl PrrState {
    /// No recovery.
    pub const NONE: PrrState = PrrState {
        prr_delivered: 0,
        prr_out: 0,
        recover_fs: 1,
        delivered_data: 0,
        safe_ack: false,
    };

    /// Recovery begins with this RecoverFS, in octets.
    pub fn begin(recover_fs: u32) -> PrrState
        ensures value { result ≡ begun_with recover_fs }
        ensures known { IsPrrState result }
    {
        PrrState {
            // `proportional_ssthresh` divides by it.
            recover_fs: recover_fs.max(1),
            ..PrrState::NONE
        }
    }

    /// An ACK reports octets to have reached the peer.
    pub fn count_delivery(self, delivery: Delivery) -> PrrState
        requires { IsPrrState self }
        ensures value { result ≡ delivery_counted delivery self }
        ensures known { IsPrrState result }
    {
        PrrState {
            prr_delivered: self
                .prr_delivered
                .saturating_add(delivery.delivered_data)
                .min(MAX_OCTETS),
            delivered_data: delivery.delivered_data,
            safe_ack: delivery.safe_ack,
            ..self
        }
    }

    /// So many octets were sent.
    pub fn count_sent(self, octets: u32) -> PrrState
        requires { IsPrrState self }
        ensures value { result ≡ with_sent octets self }
        ensures known { IsPrrState result }
    {
        PrrState {
            prr_out: self.prr_out.saturating_add(octets).min(MAX_OCTETS),
            ..self
        }
    }

    /// The part of ssthresh that is as large as the part of RecoverFS that was delivered, rounded up. ssthresh is in octets.
    pub fn proportional_ssthresh(self, ssthresh: u32) -> u64
        requires { IsPrrState self }
        ensures { result ≡ proportional_ssthresh ssthresh self }
    {
        let delivered = u64::from(self.prr_delivered);
        let recover_fs = u64::from(self.recover_fs);
        (delivered * u64::from(ssthresh) + (recover_fs - 1)) / recover_fs
    }

    /// How many octets the last ACK lets out where the pipe isn't above ssthresh and ssthresh leaves room for them, with this
    /// SMSS in octets.
    pub fn sndcnt_limit_plus_smss_if_safe_ack(self, smss: u16) -> u64
        requires { IsPrrState self }
        ensures { result ≡ sndcnt_limit_plus_smss_if_safe_ack smss self }
    {
        let unsent = self.prr_delivered.saturating_sub(self.prr_out);
        let octets = u64::from(unsent.max(self.delivered_data));
        if self.safe_ack {
            octets + u64::from(smss)
        } else {
            octets
        }
    }
}
