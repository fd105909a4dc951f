//! The effect of an expiry of its timer on a connection.
ghost use Rattle.std.specs.Prelude.{◌≡◌, ◌<◌, ◌≤◌, ◌^◌, IfOk, IfSome};
ghost use Rattle.pd_host.specs.Expiries.{due_by, segment_again, expiry_rule, connection_expired};

use super::Connection;
use pd_seg::{Segment, SendRule};
use std::alloc::{AllocError, Global};

impl Connection {
    /// The moment of the next expiry, where the timer runs.
    pub fn deadline(&self) -> Option<u64>
        ensures { result ≡ self.now.timer.deadline }
    {
        self.timer.deadline()
    }

    /// The same, where it lies at or before a moment.
    pub fn deadline_up_to(&self, until: u64) -> Option<u64>
        ensures value { result ≡ due_by until self.now.timer.deadline }
        ensures early { IfSome result (λ at. at ≤ until) }
    {
        match self.deadline() {
            Some(at) if at <= until => Some(at),
            _ => None,
        }
    }

    /// The rule by which an expiry sends what it sends.
    pub fn expiry_rule(&self) -> SendRule
        ensures { result ≡ expiry_rule self.now.established }
    {
        match self.established {
            None => SendRule::SynAckAgain,
            Some(_) => SendRule::Expiry,
        }
    }

    /// The timer expires at a moment: what is sent again.
    ///
    /// # Errors
    /// `AllocError` in the handshake where a growth for the SYN/ACK's options is refused, later where the scoreboard has
    /// found no memory before.
    pub fn expire(&mut self, at: u64, alloc: Global) -> Result<Segment, AllocError>
        requires early { at < 2 ^ 62 }
        ensures packet { IfOk result (λ packet. packet ≡ segment_again self.old self.old.established) }
        ensures state { IfOk result (λ _. self.new ≡ connection_expired at self.old self.old.established) }
    {
        self.rtt_segment = None;
        self.last_sent = at;
        self.timer.expire(at);
        let Some(mut established) = self.established else {
            self.syn_ack_resent = true;
            return self.syn_ack(alloc);
        };
        let (smss, una, top) = (self.board.smss(), self.board.una(), self.board.top());
        established.congestion.on_timeout(smss, una, top);
        self.established = Some(established);
        self.board.clear_marks();
        let segment = self.board.run_at(una);
        let packet = self.data_segment(segment, alloc);
        self.board.sent(segment.end)?;
        Ok(packet)
    }
}
