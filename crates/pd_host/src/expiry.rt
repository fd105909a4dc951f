//! Expiries of the retransmission timer.
ghost use Rattle.std.specs.Prelude.{◌≡◌, ◌<◌, ◌^◌, IfOk};
ghost use Rattle.pd_host.specs.Expiries.{deadline_of, segment_again, expiry_rule, connection_expired, advanced};
ghost use Rattle.pd_host.specs.Host.{with_packet};
ghost use Rattle.pd_host.specs.InputResults.{Gives};

use crate::connection::Connection;
use crate::endpoint::SenderState;
use crate::halts::HostEnd;
use crate::outbox::Outbox;

impl SenderState {
    /// Performs all expiries up to a moment, in order, each at its own.
    ///
    /// # Errors
    /// Of the first expiry that fails: `OutOfMemory` where memory for the packet is refused or the scoreboard has found none
    /// before, else `Halted` by `Limit` where the outbox is full, else `OutOfMemory` where its growth is refused.
    #[inline(always)]
    pub fn advance(&mut self, until: u64) -> Result<(), HostEnd>
        requires early { until < 2 ^ 62 }
        ensures { Gives (advanced until self.old) result self.new }
    {
        let Some(connection) = &mut self.endpoint.connection else {
            return Ok(());
        };
        let outbox = &mut self.endpoint.outbox;
        while let Some(at) = connection.deadline_up_to(until) {
            expire(connection, outbox, at)?;
        }
        Ok(())
    }

    /// The moment of the next expiry, where the timer runs.
    pub fn deadline(&self) -> Option<u64>
        ensures { result ≡ deadline_of self.now }
    {
        match &self.endpoint.connection {
            None => None,
            Some(connection) => connection.deadline(),
        }
    }
}

/// An expiry at a moment: what is sent again is put out.
#[inline(never)]
fn expire(connection: &mut Connection, outbox: &mut Outbox, at: u64) -> Result<(), HostEnd>
    requires early { at < 2 ^ 62 }
    ensures packet { Gives (with_packet at (expiry_rule connection.old.established) (segment_again connection.old connection.old.established) outbox.old) result outbox.new }
    ensures state { IfOk result (λ done. connection.new ≡ connection_expired at connection.old connection.old.established) }
{
    let rule = connection.expiry_rule();
    let packet = connection.expire(at, outbox.allocator())?;
    outbox.push(packet, at, rule)
}
