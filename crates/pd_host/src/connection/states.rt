//! The states of a connection, by their names.
ghost use Rattle.std.specs.Prelude.{◌≡◌, ◌==◌};
ghost use Rattle.pd_host.specs.ConnStates.{is_closed, state_from_fins_and_all_acked, state_of};

use super::Connection;
use crate::established::{Established, PeerFin};

/// The state of the sender (RFC 9293, section 3.3.2). It never opens a connection itself, so that SYN-SENT isn't among them.
#[derive(Clone, Copy, Debug, PartialEq, Eq)]
pub enum ConnState {
    /// Nothing listens, or the connection has ended: by an RST, or by the ACK of our FIN after the peer's.
    Closed,
    Listen,
    SynReceived,
    Established,
    /// Our FIN is queued.
    FinWait1,
    /// And acknowledged.
    FinWait2,
    /// The peer's FIN was taken.
    CloseWait,
    /// The peer's FIN was taken after ours, which isn't acknowledged.
    Closing,
    /// Our FIN is queued after the peer's.
    LastAck,
    /// Both FINs were acknowledged, ours queued first. It lasts to the end of the run.
    TimeWait,
}

impl ConnState {
    /// Whether nothing is run any more.
    pub fn is_closed(self) -> bool
        ensures { result ≡ is_closed self }
    {
        matches!(self, ConnState::Closed)
    }
}

/// The state from the end of the handshake on: by the peer's FIN, by whether ours is queued, and by whether all that is
/// queued is acknowledged.
fn state_from_fins_and_all_acked(
    peer_fin: PeerFin,
    is_fin_queued: bool,
    is_all_acked: bool,
) -> ConnState
    ensures { result ≡ state_from_fins_and_all_acked peer_fin is_fin_queued is_all_acked }
{
    match (peer_fin, is_fin_queued, is_all_acked) {
        (PeerFin::Awaited, false, _) => ConnState::Established,
        (PeerFin::Awaited, true, false) => ConnState::FinWait1,
        (PeerFin::Awaited, true, true) => ConnState::FinWait2,
        (PeerFin::BeforeOurs | PeerFin::AfterOurs, false, _) => ConnState::CloseWait,
        (PeerFin::BeforeOurs, true, false) => ConnState::LastAck,
        (PeerFin::BeforeOurs, true, true) => ConnState::Closed,
        (PeerFin::AfterOurs, true, false) => ConnState::Closing,
        (PeerFin::AfterOurs, true, true) => ConnState::TimeWait,
    }
}

impl Connection {
    /// The state of the connection (RFC 9293, section 3.3.2). After an RST it is CLOSED.
    pub fn state(&self) -> ConnState
        ensures { result ≡ state_of self.now }
    {
        if self.is_reset {
            return ConnState::Closed;
        }
        match &self.established {
            None => ConnState::SynReceived,
            Some(established) => self.state_after_handshake(established),
        }
    }

    fn state_after_handshake(&self, established: &Established) -> ConnState
        ensures { result ≡ state_from_fins_and_all_acked established.now.peer_fin self.now.fin (self.now.board.una == self.now.board.end) }
    {
        let is_all_acked = self.board.una() == self.board.end();
        state_from_fins_and_all_acked(established.peer_fin, self.fin, is_all_acked)
    }
}
