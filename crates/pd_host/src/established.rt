//! The parts of a connection that begin at the end of its handshake.
ghost use Rattle.std.specs.Prelude.{◌≡◌, ◌≤◌};
ghost use Rattle.pd_host.specs.Arrivals.{is_awaited};
ghost use Rattle.pd_host.specs.Connection.{next_from};
ghost use Rattle.pd_host.specs.AckEffects.{can_update_window};
ghost use Rattle.pd_host.specs.Handshake.{with_window};

use crate::descriptors::StreamState;
use pd_recover::Cong;
use pd_seg::Segment;

/// The peer's FIN: whether it was taken, and whether ours was queued then (RFC 9293, section 3.6).
#[derive(Clone, Copy, PartialEq, Eq)]
pub enum PeerFin {
    /// None was taken.
    Awaited,
    /// It was taken before ours was queued.
    BeforeOurs,
    /// It was taken after that.
    AfterOurs,
}

impl PeerFin {
    /// Whether none was taken.
    pub fn is_awaited(self) -> bool
        ensures { result ≡ is_awaited self }
    {
        matches!(self, PeerFin::Awaited)
    }

    /// The number of the octet that the peer sends next.
    pub fn next_peer_octet(self) -> u32
        ensures value { result ≡ next_from self }
        ensures small { result ≤ 2 }
    {
        match self {
            PeerFin::Awaited => 1,
            PeerFin::BeforeOurs | PeerFin::AfterOurs => 2,
        }
    }
}

/// The parts of a connection that begin at the end of its handshake.
#[derive(Clone, Copy)]
pub struct Established {
    /// SND.WND: the peer's window, in octets (RFC 9293, section 3.3.1).
    pub rwnd: u32,
    /// SND.WL1: the sequence number of the segment that it was taken from.
    pub wl1: u32,
    /// SND.WL2: the ack number of that segment.
    pub wl2: u32,
    /// Whether Nagle's algorithm is on (RFC 9293, section 3.7.4).
    pub nagle: bool,
    /// The clock's granularity, in microseconds (RFC 6298, section 2).
    pub granularity_us: u64,
    /// The congestion window, and what loss recovery keeps (RFC 5681, RFC 6675).
    pub congestion: Cong,
    /// Descriptor 4.
    pub stream_state: StreamState,
    /// Whether the peer's FIN was taken, and whether ours was queued then (RFC 9293, section 3.6).
    pub peer_fin: PeerFin,
}

impl Established {
    /// Whether a segment is no older than the one that the window was taken from.
    pub fn can_update_window(&self, segment: &Segment) -> bool
        ensures { result ≡ can_update_window self.now segment.now }
    {
        self.wl1 < segment.start || (self.wl1 == segment.start && self.wl2 <= segment.ack)
    }

    /// This window, in octets, is taken from a segment.
    pub fn set_rwnd_wl1_and_wl2(&mut self, segment: &Segment, window: u32)
        ensures { self.new ≡ with_window window segment.now self.old }
    {
        self.rwnd = window;
        self.wl1 = segment.start;
        self.wl2 = segment.ack;
    }
}
