//! A connection: what was agreed, the numbers that it sends by, and how far it has come.
ghost use Rattle.std.specs.Prelude.{◌≡◌, ◌+◌, ◌≤◌, ◌<◌, ◌^◌, true, is_some, max, Some, IfOk};
ghost use Rattle.pd_host.specs.Arrivals.{reset_of, with_peer_fin};
ghost use Rattle.pd_host.specs.Calls.{stream_of, with_stream, with_nagle, free_of, with_queued, with_fin};
ghost use Rattle.pd_host.specs.Connection.{peer_fin_in, rcv_nxt};
ghost use Rattle.pd_host.specs.Inner.{IsScalable};
ghost use Rattle.pd_host.specs.Handshake.{offered_mss, is_peer_mss_supported, smss_of, own_and_peer_shifts_if_peer_offers, connection_begun, scaled_window_in, syn_acked, new_established_parts, established_by};
ghost use Rattle.pd_host.specs.Sending.{is_recovering};
ghost use Rattle.pd_host.specs.declared.descriptors.StreamState.TheVariants.{Open as StreamOpen, Closed as StreamClosed};
ghost use Rattle.pd_host.specs.Packets.{peer_window_shift};
ghost use Rattle.pd_host.specs.RttSegment.{with_sample, with_handshake_timer_ended};

pub mod ack_effects;
mod control_segments;
mod expiry;
pub mod introspection;
pub mod loss_evidence;
mod next_segment;
pub mod rtt_segment;
pub mod segment_check;
pub mod states;

use self::rtt_segment::RttSegment;
use crate::descriptors::StreamState;
use crate::established::{Established, PeerFin};
use crate::syn_options::SynOptions;
pub use control_segments::rst_refusing_ack_number;
use pd_board::Board;
use pd_recover::Cong;
use pd_seg::{Segment, Span};
use pd_settings::Settings;
use pd_timer::Rto;
use std::alloc::{AllocError, Global};
use std::marker::Model;

/// By how many bits windows are shifted, each at most 14 (RFC 7323, section 2.2).
#[derive(Clone, Copy, PartialEq, Eq)]
pub struct Scaling {
    /// The windows that we send.
    pub own: u8,
    /// The windows that the peer sends.
    pub peer: u8,
}

/// The MSS of a peer that names none, in octets (RFC 9293, section 3.7.1).
const DEFAULT_MSS: u16 = 536;

/// The greatest shift count (RFC 7323, section 2.3).
const MAX_SHIFT: u8 = 14;

/// A connection that a SYN has begun.
#[derive(Drop)]
pub struct Connection {
    /// SMSS, the numbers that are sent by, and the SACKed octets (RFC 9293, section 3.3.1; RFC 6675, section 3).
    board: Board,
    /// When octets were last sent, our SYN and FIN too, in microseconds since the start of the run (RFC 5681, section 4.1).
    last_sent: u64,
    /// The retransmission timer (RFC 6298).
    timer: Rto,
    /// The segment whose round trip is measured, if one is (RFC 6298, section 3).
    rtt_segment: Option<RttSegment>,
    /// Its parts that begin at the end of its handshake.
    established: Option<Established>,
    /// RCV.WND: how many octets the peer may send (RFC 9293, section 3.3.1).
    rcv_wnd: u32,
    /// Max(SND.WND): the largest of the peer's windows seen so far, the SYN's too, in octets (RFC 9293, section 3.8.6.2.1).
    max_window: u32,
    /// The MSS that our SYN/ACK names, in octets (RFC 9293, section 3.7.1).
    own_mss: u16,
    /// Whether SACK was agreed (RFC 2018, section 2).
    sack: bool,
    /// By how much windows are shifted, if that was agreed (RFC 7323, section 2).
    scaling: Option<Scaling>,
    /// Whether the last octet queued is our FIN (RFC 9293, section 3.4).
    fin: bool,
    /// Whether the SYN/ACK was sent again (RFC 5681, section 3.1; RFC 6298, section 5.7).
    syn_ack_resent: bool,
    /// Whether an RST has ended it (RFC 9293, section 3.10.7.4, second check).
    is_reset: bool,
}

impl Model for Connection {
    ghost use Rattle.pd_host.specs.Connection.{ConnectionView};
    ghost use Rattle.pd_host.specs.Inner.{IsConnection};

    ghost Value = { ConnectionView };

    ghost view = { λ c. record { own_mss = c.own_mss; sack = c.sack; scaling = c.scaling; rcv_wnd = c.rcv_wnd; board = c.board; fin = c.fin; timer = c.timer; rtt_segment = c.rtt_segment; last_sent = c.last_sent; max_window = c.max_window; syn_ack_resent = c.syn_ack_resent; established = c.established; is_reset = c.is_reset } };

    ghost invariant = { λ c. IsConnection c.scaling c.board.una c.established };
}

/// By how much the windows that the peer sends are shifted.
fn peer_window_shift(scaling: Option<Scaling>) -> u8
    requires { IsScalable scaling }
    ensures count { result ≡ peer_window_shift scaling }
    ensures small { result ≤ 14 }
{
    match scaling {
        None => 0,
        Some(scaling) => scaling.peer,
    }
}

/// The greatest segment that is sent to a peer that offers this, in octets.
fn smss_of(settings: &Settings, syn_options: SynOptions) -> u16
    requires { is_peer_mss_supported syn_options.mss ≡ true }
    ensures value { result ≡ smss_of settings.now syn_options }
    ensures low { 64 ≤ result }
    ensures high { result ≤ 65495 }
{
    settings.mss.min(syn_options.mss.unwrap_or(DEFAULT_MSS))
}

fn own_and_peer_shifts_if_peer_offers(
    settings: &Settings,
    syn_options: SynOptions,
) -> Option<Scaling>
    ensures agreed { result ≡ own_and_peer_shifts_if_peer_offers settings.now syn_options }
    ensures small { IsScalable result }
{
    match syn_options.count {
        None => None,
        Some(count) => Some(Scaling {
            own: settings.wscale,
            peer: count.min(MAX_SHIFT),
        }),
    }
}

impl Connection {
    /// The connection that a SYN begins at a moment; our SYN counts as sent.
    pub fn begin(alloc: Global, settings: &Settings, syn: &Segment, now: u64) -> Connection
        requires early { now < 2 ^ 62 }
        requires run { is_peer_mss_supported (offered_mss syn.now.options) ≡ true }
        ensures { result ≡ connection_begun now settings.now syn.now }
    {
        let syn_options = SynOptions::of(syn.options.as_slice());
        let mut timer = Rto::new(settings);
        timer.start(now);
        Connection {
            own_mss: settings.mss,
            sack: settings.sack && syn_options.sack,
            scaling: own_and_peer_shifts_if_peer_offers(settings, syn_options),
            rcv_wnd: settings.rcv_wnd,
            board: Board::new(alloc, smss_of(settings, syn_options)),
            fin: false,
            timer,
            rtt_segment: Some(RttSegment {
                segment: Span { start: 0, end: 1 },
                sent_at: now,
            }),
            last_sent: now,
            max_window: u32::from(syn.win),
            syn_ack_resent: false,
            established: None,
            is_reset: false,
        }
    }

    /// Its scoreboard once more.
    ///
    /// # Errors
    /// `AllocError` where a growth is refused, or the scoreboard has found no memory before.
    pub fn copy_board(&self) -> Result<Board, AllocError>
        ensures { IfOk result (λ board. board ≡ self.now.board) }
    {
        self.board.copy()
    }

    /// The same connection on an equal scoreboard.
    #[inline(always)]
    pub fn with_board(&self, board: Board) -> Connection
        requires { board ≡ self.now.board }
        ensures { result ≡ self.now }
    {
        Connection { board, ..*self }
    }

    /// Puts the same connection in a place, on an equal scoreboard.
    #[inline(always)]
    pub fn store_copy_with_board(&self, scoreboard: Board, place: &mut Option<Connection>)
        requires { scoreboard ≡ self.now.board }
        ensures { place.new ≡ Some self.now }
    {
        *place = Some(Connection {
            board: scoreboard,
            ..*self
        });
    }

    /// The handshake is finished by this segment at a moment.
    pub fn establish(&mut self, settings: &Settings, segment: &Segment, now: u64)
        requires early { now < 2 ^ 62 }
        requires begun { self.old.board.una ≤ 1 }
        requires sent { 1 ≤ self.old.board.top }
        ensures { self.new ≡ established_by now settings.now segment.now self.old }
    {
        let established = self.new_established_parts(settings, segment);
        let max_window = self.max_window_with(established.rwnd);
        self.acknowledge_syn_in_board_rtt_and_timer(settings.granularity_us, now);
        self.set_max_window_and_established(max_window, established);
    }

    /// The largest window seen, with this one, in octets.
    fn max_window_with(&self, window: u32) -> u32
        ensures { result ≡ max self.now.max_window window }
    {
        self.max_window.max(window)
    }

    /// Our SYN is acknowledged at a moment.
    fn acknowledge_syn_in_board_rtt_and_timer(&mut self, granularity_us: u64, now: u64)
        requires early { now < 2 ^ 62 }
        requires begun { self.old.board.una ≤ 1 }
        requires sent { 1 ≤ self.old.board.top }
        ensures { self.new ≡ with_handshake_timer_ended (with_sample now granularity_us 1 (syn_acked self.old)) }
    {
        self.board.take_ack(1);
        self.sample(now, granularity_us, 1);
        self.stop_handshake_timer_set_rto_if_resent();
    }

    fn set_max_window_and_established(&mut self, max_window: u32, established: Established)
        ensures { self.new ≡ record self.old { max_window = max_window; established = Some established } }
    {
        self.max_window = max_window;
        self.established = Some(established);
    }

    /// The parts that the connection has once this segment has finished the handshake.
    fn new_established_parts(&self, settings: &Settings, segment: &Segment) -> Established
        ensures { result ≡ new_established_parts settings.now segment.now self.now }
    {
        Established {
            rwnd: self.scaled_window_in(segment),
            wl1: segment.start,
            wl2: segment.ack,
            nagle: settings.nagle,
            granularity_us: settings.granularity_us,
            congestion: Cong::new(settings, self.board.smss(), self.syn_ack_resent),
            stream_state: StreamState::Waiting,
            peer_fin: PeerFin::Awaited,
        }
    }

    /// The window in a segment, in octets.
    fn scaled_window_in(&self, segment: &Segment) -> u32
        ensures { result ≡ scaled_window_in self.now segment.now }
    {
        u32::from(segment.win) << peer_window_shift(self.scaling)
    }

    /// The peer's FIN.
    fn peer_fin(&self) -> PeerFin
        ensures { result ≡ peer_fin_in self.now.established }
    {
        match &self.established {
            None => PeerFin::Awaited,
            Some(established) => established.peer_fin,
        }
    }

    /// RCV.NXT: the number of the next octet that the peer sends.
    fn rcv_nxt(&self) -> u32
        ensures value { result ≡ rcv_nxt self.now }
        ensures small { result ≤ 2 }
    {
        self.peer_fin().next_peer_octet()
    }

    /// The peer's FIN is taken.
    pub fn take_peer_fin(&mut self)
        ensures { self.new ≡ with_peer_fin self.old }
    {
        if let Some(established) = &mut self.established {
            established.peer_fin = if self.fin {
                PeerFin::AfterOurs
            } else {
                PeerFin::BeforeOurs
            };
        }
    }

    /// An RST ends the connection for good.
    pub fn mark_reset_and_stop_timer(&mut self)
        ensures { self.new ≡ reset_of self.old }
    {
        self.is_reset = true;
        self.timer.stop();
        self.rtt_segment = None;
    }

    /// `accept` hands out the connection.
    pub fn accept(&mut self)
        ensures { self.new ≡ with_stream StreamOpen self.old }
    {
        if let Some(established) = &mut self.established {
            established.stream_state = StreamState::Open;
        }
    }

    /// Switches Nagle's algorithm on or off.
    pub fn set_nagle(&mut self, on: bool)
        ensures { self.new ≡ with_nagle on self.old }
    {
        if let Some(established) = &mut self.established {
            established.nagle = on;
        }
    }

    /// How many octets `write` may still queue, by the setting `sndbuf`.
    pub fn remaining_send_buffer_octets(&self, sndbuf: u32) -> u32
        ensures { result ≡ free_of sndbuf self.now }
    {
        sndbuf.saturating_sub(self.board.end() - self.board.una())
    }

    /// Queues octets.
    pub fn queue_octets(&mut self, count: u32)
        requires small { self.old.board.end + count < 2 ^ 31 }
        ensures { self.new ≡ with_queued count self.old }
    {
        self.board.write(count);
    }

    /// Queues our FIN after them.
    pub fn queue_fin(&mut self)
        requires small { self.old.board.end + 1 < 2 ^ 31 }
        ensures { self.new ≡ with_fin self.old }
    {
        self.board.write(1);
        self.fin = true;
    }

    /// `close` closes descriptor 4.
    pub fn mark_stream_descriptor_closed(&mut self)
        ensures { self.new ≡ with_stream StreamClosed self.old }
    {
        if let Some(established) = &mut self.established {
            established.stream_state = StreamState::Closed;
        }
    }

    /// Whether loss recovery goes on; not before the establishment.
    pub fn is_recovering(&self) -> bool
        ensures { result ≡ is_recovering self.now.established }
    {
        match &self.established {
            None => false,
            Some(established) => established.congestion.is_recovering(),
        }
    }

    /// Whether the handshake has ended, also where an RST came since.
    pub fn is_established(&self) -> bool
        ensures { result ≡ is_some self.now.established }
    {
        self.established.is_some()
    }

    /// How far descriptor 4 has come.
    pub fn stream_state(&self) -> StreamState
        ensures { result ≡ stream_of self.now }
    {
        match &self.established {
            None => StreamState::Waiting,
            Some(established) => established.stream_state,
        }
    }

    /// Whether an RST has ended the connection.
    pub fn is_reset(&self) -> bool
        ensures { result ≡ self.now.is_reset }
    {
        self.is_reset
    }
}
