//! The sending that an ACK leads to.
use pd_seg::Span;

/// The segments that are sent after an ACK.
#[derive(Clone, Copy)]
pub enum AckAction {
    /// Those that the windows and Nagle's algorithm allow.
    Ordinary,
    /// Segments by NextSeg, as long as cwnd - pipe allows one (RFC 6675, section 5, step C).
    StepC,
    /// Loss recovery begins (RFC 6675, section 5, step 4): the segment at SND.UNA again, which
    /// `Cong::set_high_and_rescue_rxt_and_count_prr_out` counts, then as `StepC`.
    Entry,
    /// New segments, as long as cwnd - pipe allows one, which `Cong::count_limited_transmit_octets` counts (RFC 6675, section 5,
    /// step 3).
    LimitedTransmit,
    /// One new segment (RFC 3042).
    NewSegment(Span),
    /// This segment again, then what `Ordinary` sends (RFC 5681, section 3.2, step 3: fast retransmit).
    FastRetransmit(Span),
    /// Nothing.
    Nothing,
}
