//! The rules by which the sender puts packets out.

/// The rule by which a packet was put out.
#[derive(Clone, Copy, PartialEq, Eq)]
pub enum SendRule {
    /// The SYN/ACK that answers the SYN (RFC 9293, section 3.10.7.2).
    SynAck,
    /// The SYN/ACK again, at an expiry in the handshake (RFC 6298, section 5.4).
    SynAckAgain,
    /// An ACK that answers a segment which was dropped, an RST in the window, or the peer's FIN (RFC 9293, section 3.10.7.4).
    Ack,
    /// The RST that refuses an ACK in the handshake (RFC 9293, section 3.10.7.4, fifth check).
    Rst,
    /// Octets that were never sent, or our FIN, as the windows and Nagle's algorithm let them leave (RFC 9293, section
    /// 3.8.6.2.1).
    NewData,
    /// The segment at SND.UNA again, at an expiry after the handshake (RFC 6298, section 5.4).
    Expiry,
    /// Octets that were sent before an expiry, again, as the windows let them leave after it (RFC 6298, section 5.4).
    AfterExpiry,
    /// A new segment at one of the first two duplicates, without SACK (RFC 3042).
    LimitedTransmit,
    /// The same with SACK (RFC 6675, section 5, step 3).
    SackLimitedTransmit,
    /// The segment at SND.UNA again, without SACK (RFC 5681, section 3.2, step 3; RFC 6582, section 3.2).
    FastRetransmit,
    /// The segment at SND.UNA again, where recovery with SACK begins (RFC 6675, section 5, step 4.3).
    SackFastRetransmit,
    /// Octets that count as lost, again (RFC 6675, section 4, NextSeg, rule 1).
    NextSegLost,
    /// Octets that were never sent (RFC 6675, section 4, NextSeg, rule 2).
    NextSegNew,
    /// Octets below a SACKed one, again (RFC 6675, section 4, NextSeg, rule 3).
    NextSegHole,
    /// The last octets that aren't SACKed, again (RFC 6675, section 4, NextSeg, rule 4).
    NextSegRescue,
}
