//! An ACK, as congestion control reads it.

/// An ACK that was taken, and where the sender stands since. Numbers are those of octets, relative to the initial
/// sequence number.
#[derive(Clone, Copy)]
pub struct Ack {
    /// SMSS, the sender's maximum segment size, in octets: 64 to 65,495.
    pub smss: u16,
    /// SND.UNA: the ACK's number.
    pub una: u32,
    /// The number after the highest octet sent.
    pub top: u32,
    /// The number after the last octet queued.
    pub end: u32,
    /// The peer's window, in octets.
    pub rwnd: u32,
    /// How many octets the ACK acknowledges that weren't acknowledged.
    pub acked: u32,
    /// The octets that it reports to have reached the peer.
    pub delivery: Delivery,
    /// Whether its window is the one before it.
    pub same_window: bool,
    /// Whether a FIN came with it.
    pub fin: bool,
    /// The report of its blocks, where SACK was agreed.
    pub sack: Option<SackNews>,
}

/// The octets that an ACK reports to have reached the peer, as Proportional Rate Reduction counts them (RFC 9937, section 6).
/// Sizes are in octets.
#[derive(Clone, Copy)]
pub struct Delivery {
    /// DeliveredData: how many octets are acknowledged or SACKed that weren't before it.
    pub delivered_data: u32,
    /// RecoverFS, where recovery begins with it: how many octets were outstanding and not SACKed before it.
    pub recover_fs: u32,
    /// SafeACK: SND.UNA has advanced, and no octet counts as lost that didn't before it.
    pub safe_ack: bool,
}

/// The report of the SACK blocks of an ACK.
#[derive(Clone, Copy)]
pub struct SackNews {
    /// Whether one has an octet that wasn't SACKed.
    pub fresh: bool,
    /// Whether the octet at SND.UNA counts as lost now (RFC 6675, section 4, IsLost). Looked at only where `fresh`
    /// is true.
    pub lost: bool,
}
