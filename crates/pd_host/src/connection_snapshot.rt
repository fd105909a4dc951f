//! The numbers of a connection, as those who observe it see them.
use pd_recover::PrrState;

/// The numbers of a connection once a SYN has begun it. Octet numbers are relative, both initial ones at 0 (RFC 9293, section
/// 3.3.1).
#[derive(Clone, Copy)]
pub struct ConnectionSnapshot {
    /// SMSS, in octets: 64 to 65,495 (RFC 5681, section 2).
    pub smss: u16,
    /// SND.UNA: the oldest octet that isn't acknowledged.
    pub una: u32,
    /// Where sending goes on.
    pub next: u32,
    /// The number after the highest octet sent.
    pub top: u32,
    /// The number after the last octet queued, our FIN included.
    pub end: u32,
    /// The retransmission timeout, in microseconds (RFC 6298, section 2).
    pub rto_us: u64,
    /// Its parts that begin at the end of its handshake.
    pub windows: Option<WindowSnapshot>,
    /// Whether an RST has ended the connection.
    pub is_reset: bool,
}

/// The windows of a connection, and how far its loss recovery has come.
#[derive(Clone, Copy)]
pub struct WindowSnapshot {
    /// The congestion window, in octets (RFC 5681, section 2).
    pub cwnd: u32,
    /// The slow start threshold, in octets (RFC 5681, section 3.1).
    pub ssthresh: u32,
    /// The peer's window, in octets (RFC 9293, section 3.3.1: SND.WND).
    pub rwnd: u32,
    /// How many duplicates came since the last ACK of new octets or expiry; 4 stands for more too (RFC 6675, section 5).
    pub dup_acks: u32,
    /// Which loss recovery goes on.
    pub recovery: Recovery,
    /// The state of PRR in a recovery with SACK, where the setting `recovery_algorithm` is `rfc9937` (RFC 9937, section 6).
    pub prr: Option<PrrState>,
}

/// Which loss recovery goes on.
#[derive(Clone, Copy)]
pub enum Recovery {
    /// None.
    Idle,
    /// That of RFC 6675, with the octets of its pipe (section 4).
    WithSack(u32),
    /// That of RFC 5681, section 3.2.
    WithoutSack,
}
