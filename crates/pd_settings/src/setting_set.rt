//! Which settings were consulted.
ghost use Rattle.std.specs.Prelude.{◌≡◌};
ghost use Rattle.pd_settings.specs.SettingSets.{has, no_settings};

use crate::keys::Key;

/// Whether each of the settings was consulted so far.
#[derive(Clone, Copy, PartialEq, Eq)]
pub struct SettingSet {
    /// `mss`, which a SYN that is answered consults.
    pub mss: bool,
    /// `sack`, which a SYN that is answered consults.
    pub sack: bool,
    /// `wscale`, which a SYN that is answered consults.
    pub wscale: bool,
    /// `sndbuf`, which a `write` of some octets consults.
    pub sndbuf: bool,
    /// `rcv_wnd`, which a SYN that is answered consults.
    pub rcv_wnd: bool,
    /// `initial_ssthresh`, which the establishment consults.
    pub initial_ssthresh: bool,
    /// `initial_window`, which the establishment consults.
    pub initial_window: bool,
    /// `min_rto_us`, which a SYN that is answered consults.
    pub min_rto_us: bool,
    /// `max_rto_us`, which a SYN that is answered consults.
    pub max_rto_us: bool,
    /// `granularity_us`, which the establishment consults.
    pub granularity_us: bool,
    /// `nagle`, which the establishment consults.
    pub nagle: bool,
    /// `limited_transmit`, which the establishment consults.
    pub limited_transmit: bool,
    /// `abc_limit`, which the establishment consults.
    pub abc_limit: bool,
    /// `slow_start_after_idle`, which the establishment consults.
    pub slow_start_after_idle: bool,
    /// `recovery_algorithm`, which the establishment consults.
    pub recovery_algorithm: bool,
    /// `tolerance_us`, which a packet that is expected consults, unless the header sets a tolerance.
    pub tolerance_us: bool,
}

impl SettingSet {
    /// None of them.
    pub fn new() -> SettingSet
        ensures { result ≡ no_settings }
    {
        SettingSet {
            mss: false,
            sack: false,
            wscale: false,
            sndbuf: false,
            rcv_wnd: false,
            initial_ssthresh: false,
            initial_window: false,
            min_rto_us: false,
            max_rto_us: false,
            granularity_us: false,
            nagle: false,
            limited_transmit: false,
            abc_limit: false,
            slow_start_after_idle: false,
            recovery_algorithm: false,
            tolerance_us: false,
        }
    }

    /// Whether a setting is among them.
    pub fn has(&self, key: Key) -> bool
        ensures { result ≡ has self.now key }
    {
        match key {
            Key::Mss => self.mss,
            Key::Sack => self.sack,
            Key::Wscale => self.wscale,
            Key::Sndbuf => self.sndbuf,
            Key::RcvWnd => self.rcv_wnd,
            Key::InitialSsthresh => self.initial_ssthresh,
            Key::InitialWindow => self.initial_window,
            Key::MinRtoUs => self.min_rto_us,
            Key::MaxRtoUs => self.max_rto_us,
            Key::GranularityUs => self.granularity_us,
            Key::Nagle => self.nagle,
            Key::LimitedTransmit => self.limited_transmit,
            Key::AbcLimit => self.abc_limit,
            Key::SlowStartAfterIdle => self.slow_start_after_idle,
            Key::RecoveryAlgorithm => self.recovery_algorithm,
            Key::ToleranceUs => self.tolerance_us,
        }
    }
}
