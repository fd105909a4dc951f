//! The settings by name.
ghost use Rattle.std.specs.Prelude.{◌≡◌};
ghost use Rattle.pd_settings.specs.Keys.{key_named, name_of, allowed_values_of};

use crate::allowed_values::AllowedValues;

/// One of the settings.
#[derive(Clone, Copy, PartialEq, Eq)]
pub enum Key {
    Mss,
    Sack,
    Wscale,
    Sndbuf,
    RcvWnd,
    InitialSsthresh,
    InitialWindow,
    MinRtoUs,
    MaxRtoUs,
    GranularityUs,
    Nagle,
    LimitedTransmit,
    AbcLimit,
    SlowStartAfterIdle,
    RecoveryAlgorithm,
    ToleranceUs,
}

impl Key {
    /// All settings, in the order of the fields of `Settings`.
    pub const ALL: [Key; 16] = [
        Key::Mss,
        Key::Sack,
        Key::Wscale,
        Key::Sndbuf,
        Key::RcvWnd,
        Key::InitialSsthresh,
        Key::InitialWindow,
        Key::MinRtoUs,
        Key::MaxRtoUs,
        Key::GranularityUs,
        Key::Nagle,
        Key::LimitedTransmit,
        Key::AbcLimit,
        Key::SlowStartAfterIdle,
        Key::RecoveryAlgorithm,
        Key::ToleranceUs,
    ];

    /// The setting of a name; None where no setting has it.
    pub fn from_name(name: &[u8]) -> Option<Key>
        ensures { result ≡ key_named name.now }
    {
        Key::ALL.iter().copied().find(|key| key.name() == name)
    }

    /// The name that the setting is written by.
    pub fn name(&self) -> &'static [u8]
        ensures { result.now ≡ name_of self.now }
    {
        match self {
            Key::Mss => b"mss",
            Key::Sack => b"sack",
            Key::Wscale => b"wscale",
            Key::Sndbuf => b"sndbuf",
            Key::RcvWnd => b"rcv_wnd",
            Key::InitialSsthresh => b"initial_ssthresh",
            Key::InitialWindow => b"initial_window",
            Key::MinRtoUs => b"min_rto_us",
            Key::MaxRtoUs => b"max_rto_us",
            Key::GranularityUs => b"granularity_us",
            Key::Nagle => b"nagle",
            Key::LimitedTransmit => b"limited_transmit",
            Key::AbcLimit => b"abc_limit",
            Key::SlowStartAfterIdle => b"slow_start_after_idle",
            Key::RecoveryAlgorithm => b"recovery_algorithm",
            Key::ToleranceUs => b"tolerance_us",
        }
    }

    /// The values that the setting takes.
    pub fn allowed_values(&self) -> AllowedValues
        ensures { result ≡ allowed_values_of self.now }
    {
        match self {
            Key::Mss => AllowedValues::Numbers(64, 65_495),
            Key::Sack => AllowedValues::Booleans,
            Key::Wscale => AllowedValues::Numbers(0, 14),
            Key::Sndbuf => AllowedValues::Numbers(1_024, 1_048_576),
            Key::RcvWnd => AllowedValues::Numbers(1, 1_073_725_440),
            Key::InitialSsthresh => AllowedValues::Numbers(128, 1_073_741_824),
            Key::InitialWindow => AllowedValues::WindowRules,
            Key::MinRtoUs => AllowedValues::Numbers(1_000, 60_000_000),
            Key::MaxRtoUs => AllowedValues::Numbers(60_000_000, 3_600_000_000),
            Key::GranularityUs => AllowedValues::Numbers(1, 1_000_000),
            Key::Nagle => AllowedValues::Booleans,
            Key::LimitedTransmit => AllowedValues::Booleans,
            Key::AbcLimit => AllowedValues::Numbers(1, 8),
            Key::SlowStartAfterIdle => AllowedValues::Booleans,
            Key::RecoveryAlgorithm => AllowedValues::Algorithms,
            Key::ToleranceUs => AllowedValues::Numbers(0, 1_000_000),
        }
    }
}
