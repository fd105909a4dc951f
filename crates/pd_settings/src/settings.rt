//! The settings themselves.
ghost use Rattle.std.specs.Prelude.{◌≡◌, ◌↔◌, IsSome, IfSome, MatchResult};
ghost use Rattle.pd_settings.specs.Keys.{Allows, allowed_values_of};
ghost use Rattle.pd_settings.specs.declared.keys.Key.TheVariants.{Mss, Wscale, Sndbuf, RcvWnd, InitialSsthresh, MinRtoUs, MaxRtoUs, GranularityUs, AbcLimit, ToleranceUs};
ghost use Rattle.pd_settings.specs.declared.values.Value.TheVariants.{Number, Boolean, WindowRule, Algorithm};

use crate::faults::SettingsFault;
use crate::initial_window::InitialWindow;
use crate::keys::Key;
use crate::recovery_algorithm::RecoveryAlgorithm;
use crate::values::Value;
use toml::Table;

/// The settings of a run, each in its range.
#[derive(Clone, Copy)]
pub struct Settings {
    /// The maximum segment size that is announced, in octets (RFC 9293, section 3.7.1): 64 to 65,495.
    pub mss: u16,
    /// Whether SACK is agreed where the peer offers it (RFC 2018, section 2).
    pub sack: bool,
    /// The shift count that is announced where the peer scales windows (RFC 7323, section 2): 0 to 14.
    pub wscale: u8,
    /// How many octets `write` may queue beyond those acknowledged: 1,024 to 1,048,576.
    pub sndbuf: u32,
    /// RCV.WND, the receive window, in octets (RFC 9293, section 3.3.1): 1 to 1,073,725,440.
    pub rcv_wnd: u32,
    /// The slow start threshold at establishment, in octets (RFC 5681, section 3.1): 128 to 1,073,741,824.
    pub initial_ssthresh: u32,
    /// The rule for the congestion window at establishment (RFC 5681, section 3.1; RFC 6928, section 2).
    pub initial_window: InitialWindow,
    /// The least retransmission timeout, in microseconds (RFC 6298, section 2.4): 1,000 to 60,000,000.
    pub min_rto_us: u64,
    /// The greatest retransmission timeout, in microseconds (RFC 6298, section 2.5): 60,000,000 to
    /// 3,600,000,000.
    pub max_rto_us: u64,
    /// G, the clock granularity, in microseconds (RFC 6298, section 2): 1 to 1,000,000.
    pub granularity_us: u64,
    /// Whether Nagle's algorithm is on at establishment (RFC 9293, section 3.7.4).
    pub nagle: bool,
    /// Whether the first duplicates send new data (RFC 3042).
    pub limited_transmit: bool,
    /// L, how many segments an ACK widens the window by at most in slow start (RFC 3465, sections 2.2 and 2.3): 1 to 8.
    pub abc_limit: u8,
    /// Whether an idle connection begins again with the restart window (RFC 5681, section 4.1).
    pub slow_start_after_idle: bool,
    /// The algorithm of loss recovery with SACK (RFC 6675, section 5; RFC 9937, section 6).
    pub recovery_algorithm: RecoveryAlgorithm,
    /// How far a packet's time may lie outside the written one, in microseconds, where the script's header
    /// doesn't say (packetdrill's `--tolerance_usecs`): 0 to 1,000,000.
    pub tolerance_us: u64,
    pub ghost mss_in_range: { Allows (allowed_values_of Mss) (Number mss) },
    pub ghost wscale_in_range: { Allows (allowed_values_of Wscale) (Number wscale) },
    pub ghost sndbuf_in_range: { Allows (allowed_values_of Sndbuf) (Number sndbuf) },
    pub ghost rcv_wnd_in_range: { Allows (allowed_values_of RcvWnd) (Number rcv_wnd) },
    pub ghost initial_ssthresh_in_range: { Allows (allowed_values_of InitialSsthresh) (Number initial_ssthresh) },
    pub ghost min_rto_us_in_range: { Allows (allowed_values_of MinRtoUs) (Number min_rto_us) },
    pub ghost max_rto_us_in_range: { Allows (allowed_values_of MaxRtoUs) (Number max_rto_us) },
    pub ghost granularity_us_in_range: { Allows (allowed_values_of GranularityUs) (Number granularity_us) },
    pub ghost abc_limit_in_range: { Allows (allowed_values_of AbcLimit) (Number abc_limit) },
    pub ghost tolerance_us_in_range: { Allows (allowed_values_of ToleranceUs) (Number tolerance_us) },
}

/// Some settings with one field replaced.
macro_rules! with_field {
    ($settings:expr, $field:ident, $value:expr) => {{
        let mut settings = *$settings;
        settings.$field = $value;
        Some(settings)
    }};
}

impl Settings {
    ghost use Rattle.pd_settings.specs.Change.{IsChanged, IsRefused};
    ghost use Rattle.pd_settings.specs.Settings.{ChangesOnly, defaults, replaced, value_at, with_value};
    ghost use Rattle.pd_settings.specs.Table.{AreAccepted, IsFirstFault, IsOverlay, from_table_of, overlaid};
    ghost use Rattle.toml.specs.View.{table_view};

    /// The defaults.
    pub fn new() -> Settings
        ensures { result ≡ defaults }
    {
        Settings {
            mss: 1_460,
            sack: true,
            wscale: 7,
            sndbuf: 262_144,
            rcv_wnd: 65_535,
            initial_ssthresh: 1_073_741_824,
            initial_window: InitialWindow::Rfc5681,
            min_rto_us: 1_000_000,
            max_rto_us: 60_000_000,
            granularity_us: 1_000,
            nagle: true,
            limited_transmit: true,
            abc_limit: 1,
            slow_start_after_idle: false,
            recovery_algorithm: RecoveryAlgorithm::Rfc6675,
            tolerance_us: 4_000,
        }
    }

    /// The invariant of settings: they lie in their ranges. It does nothing.
    pub fn law_ssthresh_and_rto_bounds_are_allowed(&self)
        ensures initial_ssthresh { Allows (allowed_values_of InitialSsthresh) (Number self.now.initial_ssthresh) }
        ensures min_rto_us { Allows (allowed_values_of MinRtoUs) (Number self.now.min_rto_us) }
        ensures max_rto_us { Allows (allowed_values_of MaxRtoUs) (Number self.now.max_rto_us) }
    {
        let _settings = *self;
    }

    /// The value at a key.
    pub fn value_at(&self, key: Key) -> Value
        ensures { result ≡ value_at self.now key }
    {
        match key {
            Key::Mss => Value::Number(u64::from(self.mss)),
            Key::Sack => Value::Boolean(self.sack),
            Key::Wscale => Value::Number(u64::from(self.wscale)),
            Key::Sndbuf => Value::Number(u64::from(self.sndbuf)),
            Key::RcvWnd => Value::Number(u64::from(self.rcv_wnd)),
            Key::InitialSsthresh => Value::Number(u64::from(self.initial_ssthresh)),
            Key::InitialWindow => Value::WindowRule(self.initial_window),
            Key::MinRtoUs => Value::Number(self.min_rto_us),
            Key::MaxRtoUs => Value::Number(self.max_rto_us),
            Key::GranularityUs => Value::Number(self.granularity_us),
            Key::Nagle => Value::Boolean(self.nagle),
            Key::LimitedTransmit => Value::Boolean(self.limited_transmit),
            Key::AbcLimit => Value::Number(u64::from(self.abc_limit)),
            Key::SlowStartAfterIdle => Value::Boolean(self.slow_start_after_idle),
            Key::RecoveryAlgorithm => Value::Algorithm(self.recovery_algorithm),
            Key::ToleranceUs => Value::Number(self.tolerance_us),
        }
    }

    /// The settings with the key's field replaced by the value; None where the key doesn't take the value.
    ///
    /// Takes no memory.
    pub fn with_allowed_value_or_none(&self, key: Key, value: Value) -> Option<Settings>
        ensures value { result ≡ replaced self.now key value }
        ensures accepted { IsSome result ↔ Allows (allowed_values_of key) value }
        ensures changed { IfSome result (ChangesOnly self.now key value) }
    {
        self.with_value_by_kind_if_allowed(key, value)
    }

    fn with_value_by_kind_if_allowed(&self, key: Key, value: Value) -> Option<Settings>
        ensures { result ≡ replaced self.now key value }
    {
        match value {
            Value::Number(number) => self.with_number_if_in_allowed_range(key, number),
            Value::Boolean(truth) => self.with_boolean_if_boolean_key(key, truth),
            Value::WindowRule(window) => self.with_window_rule_if_its_key(key, window),
            Value::Algorithm(algorithm) => self.with_algorithm_if_its_key(key, algorithm),
            Value::Other => None,
        }
    }

    #[tactic(auto, using(crate::proofs::Allowed::allowed_outside))]
    fn with_number_if_in_allowed_range(&self, key: Key, number: u64) -> Option<Settings>
        ensures { result ≡ replaced self.now key (Number number) }
    {
        if !key.allowed_values().contains_number(number) {
            return None;
        }
        self.with_number_trusting_allowed_range(key, number)
    }

    fn with_number_trusting_allowed_range(&self, key: Key, number: u64) -> Option<Settings>
        requires { Allows (allowed_values_of key) (Number number) }
        ensures { result ≡ replaced self.now key (Number number) }
    {
        match key {
            Key::Mss => with_field!(self, mss, number as u16),
            Key::Wscale => with_field!(self, wscale, number as u8),
            Key::Sndbuf => with_field!(self, sndbuf, number as u32),
            Key::RcvWnd => with_field!(self, rcv_wnd, number as u32),
            Key::InitialSsthresh => with_field!(self, initial_ssthresh, number as u32),
            Key::MinRtoUs => with_field!(self, min_rto_us, number),
            Key::MaxRtoUs => with_field!(self, max_rto_us, number),
            Key::GranularityUs => with_field!(self, granularity_us, number),
            Key::AbcLimit => with_field!(self, abc_limit, number as u8),
            Key::ToleranceUs => with_field!(self, tolerance_us, number),
            Key::Sack
            | Key::Nagle
            | Key::LimitedTransmit
            | Key::SlowStartAfterIdle
            | Key::RecoveryAlgorithm
            | Key::InitialWindow => None,
        }
    }

    fn with_boolean_if_boolean_key(&self, key: Key, truth: bool) -> Option<Settings>
        ensures { result ≡ replaced self.now key (Boolean truth) }
    {
        match key {
            Key::Sack => with_field!(self, sack, truth),
            Key::Nagle => with_field!(self, nagle, truth),
            Key::LimitedTransmit => with_field!(self, limited_transmit, truth),
            Key::SlowStartAfterIdle => with_field!(self, slow_start_after_idle, truth),
            _ => None,
        }
    }

    fn with_window_rule_if_its_key(&self, key: Key, window: InitialWindow) -> Option<Settings>
        ensures { result ≡ replaced self.now key (WindowRule window) }
    {
        match key {
            Key::InitialWindow => with_field!(self, initial_window, window),
            _ => None,
        }
    }

    fn with_algorithm_if_its_key(&self, key: Key, algorithm: RecoveryAlgorithm) -> Option<Settings>
        ensures { result ≡ replaced self.now key (Algorithm algorithm) }
    {
        match key {
            Key::RecoveryAlgorithm => with_field!(self, recovery_algorithm, algorithm),
            _ => None,
        }
    }

    /// The settings with the named field replaced.
    ///
    /// Takes no memory.
    ///
    /// # Errors
    /// `UnknownKey` where no setting has the name, else `BadValue` where the setting doesn't take the value.
    pub fn with(&self, key: &[u8], value: Value) -> Result<Settings, SettingsFault>
        ensures value { result ≡ with_value self.now key.now value }
        ensures changed { MatchResult result (IsChanged self.now key.now value) (IsRefused key.now value) }
    {
        self.with_value_by_name(key, value)
    }

    fn with_value_by_name(&self, key: &[u8], value: Value) -> Result<Settings, SettingsFault>
        ensures { result ≡ with_value self.now key.now value }
    {
        let key = Key::from_name(key).ok_or(SettingsFault::UnknownKey)?;
        self.with_allowed_value_or_none(key, value)
            .ok_or(SettingsFault::BadValue)
    }

    /// The settings that a table writes; a setting that it doesn't write has its default.
    ///
    /// The entries are looked at in the table's order, which ascends by key.
    ///
    /// # Errors
    /// The fault of the first entry that is refused, as by [`Settings::with`].
    pub fn from_table(table: &Table) -> Result<Settings, SettingsFault>
        ensures value { result ≡ from_table_of (table_view table.now) }
        ensures overlay { MatchResult result
            (λ settings. AreAccepted (table_view table.now) × IsOverlay defaults (table_view table.now) settings)
            (IsFirstFault (table_view table.now)) }
    {
        Settings::new().with_table_values(table)
    }

    /// The settings with each entry's field replaced in the table's order, or the first fault.
    fn with_table_values(&self, table: &Table) -> Result<Settings, SettingsFault>
        ensures { result ≡ overlaid self.now (table_view table.now) }
    {
        let mut settings = *self;
        for (key, value) in table {
            settings = settings.with(key.as_bytes(), Value::from_toml_or_other(value))?;
        }
        Ok(settings)
    }
}
