//! Whether settings are equal, and whether they are where it matters.
ghost use Rattle.std.specs.Prelude.{◌≡◌, ◌↔◌, IsTrue};
ghost use Rattle.pd_settings.specs.SettingSets.{Agree, agrees, is_unconsulted_or_same, is_same, is_same_at, is_same_value};

use crate::keys::Key;
use crate::setting_set::SettingSet;
use crate::settings::Settings;
use crate::values::Value;

impl Settings {
    /// Whether the two are equal in each setting.
    #[tactic(auto, using(crate::proofs::Agreements::is_same_is))]
    pub fn is_same(&self, other: &Settings) -> bool
        ensures { IsTrue result ↔ (self.now ≡ other.now) }
    {
        self.has_every_setting_equal(other)
    }

    /// The same, setting by setting: all are compared, since most often all are equal.
    fn has_every_setting_equal(&self, other: &Settings) -> bool
        ensures { result ≡ is_same self.now other.now }
    {
        let mut same = true;
        same = (self.tolerance_us == other.tolerance_us) & same;
        same = (self.recovery_algorithm == other.recovery_algorithm) & same;
        same = (self.slow_start_after_idle == other.slow_start_after_idle) & same;
        same = (self.abc_limit == other.abc_limit) & same;
        same = (self.limited_transmit == other.limited_transmit) & same;
        same = (self.nagle == other.nagle) & same;
        same = (self.granularity_us == other.granularity_us) & same;
        same = (self.max_rto_us == other.max_rto_us) & same;
        same = (self.min_rto_us == other.min_rto_us) & same;
        same = (self.initial_window == other.initial_window) & same;
        same = (self.initial_ssthresh == other.initial_ssthresh) & same;
        same = (self.rcv_wnd == other.rcv_wnd) & same;
        same = (self.sndbuf == other.sndbuf) & same;
        same = (self.wscale == other.wscale) & same;
        same = (self.sack == other.sack) & same;
        same = (self.mss == other.mss) & same;
        same
    }

    fn is_same_at(&self, other: &Settings, key: Key) -> bool
        ensures { result ≡ is_same_at self.now other.now key }
    {
        is_same_value(self.value_at(key), other.value_at(key))
    }

    /// Whether the two are equal in each setting of a set.
    ///
    /// Takes no memory.
    #[tactic(auto, using(crate::proofs::Agreements::agrees_is))]
    pub fn agrees(&self, other: &Settings, consulted: &SettingSet) -> bool
        ensures test { result ≡ agrees consulted.now self.now other.now }
        ensures fields { IsTrue result ↔ Agree consulted.now self.now other.now }
    {
        self.agrees_on_each_consulted_key(other, consulted)
    }

    fn agrees_on_each_consulted_key(&self, other: &Settings, consulted: &SettingSet) -> bool
        ensures { result ≡ agrees consulted.now self.now other.now }
    {
        if self.has_every_setting_equal(other) {
            return true;
        }
        Key::ALL
            .iter()
            .all(|key| self.is_unconsulted_or_same(other, consulted, *key))
    }

    fn is_unconsulted_or_same(&self, other: &Settings, consulted: &SettingSet, key: Key) -> bool
        ensures { result ≡ is_unconsulted_or_same consulted.now self.now other.now key }
    {
        !consulted.has(key) || self.is_same_at(other, key)
    }
}

/// Whether two values are equal.
fn is_same_value(one: Value, other: Value) -> bool
    ensures { result ≡ is_same_value one other }
{
    match (one, other) {
        (Value::Number(one), Value::Number(other)) => one == other,
        (Value::Boolean(one), Value::Boolean(other)) => one == other,
        (Value::WindowRule(one), Value::WindowRule(other)) => one == other,
        (Value::Algorithm(one), Value::Algorithm(other)) => one == other,
        (Value::Other, Value::Other) => true,
        _ => false,
    }
}
