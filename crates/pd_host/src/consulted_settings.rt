//! Which settings the sender consults when.
ghost use Rattle.std.specs.Prelude.{◌≡◌};
ghost use Rattle.pd_host.specs.Calls.{write_settings};
ghost use Rattle.pd_host.specs.Handshake.{syn_settings, establishment_settings};

use pd_recover::Cong;
use pd_settings::SettingSet;

/// With those that an answered SYN consults.
pub fn with_syn_settings(consulted_settings: SettingSet) -> SettingSet
    ensures { result ≡ syn_settings consulted_settings }
{
    SettingSet {
        mss: true,
        sack: true,
        wscale: true,
        rcv_wnd: true,
        min_rto_us: true,
        max_rto_us: true,
        ..consulted_settings
    }
}

/// With those that the establishment consults.
pub fn with_establishment_settings(consulted_settings: SettingSet) -> SettingSet
    ensures { result ≡ establishment_settings consulted_settings }
{
    Cong::consulted_settings_plus_those_new_reads(SettingSet {
        nagle: true,
        granularity_us: true,
        ..consulted_settings
    })
}

/// With the one that a `write` of some octets consults.
pub fn with_sndbuf_setting_of_write(consulted_settings: SettingSet) -> SettingSet
    ensures { result ≡ write_settings consulted_settings }
{
    SettingSet {
        sndbuf: true,
        ..consulted_settings
    }
}
