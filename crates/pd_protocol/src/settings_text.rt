//! The settings of a TOML text.
ghost use Rattle.std.specs.Prelude.{◌≡◌, ◌⊎◌, Ok, Err, IfOk, IfErr};
ghost use Rattle.pd_protocol.specs.SettingsText.{settings_in};

use crate::faults::ServeFault;
use crate::program_faults::ProgramFault;
use pd_settings::Settings;
use std::alloc::Global;

/// The settings of a TOML text.
///
/// # Errors
/// `NotToml` where the text is none; what `pd_settings` says of its keys and values; `OutOfMemory`.
pub fn settings_from_toml(alloc: Global, text: &str) -> Result<Settings, ProgramFault>
    ensures ok { IfOk result (λ settings. settings_in text.now ≡ Ok settings) }
    ensures err { IfErr result (λ fault. (settings_in text.now ≡ Err fault) ⊎ (fault ≡ ProgramFault.Serving ServeFault.OutOfMemory)) }
{
    match toml::table_from_str(alloc, text) {
        Ok(table) => Ok(Settings::from_table(&table)?),
        Err(error) => Err(if error.is_memory() {
            ProgramFault::Serving(ServeFault::OutOfMemory)
        } else {
            ProgramFault::NotToml
        }),
    }
}
