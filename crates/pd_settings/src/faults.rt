//! Why a setting is refused.
ghost use Rattle.std.specs.Prelude.{◌≡◌};
ghost use Rattle.pd_settings.specs.Faults.{fault_text};

use std::fmt;
use thiserror::Error;

/// Why a setting is refused.
#[derive(Clone, Copy, Debug, PartialEq, Eq, Error)]
pub enum SettingsFault {
    /// No setting has this name.
    UnknownKey,
    /// The setting doesn't take this value.
    BadValue,
}

impl SettingsFault {
    /// Its number and its name, as they are printed.
    pub fn number_and_name(self) -> &'static str
        ensures { result.now ≡ fault_text self }
    {
        match self {
            SettingsFault::UnknownKey => "3 UnknownKey",
            SettingsFault::BadValue => "4 BadValue",
        }
    }
}

impl fmt::Display for SettingsFault {
    ghost use Rattle.std.specs.Prelude.{Some};
    ghost use Rattle.pd_settings.specs.Faults.{fault_text};

    ghost output = { λ fault. Some (fault_text fault) };

    fn fmt<W: fmt::Write>(&self, f: &mut fmt::Formatter<W>) -> fmt::Result {
        f.write_str(self.number_and_name())
    }
}
