//! Why the program stops: faults of its settings text or of serving, each printed as its number and name.
ghost use Rattle.std.specs.Prelude.{◌≡◌};
ghost use Rattle.pd_protocol.specs.ProgramFaults.{fault_text};

use crate::faults::ServeFault;
use pd_settings::SettingsFault;
use std::fmt;
use thiserror::Error;

/// Why the program stops before the end of its input: a fault of its settings text, or of serving.
#[derive(Clone, Copy, Debug, PartialEq, Eq, Error)]
pub enum ProgramFault {
    UnknownKey,
    BadValue,
    /// The settings text is not TOML.
    NotToml,
    Serving(ServeFault),
}

impl ProgramFault {
    /// Its number and its name, as they are printed.
    pub fn number_and_name(self) -> &'static str
        ensures { result.now ≡ fault_text self }
    {
        match self {
            ProgramFault::UnknownKey => SettingsFault::UnknownKey.number_and_name(),
            ProgramFault::BadValue => SettingsFault::BadValue.number_and_name(),
            ProgramFault::NotToml => "20 NotToml",
            ProgramFault::Serving(fault) => fault.number_and_name(),
        }
    }
}

impl fmt::Display for ProgramFault {
    ghost use Rattle.std.specs.Prelude.{Some};
    ghost use Rattle.pd_protocol.specs.ProgramFaults.{fault_text};

    ghost output = { λ fault. Some (fault_text fault) };

    fn fmt<W: fmt::Write>(&self, f: &mut fmt::Formatter<W>) -> fmt::Result {
        f.write_str(self.number_and_name())
    }
}

impl From<ServeFault> for ProgramFault {
    ghost use Rattle.std.specs.Prelude.{◌≡◌};
    ghost use Rattle.pd_protocol.specs.declared.program_faults.ProgramFault.TheVariants.{Serving};

    ghost from_gives = { λ fault e. e ≡ Serving fault };

    fn from(fault: ServeFault) -> ProgramFault {
        ProgramFault::Serving(fault)
    }
}

impl From<SettingsFault> for ProgramFault {
    ghost use Rattle.std.specs.Prelude.{◌≡◌};
    ghost use Rattle.pd_protocol.specs.ProgramFaults.{of_settings};

    ghost from_gives = { λ fault e. e ≡ of_settings fault };

    fn from(fault: SettingsFault) -> ProgramFault {
        match fault {
            SettingsFault::UnknownKey => ProgramFault::UnknownKey,
            SettingsFault::BadValue => ProgramFault::BadValue,
        }
    }
}
