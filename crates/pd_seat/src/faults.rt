//! Why a report isn't shown: faults, each printed as its number and name.
ghost use Rattle.std.specs.Prelude.{◌≡◌};
ghost use Rattle.pd_seat.specs.Faults.{show_fault_text};

use std::alloc::AllocError;
use std::fmt;
use thiserror::Error;

/// Why a report isn't shown.
#[derive(Clone, Copy, Debug, PartialEq, Eq, Error)]
pub enum ShowFault {
    /// The acts noted with the seat's number aren't the seat's own, or the history is shorter than one of which the
    /// seat was shown a report.
    Differs,
    OutOfMemory,
}

impl ShowFault {
    /// Its number and its name, as they are printed.
    pub fn number_and_name(self) -> &'static str
        ensures { result.now ≡ show_fault_text self }
    {
        match self {
            ShowFault::Differs => "14 Differs",
            ShowFault::OutOfMemory => "19 OutOfMemory",
        }
    }
}

impl fmt::Display for ShowFault {
    ghost use Rattle.std.specs.Prelude.{Some};
    ghost use Rattle.pd_seat.specs.Faults.{show_fault_text};

    ghost output = { λ fault. Some (show_fault_text fault) };

    fn fmt<W: fmt::Write>(&self, f: &mut fmt::Formatter<W>) -> fmt::Result {
        f.write_str(self.number_and_name())
    }
}

impl From<AllocError> for ShowFault {
    ghost use Rattle.std.specs.Prelude.{◌≡◌};
    ghost use Rattle.pd_seat.specs.declared.faults.ShowFault.TheVariants.{OutOfMemory};

    ghost from_gives = { λ _ e. e ≡ OutOfMemory };

    fn from(_error: AllocError) -> ShowFault {
        ShowFault::OutOfMemory
    }
}
