//! Why a desk doesn't settle, and why a worker leaves: faults, each printed as its number and name.
ghost use Rattle.std.specs.Prelude.{◌≡◌};
ghost use Rattle.pd_desk.specs.Faults.{desk_fault_text};

use pd_book::BookFault;
use pd_seat::ShowFault;
use std::alloc::AllocError;
use std::fmt;
use thiserror::Error;

/// Why a desk doesn't settle, or why a worker leaves before the desk is shut.
#[derive(Clone, Copy, Debug, PartialEq, Eq, Error)]
pub enum DeskFault {
    /// The recorded acts and the outstanding jobs leave no room for a start, of 65,536.
    HistoryFull,
    /// All workers left while a script is owed; of a worker, that the desk has let in as many as it was opened for.
    NoWorkers,
    /// As `ShowFault::Differs`.
    Differs,
    /// A growth was refused.
    OutOfMemory,
}

impl DeskFault {
    /// Its number and its name, as they are printed.
    pub fn number_and_name(self) -> &'static str
        ensures { result.now ≡ desk_fault_text self }
    {
        match self {
            DeskFault::HistoryFull => BookFault::HistoryFull.number_and_name(),
            DeskFault::NoWorkers => "12 NoWorkers",
            DeskFault::Differs => ShowFault::Differs.number_and_name(),
            DeskFault::OutOfMemory => ShowFault::OutOfMemory.number_and_name(),
        }
    }
}

impl fmt::Display for DeskFault {
    ghost use Rattle.std.specs.Prelude.{Some};
    ghost use Rattle.pd_desk.specs.Faults.{desk_fault_text};

    ghost output = { λ fault. Some (desk_fault_text fault) };

    fn fmt<W: fmt::Write>(&self, f: &mut fmt::Formatter<W>) -> fmt::Result {
        f.write_str(self.number_and_name())
    }
}

impl From<ShowFault> for DeskFault {
    ghost use Rattle.std.specs.Prelude.{◌≡◌};
    ghost use Rattle.pd_desk.specs.Faults.{of_show};

    ghost from_gives = { λ fault e. e ≡ of_show fault };

    fn from(fault: ShowFault) -> DeskFault {
        match fault {
            ShowFault::Differs => DeskFault::Differs,
            ShowFault::OutOfMemory => DeskFault::OutOfMemory,
        }
    }
}

impl From<AllocError> for DeskFault {
    ghost use Rattle.std.specs.Prelude.{◌≡◌};
    ghost use Rattle.pd_desk.specs.declared.faults.DeskFault.TheVariants.{OutOfMemory};

    ghost from_gives = { λ _ e. e ≡ OutOfMemory };

    fn from(_error: AllocError) -> DeskFault {
        DeskFault::OutOfMemory
    }
}
