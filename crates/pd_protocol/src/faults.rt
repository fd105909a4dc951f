//! Why serving stops: faults, each printed as its number and name.
ghost use Rattle.std.specs.Prelude.{◌≡◌};
ghost use Rattle.pd_protocol.specs.ServeFaults.{serve_fault_text};

use std::alloc::AllocError;
use std::fmt;
use thiserror::Error;

/// Why serving stops before the end of its input.
#[derive(Clone, Copy, Debug, PartialEq, Eq, Error)]
pub enum ServeFault {
    /// A job is owed and the history has no room for its start and its end.
    HistoryFull,
    /// A script is owed its verdict, and all workers have left.
    NoWorkers,
    /// A reply or a report isn't of the scripts and settings that were made by the commands accepted so far.
    Differs,
    /// A line asks for no command, or is longer than 256 octets.
    BadCommand,
    /// The input ends inside the lines of a command.
    Truncated,
    /// A read failed, or all 1,048,576 reads were made.
    Read,
    /// A write failed, or took no octet.
    Write,
    /// A growth was refused.
    OutOfMemory,
}

impl ServeFault {
    /// Its number and its name, as they are printed.
    pub fn number_and_name(self) -> &'static str
        ensures { result.now ≡ serve_fault_text self }
    {
        match self {
            ServeFault::HistoryFull => "11 HistoryFull",
            ServeFault::NoWorkers => "12 NoWorkers",
            ServeFault::Differs => "14 Differs",
            ServeFault::BadCommand => "15 BadCommand",
            ServeFault::Truncated => "16 Truncated",
            ServeFault::Read => "17 Read",
            ServeFault::Write => "18 Write",
            ServeFault::OutOfMemory => "19 OutOfMemory",
        }
    }
}

impl fmt::Display for ServeFault {
    ghost use Rattle.std.specs.Prelude.{Some};
    ghost use Rattle.pd_protocol.specs.ServeFaults.{serve_fault_text};

    ghost output = { λ fault. Some (serve_fault_text fault) };

    fn fmt<W: fmt::Write>(&self, f: &mut fmt::Formatter<W>) -> fmt::Result {
        f.write_str(self.number_and_name())
    }
}

impl From<AllocError> for ServeFault {
    ghost use Rattle.std.specs.Prelude.{◌≡◌};
    ghost use Rattle.pd_protocol.specs.declared.faults.ServeFault.TheVariants.{OutOfMemory};

    ghost from_gives = { λ _ e. e ≡ OutOfMemory };

    fn from(_error: AllocError) -> ServeFault {
        ServeFault::OutOfMemory
    }
}
