//! Why a text or an edit of one is refused.
ghost use Rattle.std.specs.Prelude.{◌≡◌};
ghost use Rattle.pd_text.specs.Faults.{fault_text};

use std::alloc::AllocError;
use std::fmt;
use thiserror::Error;

/// Why a list of lines is no text, or an edit doesn't apply to one.
#[derive(Clone, Copy, Debug, PartialEq, Eq, Error)]
pub enum TextFault {
    /// The edit begins or ends outside the text.
    BadRange,
    /// The text has more than 4,096 lines or 65,536 octets.
    TooLarge,
    OutOfMemory,
}

impl TextFault {
    /// Its number and its name, as they are printed.
    pub fn number_and_name(self) -> &'static str
        ensures { result.now ≡ fault_text self }
    {
        match self {
            TextFault::BadRange => "1 BadRange",
            TextFault::TooLarge => "2 TooLarge",
            TextFault::OutOfMemory => "19 OutOfMemory",
        }
    }
}

impl fmt::Display for TextFault {
    ghost use Rattle.std.specs.Prelude.{Some};
    ghost use Rattle.pd_text.specs.Faults.{fault_text};

    ghost output = { λ fault. Some (fault_text fault) };

    fn fmt<W: fmt::Write>(&self, f: &mut fmt::Formatter<W>) -> fmt::Result {
        f.write_str(self.number_and_name())
    }
}

impl From<AllocError> for TextFault {
    ghost use Rattle.std.specs.Prelude.{◌≡◌};
    ghost use Rattle.pd_text.specs.declared.faults.TextFault.TheVariants.{OutOfMemory};

    ghost from_gives = { λ _ e. e ≡ OutOfMemory };

    fn from(_error: AllocError) -> TextFault {
        TextFault::OutOfMemory
    }
}
