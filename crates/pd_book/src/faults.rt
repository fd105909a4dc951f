//! Why a book refuses a call: faults, each printed as its number and name.
ghost use Rattle.std.specs.Prelude.{◌≡◌};
ghost use Rattle.pd_book.specs.Faults.{fault_text, finish_fault_text};

use pd_settings::SettingsFault;
use pd_text::TextFault;
use std::alloc::AllocError;
use std::fmt;
use thiserror::Error;

/// Why a change of a book or a start is refused.
#[derive(Clone, Copy, Debug, PartialEq, Eq, Error)]
pub enum BookFault {
    /// An edit begins or ends outside the text.
    BadRange,
    /// An edit would leave more than 4,096 lines or 65,536 octets.
    TooLarge,
    UnknownKey,
    /// A value of another kind than the setting's, or outside its range.
    BadValue,
    /// A name must have 1 to 64 letters, digits, `_`, `-` and `.`.
    BadName,
    NameTaken,
    NoSuchScript,
    /// There are 1,024 scripts.
    TooManyScripts,
    /// The recorded acts and the outstanding jobs leave no room, of 65,536.
    HistoryFull,
    /// A growth was refused.
    OutOfMemory,
}

/// Why a result or an abandonment is refused. A book takes no memory for either; who notes more than a book does may
/// want it.
#[derive(Clone, Copy, Debug, PartialEq, Eq, Error)]
pub enum FinishFault {
    /// No outstanding job has this number.
    NoSuchJob,
    /// The outstanding job of this number has another name, text or settings.
    Foreign,
    /// A growth was refused.
    OutOfMemory,
}

impl BookFault {
    /// Its number and its name, as they are printed.
    pub fn number_and_name(self) -> &'static str
        ensures { result.now ≡ fault_text self }
    {
        match self {
            BookFault::BadRange => TextFault::BadRange.number_and_name(),
            BookFault::TooLarge => TextFault::TooLarge.number_and_name(),
            BookFault::UnknownKey => SettingsFault::UnknownKey.number_and_name(),
            BookFault::BadValue => SettingsFault::BadValue.number_and_name(),
            BookFault::BadName => "5 BadName",
            BookFault::NameTaken => "6 NameTaken",
            BookFault::NoSuchScript => "7 NoSuchScript",
            BookFault::TooManyScripts => "8 TooManyScripts",
            BookFault::HistoryFull => "11 HistoryFull",
            BookFault::OutOfMemory => TextFault::OutOfMemory.number_and_name(),
        }
    }
}

impl fmt::Display for BookFault {
    ghost use Rattle.std.specs.Prelude.{Some};
    ghost use Rattle.pd_book.specs.Faults.{fault_text};

    ghost output = { λ fault. Some (fault_text fault) };

    fn fmt<W: fmt::Write>(&self, f: &mut fmt::Formatter<W>) -> fmt::Result {
        f.write_str(self.number_and_name())
    }
}

impl FinishFault {
    /// Its number and its name, as they are printed.
    pub fn number_and_name(self) -> &'static str
        ensures { result.now ≡ finish_fault_text self }
    {
        match self {
            FinishFault::NoSuchJob => "9 NoSuchJob",
            FinishFault::Foreign => "10 Foreign",
            FinishFault::OutOfMemory => TextFault::OutOfMemory.number_and_name(),
        }
    }
}

impl fmt::Display for FinishFault {
    ghost use Rattle.std.specs.Prelude.{Some};
    ghost use Rattle.pd_book.specs.Faults.{finish_fault_text};

    ghost output = { λ fault. Some (finish_fault_text fault) };

    fn fmt<W: fmt::Write>(&self, f: &mut fmt::Formatter<W>) -> fmt::Result {
        f.write_str(self.number_and_name())
    }
}

impl From<AllocError> for BookFault {
    ghost use Rattle.std.specs.Prelude.{◌≡◌};
    ghost use Rattle.pd_book.specs.declared.faults.BookFault.TheVariants.{OutOfMemory};

    ghost from_gives = { λ _ e. e ≡ OutOfMemory };

    fn from(_error: AllocError) -> BookFault {
        BookFault::OutOfMemory
    }
}

impl From<TextFault> for BookFault {
    ghost use Rattle.std.specs.Prelude.{◌≡◌};
    ghost use Rattle.pd_book.specs.Faults.{of_text};

    ghost from_gives = { λ fault e. e ≡ of_text fault };

    fn from(fault: TextFault) -> BookFault {
        match fault {
            TextFault::BadRange => BookFault::BadRange,
            TextFault::TooLarge => BookFault::TooLarge,
            TextFault::OutOfMemory => BookFault::OutOfMemory,
        }
    }
}

impl From<AllocError> for FinishFault {
    ghost use Rattle.std.specs.Prelude.{◌≡◌};
    ghost use Rattle.pd_book.specs.declared.faults.FinishFault.TheVariants.{OutOfMemory};

    ghost from_gives = { λ _ e. e ≡ OutOfMemory };

    fn from(_error: AllocError) -> FinishFault {
        FinishFault::OutOfMemory
    }
}
