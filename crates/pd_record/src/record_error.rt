//! Why a script isn't recorded.
use pd_run::Verdict;
use std::alloc::AllocError;

/// Why a script isn't recorded.
#[derive(Clone, Copy, PartialEq, Eq)]
pub enum RecordError {
    /// Its run stops or doesn't begin, with this verdict.
    Stopped(Verdict),
    /// The recording has more than 4,096 lines or 65,536 octets.
    TooLarge,
    /// The recording has more than 4,096 events.
    TooManyEvents,
    /// Two recorded events lie more than 3,600 seconds apart.
    TooLongGap,
    /// The recording isn't read and run as what was recorded: a fault of this program.
    Differs,
    /// A growth was refused.
    OutOfMemory,
}

impl From<AllocError> for RecordError {
    ghost use Rattle.std.specs.Prelude.{◌≡◌};
    ghost use Rattle.pd_record.specs.declared.record_error.RecordError.TheVariants.{OutOfMemory};

    ghost from_gives = { λ _ refusal. refusal ≡ OutOfMemory };

    fn from(_error: AllocError) -> RecordError {
        RecordError::OutOfMemory
    }
}
