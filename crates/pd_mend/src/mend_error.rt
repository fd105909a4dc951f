//! Why a script isn't mended.
use pd_run::Verdict;
use pd_text::Lines;
use std::alloc::AllocError;

/// Why a script isn't mended.
#[derive(Drop)]
pub enum MendError {
    /// Its run, or that of the text as mends left it, stops where none helps.
    Stopped(Unmendable),
    /// The text would have more than 4,096 lines or 65,536 octets.
    TooLarge,
    /// A growth was refused.
    OutOfMemory,
}

/// A text whose run stops where no mend helps.
#[derive(Drop)]
pub struct Unmendable {
    /// The text as mends left it.
    pub lines: Lines,
    /// The verdict of its run.
    pub verdict: Verdict,
    /// The line of the text as it was given that the verdict is about.
    pub line: usize,
}

impl From<AllocError> for MendError {
    ghost use Rattle.std.specs.Prelude.{◌≡◌};
    ghost use Rattle.pd_mend.specs.declared.mend_error.MendError.TheVariants.{OutOfMemory};

    ghost from_gives = { λ _ refusal. refusal ≡ OutOfMemory };

    fn from(_error: AllocError) -> MendError {
        MendError::OutOfMemory
    }
}
