//! Observers of each job as it is finished.
ghost use Rattle.std.specs.Prelude.{◌≡◌};

use pd_book::Done;
use std::alloc::AllocError;

/// Is given each job as it is finished.
pub(crate) trait JobObserver {
    ghost use Rattle.std.specs.Prelude.{◌≡◌, OnOk, OnErr};
    ghost use Rattle.pd_cli.specs.StepLines.{FinishedJob};

    ghost observes: { Self → Self → FinishedJob → Type 0 };

    /// A job was finished with this result, after so many steps.
    ///
    /// # Errors
    /// `AllocError` where a growth for what is reported is refused.
    fn on_job_finished(&mut self, done: &Done, steps: u64) -> Result<(), AllocError>
        ensures observed { OnOk result (observes self.old self.new (record { task = done.now; steps = steps })) }
        ensures same { OnErr result (self.new ≡ self.old) };
}

/// Nobody.
#[derive(Drop)]
pub(crate) struct NoObserver;

impl JobObserver for NoObserver {
    ghost observes = { λ _ _ _. Unit {0} };

    fn on_job_finished(&mut self, _done: &Done, _steps: u64) -> Result<(), AllocError> {
        Ok(())
    }
}
