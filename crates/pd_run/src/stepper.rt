//! Steps of a run, and who takes them.
ghost use Rattle.std.specs.Prelude.{◌≡◌, ◌+◌, ◌-◌, ◌<◌, ◌^◌, ℕ, Some, IfOk, OnErr};
ghost use Rattle.pd_host.specs.Host.{IsShort};
ghost use Rattle.pd_host.specs.declared.halts.HostEnd.TheVariants.{OutOfMemory};
ghost use Rattle.pd_run.specs.Step.{Steps};

use crate::run_state::RunState;
use crate::verdict::Verdict;
use pd_script::Event;
use pd_settings::Settings;
use std::alloc::AllocError;
use std::marker::Model;

/// How a step ended.
#[derive(Clone, Copy, PartialEq, Eq)]
pub enum StepEnd {
    /// The run goes on.
    Go,
    Stop(Verdict),
}

/// Takes the steps of runs and counts them: a step is one event, and the count rises by one a call.
pub trait Stepper {
    ghost counted: { Self → ℕ };

    /// Takes one event from the state before it to the one after it. After a stop nothing is claimed of the state; one for
    /// which no memory was found takes no further step.
    ///
    /// # Errors
    /// `AllocError` if out of memory, now or in an earlier step.
    fn step(
        &mut self,
        state: &mut RunState,
        event: &Event,
        settings: &Settings,
    ) -> Result<StepEnd, AllocError>
        requires room { counted self.old < 2 ^ 64 - 1 }
        requires clock { state.old.clock < 2 ^ 61 }
        requires base { state.old.base < 2 ^ 61 }
        requires short { IsShort state.old.host.state }
        ensures ends { IfOk result (λ end. Steps state.old event.now end state.new) }
        ensures one_more { counted self.new ≡ counted self.old + 1 };

    /// The steps taken so far.
    fn count(&self) -> u64
        ensures { result ≡ counted self.now };
}

/// The stepper of the product, seen as the number of steps that it took.
#[derive(Drop)]
pub struct Plain {
    /// How many steps it took.
    steps: u64,
}

impl Model for Plain {
    ghost use Rattle.std.specs.Prelude.{ℕ};

    ghost Value = { ℕ };

    ghost view = { λ p. p.steps };
}

impl Plain {
    /// A stepper that has taken no step.
    pub fn new() -> Plain
        ensures { result ≡ 0 }
    {
        Plain { steps: 0 }
    }
}

impl Stepper for Plain {
    ghost counted = { λ steps. steps };

    #[inline(always)]
    fn step(
        &mut self,
        state: &mut RunState,
        event: &Event,
        _settings: &Settings,
    ) -> Result<StepEnd, AllocError>
        requires room { self.old < 2 ^ 64 - 1 }
        requires clock { state.old.clock < 2 ^ 61 }
        requires base { state.old.base < 2 ^ 61 }
        requires short { IsShort state.old.host.state }
        ensures ends { IfOk result (λ end. Steps state.old event.now end state.new) }
        ensures memory { OnErr result (state.new.host.end_reason ≡ Some OutOfMemory) }
        ensures one_more { self.new ≡ self.old + 1 }
    {
        self.steps += 1;
        state.step(event)
    }

    fn count(&self) -> u64 {
        self.steps
    }
}
