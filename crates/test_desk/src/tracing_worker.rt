//! A worker's gate and stepper, which by its mode shut the desk, wait, note steps, hand the turn on or feign no memory.
ghost use Rattle.std.specs.Prelude.{◌≡◌};

use crate::interleavings::turnstile::{PlayerPosition, Turnstile};
use crate::progress::ThreadProgress;
use pd_desk::Gate;
use pd_run::{Plain, RunState, StepEnd, Stepper};
use pd_script::Event;
use pd_settings::Settings;
use std::alloc::AllocError;
use std::marker::Model;
use std::sync::Wait;
use std::sync::atomic::{AtomicU64, Ordering};

/// How many steps a worker had taken before its last job, and after it.
#[derive(Drop)]
pub struct StepCounts {
    pub before: AtomicU64,
    pub after: AtomicU64,
}

/// The event that a worker meets.
#[derive(Clone, Copy)]
pub enum WorkerMode<'a> {
    /// Nothing.
    Plain,
    /// No step finds memory.
    Short,
    /// It waits after its first step for another worker's.
    Meet(&'a ThreadProgress),
    /// The desk is shut before each job, so that the worker leaves after it, and its steps are noted.
    Shut(&'a StepCounts),
    /// It hands the turn on, as the player of this number, before each job, after each step and after each job.
    Turns(&'a Turnstile, usize),
}

/// Something that shuts a desk.
pub trait ShutsDesk {
    fn shut(&self);
}

/// Stands round the jobs of a worker, and counts its steps.
#[derive(Drop)]
pub struct JobTrace<'a, R, D> {
    rt: &'a R,
    shutter: &'a D,
    mode: WorkerMode<'a>,
    job: AtomicU64,
    steps: AtomicU64,
}

impl<'a, R: Wait, D: ShutsDesk> JobTrace<'a, R, D> {
    pub fn new(rt: &'a R, shutter: &'a D, mode: WorkerMode<'a>) -> JobTrace<'a, R, D> {
        JobTrace {
            rt,
            shutter,
            mode,
            job: AtomicU64::new(0),
            steps: AtomicU64::new(0),
        }
    }

    /// After a step; whether that is to find no memory.
    fn trace_step_and_must_feign_no_memory(&self, count: u64) -> bool {
        self.steps.store(count, Ordering::SeqCst);
        match self.mode {
            WorkerMode::Meet(progress) if count == 1 => progress.meet(),
            WorkerMode::Turns(turnstile, me) => {
                let job = self.job.load(Ordering::SeqCst);
                turnstile.stand(self.rt, me, PlayerPosition::Here, job);
            }
            _ => {}
        }
        matches!(self.mode, WorkerMode::Short)
    }
}

impl<'a, R: Wait, D: ShutsDesk> Gate for JobTrace<'a, R, D> {
    fn before(&self, job: u64) {
        self.job.store(job, Ordering::SeqCst);
        match self.mode {
            WorkerMode::Shut(step_counts) => {
                step_counts
                    .before
                    .store(self.steps.load(Ordering::SeqCst), Ordering::SeqCst);
                self.shutter.shut();
            }
            WorkerMode::Turns(turnstile, me) => {
                turnstile.stand(self.rt, me, PlayerPosition::Here, job);
            }
            _ => {}
        }
    }

    fn after(&self, job: u64) {
        match self.mode {
            WorkerMode::Shut(step_counts) => {
                step_counts
                    .after
                    .store(self.steps.load(Ordering::SeqCst), Ordering::SeqCst);
            }
            WorkerMode::Turns(turnstile, me) => {
                turnstile.stand(self.rt, me, PlayerPosition::Done, job);
            }
            _ => {}
        }
    }
}

/// A stepper that is watched, seen as the number of its steps.
#[derive(Drop)]
pub struct TracingStepper<'a, R, D> {
    plain: Plain,
    job_trace: &'a JobTrace<'a, R, D>,
}

impl<'a, R, D> Model for TracingStepper<'a, R, D> {
    ghost use Rattle.std.specs.Prelude.{ℕ};

    ghost Value = { ℕ };

    ghost view = { λ s. s.plain };
}

impl<'a, R, D> TracingStepper<'a, R, D> {
    /// One that has taken no step.
    pub fn new(job_trace: &'a JobTrace<'a, R, D>) -> TracingStepper<'a, R, D>
        ensures { result ≡ 0 }
    {
        TracingStepper {
            plain: Plain::new(),
            job_trace,
        }
    }
}

impl<'a, R: Wait, D: ShutsDesk> Stepper for TracingStepper<'a, R, D> {
    ghost counted = { λ steps. steps };

    fn step(
        &mut self,
        state: &mut RunState,
        event: &Event,
        settings: &Settings,
    ) -> Result<StepEnd, AllocError> {
        let end = self.plain.step(state, event, settings);
        if self
            .job_trace
            .trace_step_and_must_feign_no_memory(self.plain.count())
        {
            return Err(AllocError);
        }
        end
    }

    fn count(&self) -> u64 {
        self.plain.count()
    }
}
