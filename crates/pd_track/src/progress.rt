//! Runs under way, which keep each fourth state.
ghost use Rattle.std.specs.Prelude.{◌≡◌, ◌+◌, ◌-◌, ◌<◌, ◌≤◌, ◌^◌, ◌%◌, ◌==◌, ◌++◌, ◌∷◌, [], ℕ, length, map, IfOk, OnOk, if◌then◌else◌};
ghost use Rattle.pd_reparse.specs.Steps.{events_after};
ghost use Rattle.pd_run.specs.Laws.{IsUnderway};
ghost use Rattle.pd_run.specs.Run.{verdict_from, stepped_from, states_from};
ghost use Rattle.pd_track.specs.Reuse.{every_fourth};

use crate::checkpoint::Checkpoint;
use pd_reparse::{ParsedEvent, SharedList};
use pd_run::{RunState, StepEnd, Stepper, Verdict, law_clock_base_and_queue_bounded_per_event};
use pd_settings::Settings;
use std::alloc::{AllocError, Global};

/// How far a run has come: its state after so many events, and those after each fourth of them.
#[derive(Drop)]
pub struct Progress {
    /// The state after the events that passed.
    pub state: RunState,
    /// How many events have passed, at most 4,096.
    pub passed: usize,
    /// The states after each fourth of them, in order.
    pub checkpoints: SharedList<Checkpoint>,
}

/// The verdict of a run, and its states on the way.
#[derive(Drop)]
pub struct FinishedRun {
    /// The verdict.
    pub verdict: Verdict,
    /// The states after each fourth event that passed, in order.
    pub checkpoints: SharedList<Checkpoint>,
}

impl Progress {
    /// Before the first event.
    pub fn new(alloc: Global, state: RunState) -> Progress
        ensures state { result.state ≡ state }
        ensures passed { result.passed ≡ 0 }
        ensures checkpoints { result.checkpoints ≡ [] }
    {
        Progress {
            state,
            passed: 0,
            checkpoints: SharedList::new(alloc),
        }
    }

    /// Runs those of the events that are left, up to the first that stops the run.
    ///
    /// # Errors
    /// `AllocError` where the stepper answers it, or memory for a kept state is refused.
    pub fn run<S: Stepper>(
        mut self,
        events: &SharedList<ParsedEvent>,
        settings: &Settings,
        stepper: &mut S,
    ) -> Result<FinishedRun, AllocError>
        requires fourth { self.passed % 4 ≡ 0 }
        requires within { self.passed ≤ length events.now }
        requires few { length events.now ≤ 4096 }
        requires underway { IsUnderway self.passed self.state }
        requires room { S.counted stepper.old + length events.now < 2 ^ 64 }
        ensures verdict { IfOk result (λ finished_run. finished_run.verdict ≡ verdict_from self.passed (events_after self.passed events.now) self.state) }
        ensures checkpoints { IfOk result (λ finished_run. finished_run.checkpoints ≡ self.checkpoints ++ every_fourth 3 (states_from (events_after self.passed events.now) self.state)) }
        ensures steps { OnOk result (S.counted stepper.new ≡ S.counted stepper.old + stepped_from (events_after self.passed events.now) self.state) }
        ensures few { OnOk result (S.counted stepper.new ≤ S.counted stepper.old + length events.now) }
    {
        law_clock_base_and_queue_bounded_per_event();
        self.checkpoints.reserve((events.len() - self.passed) / 4)?;
        for i in self.passed..events.len() {
            match stepper.step(&mut self.state, &events.at(i).event, settings)? {
                StepEnd::Go if i + 1 < events.len() =>
                    self.count_event_and_keep_each_fourth_state()?,
                StepEnd::Go => return self.finish_as_passed_keeping_fourth_state(),
                StepEnd::Stop(verdict) => return Ok(self.into_finished_run(verdict)),
            }
        }
        let passed = self.passed;
        Ok(self.into_finished_run(Verdict::Pass(passed)))
    }

    /// The run has ended.
    fn into_finished_run(self, verdict: Verdict) -> FinishedRun
        ensures verdict { result.verdict ≡ verdict }
        ensures checkpoints { result.checkpoints ≡ self.checkpoints }
    {
        FinishedRun {
            verdict,
            checkpoints: self.checkpoints,
        }
    }

    /// The last event has passed, and the run has ended: its state is kept if it is a fourth one.
    fn finish_as_passed_keeping_fourth_state(self) -> Result<FinishedRun, AllocError>
        requires { self.passed < 4096 }
        ensures verdict { IfOk result (λ finished_run. finished_run.verdict ≡ Verdict.Pass (self.passed + 1)) }
        ensures checkpoints { IfOk result (λ finished_run. finished_run.checkpoints ≡ self.checkpoints ++ (if (self.passed + 1) % 4 == 0 then self.state ∷ [] else [])) }
    {
        let Progress {
            state,
            passed,
            mut checkpoints,
        } = self;
        if (passed + 1) % 4 == 0 {
            checkpoints.push(Checkpoint::from_owned_run_state(state))?;
        }
        Ok(FinishedRun {
            verdict: Verdict::Pass(passed + 1),
            checkpoints,
        })
    }

    /// One more event has passed: each fourth state is kept.
    fn count_event_and_keep_each_fourth_state(&mut self) -> Result<(), AllocError>
        requires { self.old.passed < 4096 }
        ensures state { self.new.state ≡ self.old.state }
        ensures passed { OnOk result (self.new.passed ≡ self.old.passed + 1) }
        ensures checkpoints { OnOk result (self.new.checkpoints ≡ self.old.checkpoints ++ (if (self.old.passed + 1) % 4 == 0 then self.new.state ∷ [] else [])) }
    {
        self.passed += 1;
        if self.passed % 4 == 0 {
            Checkpoint::push_copy_of_run_state(&mut self.checkpoints, &self.state)?;
        }
        Ok(())
    }
}
