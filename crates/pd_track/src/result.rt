//! Results of jobs.
ghost use Rattle.std.specs.Prelude.{◌≡◌};
ghost use Rattle.pd_run.specs.Grammatical.{IsVerdictOf};
ghost use Rattle.pd_run.specs.Run.{verdict_of};

use crate::task::Task;
use crate::track::Track;
use pd_run::{Verdict, law_verdicts_are_of_grammar_scripts};
use pd_settings::Settings;
use pd_text::{Name, Text};
use std::marker::Model;

/// The result of a job. `run_job` alone makes one: its verdict is the run of its text under its settings.
#[derive(Drop)]
pub struct Done {
    /// The text that was run, and its settings.
    task: Task,
    /// The verdict of its text under its settings.
    verdict: Verdict,
    /// The track that the run left.
    track: Track,
}

impl Model for Done {
    ghost use Rattle.std.specs.Prelude.{◌≡◌};
    ghost use Rattle.pd_run.specs.Run.{verdict_of};
    ghost use Rattle.pd_track.specs.declared.task.Task.{Task};
    ghost use Rattle.pd_track.specs.Reuse.{IsDone};

    ghost Value = { Task };

    ghost view = { λ d. d.task };

    ghost invariant = { λ d. IsDone d.task d.verdict d.track };
}

impl Done {
    ghost use Rattle.pd_track.specs.Reuse.{IsDone};

    pub(crate) fn new(task: Task, verdict: Verdict, track: Track) -> Done
        requires { IsDone task verdict track }
        ensures { result ≡ task }
    {
        Done {
            task,
            verdict,
            track,
        }
    }

    /// The number of the job, in a book from 1 on.
    pub fn number(&self) -> u64
        ensures { result ≡ self.now.number }
    {
        self.task.number
    }

    /// The name of the job's script.
    pub fn name(&self) -> &Name
        ensures { result.now ≡ self.now.name }
    {
        &self.task.name
    }

    /// The text that was run.
    pub fn text(&self) -> &Text
        ensures { result.now ≡ self.now.text }
    {
        &self.task.text
    }

    /// The settings that it was run under.
    pub fn settings(&self) -> Settings
        ensures { result ≡ self.now.settings }
    {
        self.task.settings
    }

    /// The verdict of that text under these settings.
    pub fn verdict(&self) -> Verdict
        ensures verdict { result ≡ verdict_of self.now.text self.now.settings }
        ensures grammar { IsVerdictOf self.now.text self.now.settings result }
    {
        law_verdicts_are_of_grammar_scripts();
        self.verdict
    }

    /// The track that the run left: one of that text and these settings.
    pub fn track(&self) -> &Track
        ensures text { result.now.text ≡ self.now.text }
        ensures settings { result.now.settings ≡ self.now.settings }
    {
        &self.track
    }

    /// The text that was run, and its settings.
    pub fn task(&self) -> &Task
        ensures { result.now ≡ self.now }
    {
        &self.task
    }
}

/// A job that ended without a verdict, out of memory.
#[derive(Clone, Copy, PartialEq, Eq)]
pub struct Unfinished {
    /// The job's number.
    pub number: u64,
}
