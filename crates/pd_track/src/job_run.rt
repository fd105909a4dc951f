//! Running a job.
ghost use Rattle.std.specs.Prelude.{◌≡◌, ◌+◌, ◌-◌, ◌<◌, ◌≤◌, ◌^◌, ℕ, length, map, drop, IfOk, IfErr, OnOk};
ghost use Rattle.pd_reparse.specs.Reading.{reading_of, events_of};
ghost use Rattle.pd_track.specs.Reuse.{skipped_events, steps};
ghost use Rattle.pd_track.specs.Resuming.{kept_before, Resumes, IsJobOutcome, script_events};

use crate::checkpoint::Checkpoint;
use crate::job::Job;
use crate::progress::Progress;
use crate::result::{Done, Unfinished};
use crate::start_point::{begin_run_at_start_or_checkpoint, read_job_text_reusing_track};
use crate::task::Task;
use crate::track::Track;
use pd_reparse::{Reading, Reread, SharedList, law_readings_are_scripts};
use pd_run::{RunState, Stepper, Verdict, law_runs_use_only_consulted_settings};
use std::alloc::{AllocError, Global};

/// The verdict of a run, the reading of its text, and the states on its way.
#[derive(Drop)]
struct JobOutcome {
    /// The verdict of the text under the settings.
    verdict: Verdict,
    /// The reading of the text.
    reading: Reading,
    /// The states after each fourth event that passed, in order.
    checkpoints: SharedList<Checkpoint>,
}

/// Runs a job with this stepper, which has room for 4,096 steps. The run begins in the last state of the job's track that
/// serves, else before its first event, and takes one step for each event from there up to the stop, the stop's included.
///
/// # Errors
/// `Unfinished` if out of memory.
pub fn run_job<S: Stepper>(alloc: Global, job: Job, stepper: &mut S) -> Result<Done, Unfinished>
    requires room { S.counted stepper.old + 4096 < 2 ^ 64 }
    ensures done { IfOk result (λ done. done ≡ job.task) }
    ensures steps { OnOk result (S.counted stepper.new ≡ S.counted stepper.old + steps job) }
    ensures few { OnOk result (S.counted stepper.new ≤ S.counted stepper.old + 4096) }
    ensures unfinished { IfErr result (λ unfinished. unfinished.number ≡ job.task.number) }
{
    let number = job.number();
    match run(alloc, &job, stepper) {
        Ok(outcome) => match done_of_outcome(alloc, job.into_task(), outcome) {
            Ok(done) => Ok(done),
            Err(_) => Err(Unfinished { number }),
        },
        Err(_) => Err(Unfinished { number }),
    }
}

/// The result of a task that was run.
fn done_of_outcome(alloc: Global, task: Task, outcome: JobOutcome) -> Result<Done, AllocError>
    requires { IsJobOutcome task outcome.verdict outcome.reading outcome.checkpoints }
    ensures { IfOk result (λ done. done ≡ task) }
{
    let JobOutcome {
        verdict,
        reading,
        checkpoints,
    } = outcome;
    let track = Track::new(
        alloc,
        task.text.share()?,
        task.settings,
        reading,
        checkpoints,
    )?;
    Ok(Done::new(task, verdict, track))
}

fn run<S: Stepper>(alloc: Global, job: &Job, stepper: &mut S) -> Result<JobOutcome, AllocError>
    requires room { S.counted stepper.old + 4096 < 2 ^ 64 }
    ensures outcome { IfOk result (λ o. IsJobOutcome job.now.task o.verdict o.reading o.checkpoints) }
    ensures steps { OnOk result (S.counted stepper.new ≡ S.counted stepper.old + steps job.now) }
    ensures few { OnOk result (S.counted stepper.new ≤ S.counted stepper.old + 4096) }
{
    law_readings_are_scripts();
    let Reread { reading, kept } = read_job_text_reusing_track(alloc, job)?;
    if let Some(line) = reading.fault() {
        return Ok(JobOutcome {
            verdict: Verdict::Syntax(line),
            reading,
            checkpoints: SharedList::new(alloc),
        });
    }
    match RunState::header_tolerance_or_unsupported(reading.header()) {
        // A question mark would move the state once more.
        Ok(header_tolerance) => match begin_run_at_start_or_checkpoint(
            alloc,
            job,
            kept,
            header_tolerance,
        ) {
            Ok(progress) => run_remaining_events(alloc, job, reading, progress, stepper),
            Err(error) => Err(error),
        },
        Err(verdict) => Ok(JobOutcome {
            verdict,
            reading,
            checkpoints: SharedList::new(alloc),
        }),
    }
}

/// Runs the events of a job that are left.
fn run_remaining_events<S: Stepper>(
    alloc: Global,
    job: &Job,
    reading: Reading,
    progress: Progress,
    stepper: &mut S,
) -> Result<JobOutcome, AllocError>
    requires room { S.counted stepper.old + 4096 < 2 ^ 64 }
    requires reading { reading ≡ reading_of job.now.task.text }
    requires passed { progress.passed ≡ skipped_events job.now }
    requires resumes { Resumes job.now.task.text job.now.task.settings progress.passed progress.state progress.checkpoints }
    ensures outcome { IfOk result (λ o. IsJobOutcome job.now.task o.verdict o.reading o.checkpoints) }
    ensures steps { OnOk result (S.counted stepper.new ≡ S.counted stepper.old + steps job.now) }
    ensures few { OnOk result (S.counted stepper.new ≤ S.counted stepper.old + 4096) }
{
    law_readings_are_scripts();
    law_runs_use_only_consulted_settings();
    let finished_run = progress.run(reading.events(), &job.settings(), stepper)?;
    Ok(JobOutcome {
        verdict: finished_run.verdict,
        reading,
        checkpoints: finished_run.checkpoints,
    })
}
