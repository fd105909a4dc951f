//! Jobs that a book gave, and their results.
use pd_book::{Done, Job, run_job};
use pd_run::{Plain, Stepper};
use std::alloc::{AllocError, Global};

/// A job that a book gave, the seat that it gave it to, if it has seats, and the result once the job was run.
#[derive(Drop)]
pub struct StartedJob {
    pub job: Job,
    pub seat: Option<usize>,
    ran: Option<RunResult>,
}

/// The result of a job, and how many steps it took.
#[derive(Drop)]
pub struct RunResult {
    pub done: Done,
    pub steps: u64,
}

impl StartedJob {
    pub fn new(job: Job, seat: Option<usize>) -> StartedJob {
        StartedJob {
            job,
            seat,
            ran: None,
        }
    }

    /// The result of the job, which is run if it wasn't yet; none where there was no memory, and it may be run again.
    pub fn result_run_if_needed(&mut self, alloc: Global) -> Option<&RunResult> {
        if self.ran.is_none()
            && let Ok(job) = copy_of(&self.job)
        {
            self.ran = run_for_result(alloc, job);
        }
        self.ran.as_ref()
    }
}

/// The same job once more.
fn copy_of(job: &Job) -> Result<Job, AllocError> {
    let track = match job.track() {
        Some(track) => Some(track.share()?),
        None => None,
    };
    Ok(Job::of(job.task().share()?, track))
}

/// Runs a job; none where there was no memory.
pub fn run_for_result(alloc: Global, job: Job) -> Option<RunResult> {
    let mut stepper = Plain::new();
    match run_job(alloc, job, &mut stepper) {
        Ok(done) => Some(RunResult {
            done,
            steps: stepper.count(),
        }),
        Err(_) => None,
    }
}
