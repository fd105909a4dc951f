//! Jobs and their runs, which begin at checkpoints that earlier runs kept.
//!
//! A `Track` is what a run leaves: its text, what was read of it, and the states after each fourth
//! event (`Checkpoint`). A `Job` is a `Task` (a number, a name, a text and the settings) and
//! perhaps a `Track`. `run_job` reads the text again only where it may differ, and runs it from the
//! last kept state that the equal first lines allow and up to which the run consulted no setting
//! that differs. Its `Done` has the verdict of the whole run, whatever the track.
//!
//! ```text
//!     Task, and the Track of an earlier run
//!       | a book's start, or Job::new
//!       v
//!      Job --run_job--> Done: the verdict, a new Track ----> finish of the book: taken or stale
//!                 '---> Unfinished: no memory -------------> abandon of the book
//! ```
//!
//! A track has the reading and every fourth state of the run of its text under its settings:
//! `IsTrack` (specs/Reuse.antt). A `Done` has the verdict of its task: `IsDone`. The run begins at
//! the last place where it may: the law `law_runs_begin_at_last_usable_state`.
//!
//! Why it is so:
//! - A script is run again after each edit. From its first event, that takes a time that grows with
//!   the script; from a checkpoint, only what comes after the edit is run.
//! - Each fourth state is kept, and not each, since to keep one is to copy a host. So at most three
//!   events are run that needn't be.
//! - Tracks under different settings may share a checkpoint. It holds the settings of the run that
//!   kept it, and `run_job` puts its copy under the job's.
//! - A `Track` is a `TrackData` that several own, since the facts of an owned value are those of its
//!   type.
//! - The run of a text (`pd_run`) and the run of a job are two loops of one step, over the same
//!   definitions.
//! - `run_job` alone makes a `Done`, so whoever is given one needn't ask how its verdict was found.
//!   A job has all that its run needs, and nothing of a book, so it can be run anywhere.
#![tactic(auto)]

mod checkpoint;
mod job;
mod job_run;
mod laws;
mod progress;
mod result;
mod start_point;
mod task;
mod track;
mod track_data;

pub use checkpoint::Checkpoint;
pub use job::Job;
pub use job_run::run_job;
pub use laws::law_runs_begin_at_last_usable_state;
pub use result::{Done, Unfinished};
pub use task::Task;
pub use track::Track;
