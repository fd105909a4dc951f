//! A book under one lock, its seats, and the workers that run its jobs.
//!
//! Each call of a seat takes the lock and makes its call on what callers share once; all but `show`
//! and `start` wake those that wait, `finish` only where nothing is awaited any more. Jobs are run,
//! and tracks freed, outside the lock. `settle` waits for verdicts, `work` is a worker, `pool` runs
//! one in a thread for each of its seats, and `close` gives the book back. Under the lock is a
//! `Locked`: a `Held`, and how many workers came and left (`WorkerCounts`).
//!
//! ```text
//!     a worker at its seat:
//!
//!     work --> let in? --no--> NoWorkers: as many came as the desk was opened for
//!                | yes
//!                v
//!              wait: a script waits, or the desk is shut <-----------------------.
//!                | start, under the lock      '--- shut, no room, no memory --> leave
//!                v                                                        ^      |
//!              run_job, without the lock ---- no memory ----> abandon ----'      |
//!                '--> finish, under the lock ------------------------------------'
//! ```
//!
//! A reply, a job or a report is that of some legal history (`AfterSome`, `IsHandedOut`,
//! specs/Desk.antt). A worker leaves acts in its seat: `Works` (specs/Work.antt).
//!
//! Why it is so:
//! - This crate alone, and the serving with workers above it, has threads and waits; crates.txt
//!   says where waiting is allowed. All below is proved without a thread.
//! - A run takes longest and needs nothing of the book, so it is done outside the lock, and one
//!   lock is enough for all callers.
//! - No contract says what other callers do meanwhile, or in which order threads run. So no promise
//!   depends on a schedule; what depends on one is only tested (docs/PROMISES.md).
//! - One condition variable wakes all that wait, and each looks for itself under the lock. So who
//!   waits for what needn't be kept anywhere.
//! - `Gate` is called round each job. The program's is `OpenGate`, which does nothing; a test's may
//!   hold a worker at its job.
#![tactic(auto)]

mod desk;
mod faults;
mod gate;
mod laws;
mod locked;
mod pool;
mod worker;
mod worker_counts;

pub use desk::Desk;
pub use faults::DeskFault;
pub use gate::{Gate, OpenGate};
pub use laws::law_refused_end_was_by_another_seat;
