//! The book of scripts, jobs and results.
//!
//! A `Book` holds scripts and settings, which its callers change. `start` hands out a `Job`,
//! `run_job` makes a `Done` of it, whenever and wherever, and `finish` takes it or rules it stale.
//! `show` gives a `Report` with a `Row` for each script. A report is defined on the list
//! of the book's accepted calls alone (`Book::history`, a list of `Act`s), and `law_verdicts_are_of_current_runs` says it in terms
//! of positions in that list.
//!
//! ```text
//!     a script since its last change:
//!
//!     add --> Pending --start--> Running --finish: taken--> Answered: its row has the verdict
//!               ^  ^               |  |                        |
//!               |  '----abandon----'  |                        |
//!               '-- edit of it, set --+------------------------'
//!     a job whose script changed meanwhile stays outstanding, and its result is stale
//! ```
//!
//! The acts are legal (`Legal`, specs/Legal.antt), and what the book keeps beside them is what they
//! say (`IsReplay`, specs/Replay.antt): the scripts and how they stand, the settings, the
//! outstanding jobs.
//!
//! Why it is so:
//! - The report is a function of the acts (`shown`, specs/Report.antt), and not of what the book
//!   keeps. So nobody has to know what it keeps to see what a report promises.
//! - Callers see a book as its history (`History`: the opening settings and the acts) and, apart from
//!   that, its tracks; they see a job as its task and, apart from that, its track. So no clause
//!   about a history or a task is about tracks, which spare steps and change no verdict.
//! - Any edit, and any `set`, makes a script pending, even if nothing differs: so the rule has no
//!   case. With its track, a job that runs nothing new takes few steps.
//! - Memory is asked for before anything is recorded. Out of memory is the last refusal of each
//!   call. `start` makes room for its own act and for the end of its job, so `finish` and `abandon`
//!   never run out of memory. Their refusals name it for callers that note more about the end of a
//!   job.
//! - `start` answers out of memory if its script's track can't be shared. It moves the track to the
//!   front even if the track can't be used. `finish` takes no memory that it needs: a track for
//!   which there is none isn't kept. A result that is taken replaces the track even if its text
//!   isn't a script and the new track has no checkpoint.
//! - The map of scripts hashes with a fixed seed. With as few names as a book may have, even
//!   hostile names cost little, and `Book::new` needs no random source.
#![tactic(auto)]

mod act;
mod book;
mod faults;
mod laws;
mod records;
mod refusals;
mod report;
mod scripts;
mod shared_edit;
mod stored_script;
mod track_cache;

pub use act::{Act, Ruling};
pub use book::{Book, MAX_ACTS};
pub use faults::{BookFault, FinishFault};
pub use laws::{
    law_acts_are_accepted_iff_legal, law_settling_ends_with_none_pending,
    law_verdicts_are_of_current_runs,
};
pub use pd_track::{Done, Job, Task, Track, Unfinished, run_job};
pub use report::{Report, Row};
pub use shared_edit::SharedEdit;
