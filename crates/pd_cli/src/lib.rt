//! The report, serving and the whole program `pdregress`, over any reader and writers.
//!
//! `run` is the whole of `pdregress` but for its streams. `run_alone` serves its input without
//! workers, `serve` with workers, and `serve_seat` at a seat of a desk. `render` gives the octets
//! of a report. One loop serves: it takes a command, asks a `CommandHandler` for the reply, and writes
//! the reply.
//!
//! ```text
//!     input --octets--> LineReader --lines--> next_command --command--> CommandHandler
//!                                              | the end                 | LocalHandler: the book; a settle
//!                                              v                         |   starts and runs the jobs
//!                                            a settle, the last report   | SharedHandler: a seat of the desk;
//!                                                                        |   workers run the jobs
//!     output <------- nothing, the line of a refusal, or a report ---'
//!     standard error <--- steps and explanation of each job, by the Reporter of LocalHandler
//!     standard error <--- the line of a fault, at which serving stops
//! ```
//!
//! For any number of workers, what is written is what the commands accepted so far allow:
//! `MayAnswer` (specs/Beside.antt). Without workers it is one function of the settings and the
//! input: `output` (specs/Output.antt), the law `law_settle_reports_from_scratch`. The block of a
//! job that is explained is the text of an explanation of its verdict: `IsBlockOf`
//! (specs/ExplanationBlocks.antt).
//!
//! Why it is so:
//! - Readers, writers and the runtime are parameters. So contracts say what the whole program
//!   writes, and tests run it over memory, on streams that fail at each call in turn.
//! - The two ways to serve differ in their `CommandHandler` alone. It says what a command may print and
//!   why it may have no reply (`prints`, `fails`), so the loop is proved once.
//! - `SharedHandler` keeps a book of its own, in which only the accepted commands are made, and compares
//!   each reply and report with it. No contract says that a desk works on the book under its own
//!   lock, so what is printed rests on this copy.
//! - A reply is made before any of it is written. So a fault, but for one of the writer, leaves
//!   whole replies.
#![tactic(auto)]

mod desk_faults;
mod explanations;
mod handler;
mod laws;
mod local_handler;
mod observer;
mod program;
mod report_text;
mod reporter;
mod serve_commands;
mod settle;
mod shared_handler;
mod verify_report;
mod workers;

pub use laws::{law_jobs_report_only_what_is_asked, law_settle_reports_from_scratch};
pub use pd_protocol::{
    Exit, ExplainOptions, InputStream, Options, ProgramFault, ServeFault, arguments, options,
    write_arguments_unreadable_and_return_exit, write_clap_error_to_err_and_return_fault_exit,
};
pub use program::{PROGRAM, run, run_alone};
pub use report_text::render;
pub use serve_commands::{serve_alone, serve_seat};
pub use workers::serve;
