//! The small language of rows that test programs read: the arguments of a call, the calls of a book, how answers are written and
//! compared with the wanted ones, and the report of a row that differs.
//!
//! A row is a call, ` -> ` and the answer that it must have. A `RowRunner` takes a call's answer,
//! compares it with the row's, and keeps the text to print: a row that differs is printed with
//! the answer that was given. `call` makes a call of whatever has `Calls`: a book alone (`BookCalls`),
//! or a book by one of its seats, which the programs bring along. `CallArguments` reads the arguments of a
//! call, `Texts` has the words that stand for lines, and `AnswerText` the answer so far.
//! README.md has the language.
//!
//! Why it is so:
//! - This crate promises nothing: a wrong answer shows as a row that differs. The functions that it calls have
//!   long contracts; `BookCalls` and the module `values` keep these in, so that the code above is
//!   proved in less time.
//! - A call that found no memory must have changed nothing, and is made once more. So the same rows
//!   are run with each allocation refused in turn.
//! - `AnswerText` remembers if there was no room for its text, so that a function that writes answers has no
//!   error to hand on.
#![tactic(auto)]

mod acts;
mod arguments;
mod book_calls;
mod calls;
mod changes;
mod jobs;
mod output;
mod queries;
mod replies;
mod results;
mod row_runner;
mod started_jobs;
mod texts;
mod transfers;
mod values;

pub use acts::write_acts;
pub use arguments::CallArguments;
pub use book_calls::BookCalls;
pub use calls::{Calls, call};
pub use jobs::{finish, write_step_count};
pub use output::{AnswerForm, AnswerText, NO_SUCH_THING, OUT_OF_MEMORY};
pub use replies::{abandoned, changed, finished, started_job_or_reply};
pub use results::{write_lines, write_report, write_run, write_verdict};
pub use row_runner::{RowRunner, call_of};
pub use started_jobs::StartedJob;
pub use texts::Texts;
pub use transfers::move_last_items;
pub use values::{value_of_setting, with, write_value};
