//! Makes a row's call, if a book has it, alone or by a seat: changes, jobs, the report, how many verdicts are owed, acts.
use crate::arguments::CallArguments;
use crate::changes::answer_if_change;
use crate::jobs::work;
use crate::output::AnswerText;
use crate::queries::answer_if_query;
use crate::started_jobs::StartedJob;
use crate::texts::Texts;
use pd_book::{Act, Done, Report};
use pd_settings::Value;
use pd_text::{LineEdit, Lines, Name};

/// A book as rows call it. A call without another result answers with a text.
pub trait Calls {
    fn add(&mut self, name: Name, lines: Lines) -> &'static str;

    fn edit(&mut self, name: &Name, edit: &LineEdit) -> &'static str;

    fn remove(&mut self, name: &Name) -> &'static str;

    fn set(&mut self, key: &[u8], value: Value) -> &'static str;
    /// The next job, or why there is none.
    fn start(&mut self) -> Result<StartedJob, &'static str>;
    /// Ends a job that this seat started, or another, with a result.
    fn finish(&mut self, done: &Done, seat: Option<usize>) -> &'static str;
    /// Gives up a job that this seat started, or another.
    fn abandon(&mut self, number: u64, seat: Option<usize>) -> &'static str;
    /// The report, or why there is none.
    fn show(&mut self) -> Result<Report, &'static str>;
    /// How many verdicts are owed, if that is known.
    fn owed(&self) -> Option<usize>;
    /// The acts that were made by these calls, from the oldest on.
    fn acts(&self) -> &[Act];
}

/// Makes a call, and says its answer; whether there is such a call. One that found no memory must leave as many acts, and as
/// many verdicts owed, as there were.
pub fn call<C: Calls>(
    book: &mut C,
    started_jobs: &mut Vec<StartedJob>,
    texts: &Texts,
    word: &str,
    arguments: &mut CallArguments<'_>,
    output: &mut AnswerText,
) -> bool {
    let acts = book.acts().len();
    let owed = book.owed();
    let is_known = answer_if_change(book, texts, word, arguments, output)
        || work(book, started_jobs, texts, word, arguments, output)
        || answer_if_query(book, started_jobs.as_slice(), word, arguments, output);
    if output.is_out_of_memory_answer() && (book.acts().len() != acts || book.owed() != owed) {
        output.push_str(", and something changed");
    }
    is_known
}
