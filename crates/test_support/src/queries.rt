//! Calls that change nothing: they say a book's report and how many verdicts are owed, its acts, or a job that it gave.
use crate::acts::write_acts;
use crate::arguments::CallArguments;
use crate::calls::Calls;
use crate::jobs::job;
use crate::output::{AnswerText, NO_SUCH_THING};
use crate::results::{write_job, write_owed, write_report};
use crate::started_jobs::StartedJob;
use pd_book::Act;

/// Looks at a book, or at a job; whether there is such a call.
pub fn answer_if_query<C: Calls>(
    book: &mut C,
    started_jobs: &[StartedJob],
    word: &str,
    arguments: &mut CallArguments<'_>,
    output: &mut AnswerText,
) -> bool {
    match word {
        "show" => show(book, output, false),
        "whole" => show(book, output, true),
        "owed" => write_owed(output, book.owed()),
        "job" => answer_job(started_jobs, arguments, output),
        _ => return answer_if_acts_query(book.acts(), word, output),
    }
    true
}

/// Looks at the acts of a book; whether there is such a call.
fn answer_if_acts_query(acts: &[Act], word: &str, output: &mut AnswerText) -> bool {
    match word {
        "acts" => write_acts(output, acts, false),
        "log" => write_acts(output, acts, true),
        "history" => output.number(acts.len() as u64),
        _ => return false,
    }
    true
}

fn answer_job(
    started_jobs: &[StartedJob],
    arguments: &mut CallArguments<'_>,
    output: &mut AnswerText,
) {
    match job(started_jobs, arguments.number()) {
        Some(task) => write_job(output, &task.job),
        None => output.push_str(NO_SUCH_THING),
    }
}

/// Says each script and its verdict, with its text and the settings or without, and how many verdicts are owed.
fn show<C: Calls>(book: &mut C, output: &mut AnswerText, is_whole: bool) {
    match book.show() {
        Ok(report) => {
            write_report(output, &report, is_whole);
            write_owed(output, book.owed());
        }
        Err(word) => output.push_str(word),
    }
}
