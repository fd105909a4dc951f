//! Calls on jobs of a book, if a row's call is one: their start, their run and their end.
ghost use Rattle.std.specs.Prelude.{◌<◌, vec_len, vec_capacity};

use crate::arguments::CallArguments;
use crate::calls::Calls;
use crate::output::{AnswerText, NO_SUCH_THING, OUT_OF_MEMORY};
use crate::results::{write_run, write_start};
use crate::started_jobs::{RunResult, StartedJob, run_for_result};
use crate::texts::Texts;
use crate::values::with;
use pd_book::Job;
use pd_settings::{Settings, Value};
use pd_text::{Text, TextFault};
use std::alloc::Global;

/// Starts, runs or ends a job; whether there is such a call.
pub fn work<C: Calls>(
    book: &mut C,
    started_jobs: &mut Vec<StartedJob>,
    texts: &Texts,
    word: &str,
    arguments: &mut CallArguments<'_>,
    output: &mut AnswerText,
) -> bool {
    match word {
        "start" => start(book, started_jobs, output),
        "run" => answer_run(started_jobs, texts, arguments, output),
        "checkpoint" => answer_checkpoint(started_jobs, texts, arguments, output),
        "finish" => answer_finish(book, started_jobs, texts, arguments, output),
        "give" => finish_with_foreign_result(book, started_jobs, texts, arguments, output),
        "abandon" => abandon(book, started_jobs, arguments, output),
        _ => return false,
    }
    true
}

/// Starts a job, once there is room to keep it.
fn start<C: Calls>(book: &mut C, started_jobs: &mut Vec<StartedJob>, output: &mut AnswerText) {
    if started_jobs.reserve(1).is_err() {
        return output.push_str(OUT_OF_MEMORY);
    }
    match book.start() {
        Ok(task) => write_and_keep_started_job(started_jobs, task, output),
        Err(word) => output.push_str(word),
    }
}

fn write_and_keep_started_job(
    started_jobs: &mut Vec<StartedJob>,
    task: StartedJob,
    output: &mut AnswerText,
)
    requires { vec_len started_jobs.old < vec_capacity started_jobs.old }
{
    write_start(output, &task.job);
    started_jobs.push_reserved(task);
}

/// The job of a number, of those from 1 on.
pub fn job(started_jobs: &[StartedJob], number: u64) -> Option<&StartedJob> {
    started_jobs.get((number as usize).wrapping_sub(1))
}

/// The seat that a job was given to.
fn seat_of(started_jobs: &[StartedJob], number: u64) -> Option<usize> {
    match job(started_jobs, number) {
        Some(task) => task.seat,
        None => None,
    }
}

/// The result of the job of a number, or why there is none.
fn result_of_job_run_if_needed<'a>(
    started_jobs: &'a mut Vec<StartedJob>,
    texts: &Texts,
    number: u64,
) -> Result<&'a RunResult, &'static str> {
    match started_jobs.get_mut((number as usize).wrapping_sub(1)) {
        Some(task) => task.result_run_if_needed(texts.alloc).ok_or(OUT_OF_MEMORY),
        None => Err(NO_SUCH_THING),
    }
}

/// Runs a job, and says its verdict and its steps.
fn answer_run(
    started_jobs: &mut Vec<StartedJob>,
    texts: &Texts,
    arguments: &mut CallArguments<'_>,
    output: &mut AnswerText,
) {
    match result_of_job_run_if_needed(started_jobs, texts, arguments.number()) {
        Ok(ran) => write_run(output, ran.done.verdict(), ran.steps),
        Err(word) => output.push_str(word),
    }
}

/// Says the clock of a state that the run of a job leaves: for the number k the one after 4k + 4 events.
fn answer_checkpoint(
    started_jobs: &mut Vec<StartedJob>,
    texts: &Texts,
    arguments: &mut CallArguments<'_>,
    output: &mut AnswerText,
) {
    match result_of_job_run_if_needed(started_jobs, texts, arguments.number()) {
        Ok(ran) => match ran.done.track().checkpoint(arguments.number() as usize) {
            Some(checkpoint) => output.count("clock ", checkpoint.state().clock(), " us"),
            None => output.push_str("none"),
        },
        Err(word) => output.push_str(word),
    }
}

/// Says how many steps a job took, which is run first if it wasn't yet.
pub fn write_step_count(
    started_jobs: &mut Vec<StartedJob>,
    texts: &Texts,
    number: u64,
    output: &mut AnswerText,
) {
    match result_of_job_run_if_needed(started_jobs, texts, number) {
        Ok(ran) => output.number(ran.steps),
        Err(word) => output.push_str(word),
    }
}

/// Finishes a job, which is run first if it wasn't yet.
pub fn finish<C: Calls>(
    book: &mut C,
    started_jobs: &mut Vec<StartedJob>,
    texts: &Texts,
    number: u64,
) -> &'static str {
    let seat = seat_of(started_jobs.as_slice(), number);
    match result_of_job_run_if_needed(started_jobs, texts, number) {
        Ok(ran) => book.finish(&ran.done, seat),
        Err(word) => word,
    }
}

fn answer_finish<C: Calls>(
    book: &mut C,
    started_jobs: &mut Vec<StartedJob>,
    texts: &Texts,
    arguments: &mut CallArguments<'_>,
    output: &mut AnswerText,
) {
    output.push_str(finish(book, started_jobs, texts, arguments.number()));
}

/// Finishes a job with the result of one that no book handed out.
fn finish_with_foreign_result<C: Calls>(
    book: &mut C,
    started_jobs: &[StartedJob],
    texts: &Texts,
    arguments: &mut CallArguments<'_>,
    output: &mut AnswerText,
) {
    match foreign_job_from_arguments(started_jobs, texts, arguments) {
        Ok(job) => output.push_str(finish_foreign(book, texts.alloc, job)),
        Err(fault) => output.push_str(fault.number_and_name()),
    }
}

fn finish_foreign<C: Calls>(book: &mut C, alloc: Global, job: Job) -> &'static str {
    match run_for_result(alloc, job) {
        Some(ran) => book.finish(&ran.done, None),
        None => OUT_OF_MEMORY,
    }
}

/// The job of the number, the script, the tolerance and the text that a call names, with the other settings of the job of
/// that number.
fn foreign_job_from_arguments(
    started_jobs: &[StartedJob],
    texts: &Texts,
    arguments: &mut CallArguments<'_>,
) -> Result<Job, TextFault> {
    let number = arguments.number();
    let octets = arguments.name();
    let settings = settings_like(started_jobs, number, arguments.number());
    let text = Text::new(texts.alloc, texts.text(arguments.rest)?)?;
    let name = texts.name(octets)?;
    Ok(Job::new(number, name, text, settings, None))
}

/// The settings of the job of a number, or the defaults where there is none, with a tolerance in microseconds.
fn settings_like(started_jobs: &[StartedJob], number: u64, tolerance: u64) -> Settings {
    let settings = match job(started_jobs, number) {
        Some(task) => task.job.settings(),
        None => Settings::new(),
    };
    with(&settings, b"tolerance_us", Value::Number(tolerance)).unwrap_or(settings)
}

fn abandon<C: Calls>(
    book: &mut C,
    started_jobs: &[StartedJob],
    arguments: &mut CallArguments<'_>,
    output: &mut AnswerText,
) {
    let number = arguments.number();
    output.push_str(book.abandon(number, seat_of(started_jobs, number)));
}
