//! Books alone, and the jobs that they gave.
use std::alloc::Global;
use test_support::{AnswerText, BookCalls, CallArguments, OUT_OF_MEMORY, StartedJob, Texts, call};

/// How many tracks a book keeps where a transcript doesn't say.
const CACHE: usize = 64;

/// A book, and the jobs that it gave.
#[derive(Drop)]
pub struct Fixture {
    book: BookCalls,
    started_jobs: Vec<StartedJob>,
}

/// Makes a call of a book, the last of these; whether there is such a call.
pub fn answer_if_lone_book_call(
    fixtures: &mut Vec<Fixture>,
    texts: &Texts,
    word: &str,
    arguments: &mut CallArguments<'_>,
    output: &mut AnswerText,
) -> bool {
    match word {
        "cache" => {
            fixtures.clear();
            output.push_str(add(fixtures, texts.alloc, arguments.number() as usize));
        }
        "swap" => go_to_other_book(fixtures, texts.alloc, output),
        _ => return call_last_or_new_book(fixtures, texts, word, arguments, output),
    }
    true
}

/// Adds a book that keeps so many tracks.
fn add(fixtures: &mut Vec<Fixture>, alloc: Global, cache: usize) -> &'static str {
    if fixtures.reserve(1).is_err() {
        return OUT_OF_MEMORY;
    }
    fixtures.push_reserved(Fixture {
        book: BookCalls::new(alloc, cache),
        started_jobs: Vec::new(alloc),
    });
    "ok"
}

/// Goes to the other book.
fn go_to_other_book(fixtures: &mut Vec<Fixture>, alloc: Global, output: &mut AnswerText) {
    if fixtures.len() < 2 {
        return output.push_str(add(fixtures, alloc, CACHE));
    }
    fixtures.reverse();
    output.push_str("ok");
}

/// Makes a call of the last book, a new one if there is none; whether there is such a call.
fn call_last_or_new_book(
    fixtures: &mut Vec<Fixture>,
    texts: &Texts,
    word: &str,
    arguments: &mut CallArguments<'_>,
    output: &mut AnswerText,
) -> bool {
    if fixtures.is_empty() {
        add(fixtures, texts.alloc, CACHE);
    }
    match fixtures.last_mut() {
        Some(fixture) => call(
            &mut fixture.book,
            &mut fixture.started_jobs,
            texts,
            word,
            arguments,
            output,
        ),
        None => {
            output.push_str(OUT_OF_MEMORY);
            true
        }
    }
}
