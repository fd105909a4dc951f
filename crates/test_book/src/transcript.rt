//! The calls of a transcript: of a book, of another, of two that seats share, and of the parts below.
use crate::fixture::{self, Fixture};
use crate::lower_calls::LowerCalls;
use crate::shared_fixture::{self, SharedFixture};
use std::alloc::{AllocError, Global};
use test_support::{AnswerText, CallArguments, OUT_OF_MEMORY, Texts};

/// The books of a transcript and the parts below, and the words that stand for lines, which outlast it. Of books, alone or
/// shared, the last is the one that is called.
#[derive(Drop)]
pub struct BookTranscript {
    texts: Texts,
    lower_calls: LowerCalls,
    fixtures: Vec<Fixture>,
    shared_fixtures: Vec<SharedFixture>,
}

impl BookTranscript {
    pub fn new(alloc: Global) -> BookTranscript {
        BookTranscript {
            texts: Texts::new(alloc),
            lower_calls: LowerCalls::new(alloc),
            fixtures: Vec::new(alloc),
            shared_fixtures: Vec::new(alloc),
        }
    }

    /// Begins from nothing.
    pub fn begin(&mut self) {
        self.lower_calls.begin();
        self.fixtures.clear();
        self.shared_fixtures.clear();
    }

    /// Makes a call and says its answer; with `N times` before it so often, or until the answer isn't `ok`, and with `sum`
    /// the answer's sum.
    pub fn answer(&mut self, call: &str, output: &mut AnswerText) {
        if let Some(call) = call.strip_prefix("sum ") {
            self.once(call, output);
            return output.replace_by_sum();
        }
        match call.split_once(" times ") {
            Some((count, call)) => self.repeat_while_ok(
                CallArguments::new(count).number(),
                call,
                output,
            ),
            None => self.once(call, output),
        }
    }

    /// Makes a call so often, or until the answer isn't `ok`.
    fn repeat_while_ok(&mut self, count: u64, call: &str, output: &mut AnswerText) {
        for turn in 0..count {
            match call_with_turn_number(self.texts.alloc, call, turn, output) {
                Ok(call) => self.once(call.as_str(), output),
                Err(_) => output.is_whole = false,
            }
            if output.as_str() != "ok" {
                return;
            }
        }
    }

    /// Makes a call once.
    fn once(&mut self, call: &str, output: &mut AnswerText) {
        let mut arguments = CallArguments::new(call);
        let word = arguments.word();
        let BookTranscript {
            texts,
            lower_calls,
            fixtures,
            shared_fixtures,
        } = self;
        let is_known = answer_if_definition(texts, word, &mut arguments, output)
            || lower_calls.answer(texts, word, &mut arguments, output)
            || shared_fixture::answer_if_shared_book_call(
                shared_fixtures,
                texts,
                word,
                &mut arguments,
                output,
            )
            || fixture::answer_if_lone_book_call(fixtures, texts, word, &mut arguments, output);
        write_faults_of_written_call(is_known, arguments.are_right, output);
    }
}

/// A call as it is at a turn, of those from 0 on: with the turn's number for each `#`.
fn call_with_turn_number(
    alloc: Global,
    call: &str,
    turn: u64,
    output: &mut AnswerText,
) -> Result<String, AllocError> {
    output.clear();
    output.number(turn);
    let call = call.replace(alloc, "#", output.as_str());
    output.clear();
    call
}

/// Has a word stand for lines from now on; returns whether that is the call.
fn answer_if_definition(
    texts: &mut Texts,
    word: &str,
    arguments: &mut CallArguments<'_>,
    output: &mut AnswerText,
) -> bool {
    if word != "let" {
        return false;
    }
    let word = arguments.word();
    match texts.define(word, arguments.rest) {
        Ok(()) => output.push_str("ok"),
        Err(_) => output.push_str(OUT_OF_MEMORY),
    }
    true
}

/// Says what is wrong with a call as it is written.
fn write_faults_of_written_call(is_known: bool, are_right: bool, output: &mut AnswerText) {
    if !is_known {
        output.push_str("(no such call)");
    }
    if !are_right {
        output.push_str("(not a number)");
    }
}
