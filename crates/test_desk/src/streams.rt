//! The whole program without workers, on streams that give or take little or fail, on an input without an end, and where it
//! may find no memory.
mod faults;
mod source;
mod stored;

use self::source::{Pace, STEADY, Source};
use self::stored::{MEMORY_INPUT, MEMORY_OUTPUT};
use crate::callers::CACHE;
use crate::serving::ServedOutput;
use pd_cli::{Options, run_alone};
use std::alloc::{AllocError, Global};
use test_support::{AnswerText, CallArguments, OUT_OF_MEMORY};

/// Makes the check of a row, and says how many runs it has made and how many were wrong.
pub fn answer_streams_check(
    alloc: Global,
    arguments: &mut CallArguments<'_>,
    out: &mut AnswerText,
) {
    match StreamRuns::new(alloc) {
        Ok(mut runs) => {
            runs.make_named_check(arguments);
            runs.write_counts(out);
        }
        Err(_) => out.push_str(OUT_OF_MEMORY),
    }
}

/// The result of the last run, and how many there were.
#[derive(Drop)]
struct StreamRuns {
    alloc: Global,
    output: ServedOutput,
    errors: ServedOutput,
    status: u8,
    /// How many reads the last run made, and the greatest number of octets that one asked for.
    reads: u64,
    asked: usize,
    runs: u64,
    wrong: u64,
    /// Which call was to fail in the last run that was wrong.
    at: u64,
    /// Whether a run found no memory.
    is_out_of_memory: bool,
}

impl StreamRuns {
    fn new(alloc: Global) -> Result<StreamRuns, AllocError> {
        Ok(StreamRuns {
            output: ServedOutput::new(alloc)?,
            errors: ServedOutput::new(alloc)?,
            alloc,
            status: 0,
            reads: 0,
            asked: 0,
            runs: 0,
            wrong: 0,
            at: 0,
            is_out_of_memory: false,
        })
    }

    /// Makes a check, of streams that give or take at most so many octets a call.
    fn make_named_check(&mut self, arguments: &mut CallArguments<'_>) {
        match arguments.word() {
            "reads" => self.check_reads(arguments.number() as usize),
            "writes" => self.check_writes(arguments.number() as usize),
            "errors" => self.check_unwritten_errors(),
            "newlines" => self.check_endless_newlines(),
            "memory" => self.check_run_that_may_lack_memory(),
            _ => self.note(false, 0),
        }
    }

    fn write_counts(&self, out: &mut AnswerText) {
        if self.is_out_of_memory {
            return out.push_str(OUT_OF_MEMORY);
        }
        out.count("", self.runs, " runs, ");
        out.count("", self.wrong, " wrong");
        if self.wrong != 0 {
            out.count(", the last at ", self.at, "");
        }
    }

    /// Counts a run that is right or not, and notes which call was to fail where it isn't.
    fn note(&mut self, is_right: bool, call: u64) {
        self.runs = self.runs.saturating_add(1);
        if !is_right {
            self.wrong = self.wrong.saturating_add(1);
            self.at = call;
        }
    }

    /// Whether the last run printed this.
    fn says(&self, output: &str, errors: &str, status: u8) -> bool {
        self.output.out.as_str() == output
            && self.errors.out.as_str() == errors
            && self.status == status
    }

    /// Runs the program with the settings of a text on this input, by streams of this pace.
    fn run(&mut self, settings: &str, input: &str, pace: Pace) {
        self.output
            .begin_with_write_limits(pace.taken, pace.write_fails);
        self.errors.begin_with_write_limits(pace.error_limit, 0);
        let mut source = Source::new(input, pace);
        self.status = run_alone_for_status(
            self.alloc,
            settings,
            &mut source,
            &mut self.output,
            &mut self.errors,
        );
        self.reads = source.calls;
        self.asked = source.asked;
    }

    /// Runs the program. In the gate there is memory; outside it each allocation is refused in turn, and then what was written
    /// is a prefix, and the next run says all.
    fn check_run_that_may_lack_memory(&mut self) {
        self.run("tolerance_us = 5000", MEMORY_INPUT, STEADY);
        let is_right = self.says(MEMORY_OUTPUT, "", 0);
        let is_prefix = MEMORY_OUTPUT.starts_with(self.output.out.as_str());
        self.is_out_of_memory = self.status == 2 && is_prefix;
        self.note(is_right, 0);
    }
}

/// Runs the program without workers, and gives its status. Its promises stay in here: callers compare what was written.
fn run_alone_for_status(
    alloc: Global,
    settings: &str,
    source: &mut Source<'_>,
    output: &mut ServedOutput,
    errors: &mut ServedOutput,
) -> u8 {
    let options = Options {
        settings,
        workers: 0,
        cache: CACHE,
        steps: false,
        rules: false,
        explain: None,
    };
    run_alone(alloc, &options, source, output, errors).status
}
