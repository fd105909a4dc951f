//! Rows as they are run: a call, ` -> ` and its answer, or several that are parted by ` or `, the first of which is given
//! where no call was out of memory.
use crate::output::{AnswerForm, AnswerText, OUT_OF_MEMORY};
use std::alloc::{AllocError, Global};
use std::io;

/// The mark between a call and its answers, and the one between one of these and the next.
const GIVES: &str = " -> ";

const OR: &str = " or ";

/// The text before a mark, and the text after it: nothing where there is no mark.
fn halves<'a>(text: &'a str, mark: &str) -> (&'a str, &'a str) {
    text.split_once(mark).unwrap_or((text, ""))
}

/// The call of a row.
pub fn call_of(row: &str) -> &str {
    halves(row, GIVES).0
}

/// The answers of a row.
fn answers_of(row: &str) -> &str {
    halves(row, GIVES).1
}

/// Whether an answer is one of those that are written.
fn is_among(answer: &str, written: &str) -> bool {
    let mut is_there = false;
    for one in written.split(OR) {
        is_there |= one == answer;
    }
    is_there
}

/// How many transcripts and rows a table has so far, and the text to print of it.
#[derive(Drop)]
pub struct RowRunner {
    /// The answer of a row.
    output: AnswerText,
    /// The text to print.
    report: AnswerText,
    transcripts: u64,
    rows: u64,
    differing: u64,
    /// Whether all rows of all tables agreed so far.
    pub agrees: bool,
    /// Whether a call found no memory, and was made again.
    is_repeated: bool,
    /// Whether a row got another of its answers than the first.
    is_otherwise: bool,
}

impl RowRunner {
    pub fn new(alloc: Global, form: AnswerForm) -> Result<RowRunner, AllocError> {
        let output = AnswerText::new(alloc, form)?;
        let report = AnswerText::new(alloc, form)?;
        Ok(RowRunner {
            output,
            report,
            transcripts: 0,
            rows: 0,
            differing: 0,
            agrees: true,
            is_repeated: false,
            is_otherwise: false,
        })
    }

    /// Begins a table with its title.
    pub fn begin_table(&mut self, title: &str) {
        self.close();
        self.report.push_str(title);
        self.report.push_str("\n");
    }

    /// Counts a transcript.
    pub fn count_transcript(&mut self) {
        self.transcripts = self.transcripts.wrapping_add(1);
    }

    /// The answer of a row, cleared.
    pub fn begin_answer(&mut self) -> &mut AnswerText {
        self.output.clear();
        &mut self.output
    }

    /// Whether the call of a row found no memory, and is to be made again.
    pub fn must_repeat_for_memory(&mut self, row: &str) -> bool {
        let is_out_of_memory = self.output.is_out_of_memory_answer()
            && answers_of(row) != OUT_OF_MEMORY;
        self.is_repeated |= is_out_of_memory;
        is_out_of_memory
    }

    /// Compares the answer with those that are written. Where it is none of these, the row is to be printed.
    pub fn compare(&mut self, row: &str) {
        self.rows = self.rows.wrapping_add(1);
        let written = answers_of(row);
        if self.output.as_str() == halves(written, OR).0 {
            return;
        }
        if is_among(self.output.as_str(), written) {
            self.is_otherwise = true;
        } else {
            self.differ(row);
        }
    }

    /// Reports a row that got another answer.
    fn differ(&mut self, row: &str) {
        self.differing = self.differing.wrapping_add(1);
        self.agrees = false;
        self.report.push_str(row);
        self.report.push_str("\n  SAID ");
        self.report.push_str(self.output.as_str());
        self.report.push_str("\n");
    }

    /// Reports the counts of the table that ends, if it had a row, and begins with the next one.
    fn close(&mut self) {
        if self.rows != 0 {
            self.write_counts();
        }
        self.transcripts = 0;
        self.rows = 0;
        self.differing = 0;
    }

    /// Writes how many rows there are and how many of them differ, and how many transcripts where these are counted.
    fn write_counts(&mut self) {
        if self.transcripts != 0 {
            self.report.count("", self.transcripts, " stories, ");
        }
        self.report.count("", self.rows, " rows, ");
        self.report.count("", self.differing, " differ\n");
    }

    /// Ends the last table.
    pub fn end(&mut self) {
        self.close();
        if self.is_repeated {
            self.report
                .push_str("a call that found no memory was made again\n");
        }
        if self.is_otherwise {
            self.report.push_str("a row got another of its answers\n");
        }
    }

    /// Prints what is to be printed.
    ///
    /// # Errors
    /// Where the output fails, or something to print found no room.
    pub fn print(&mut self, rt: &impl Print) -> io::Result<()> {
        if !(self.output.is_whole && self.report.is_whole) {
            return Err(AllocError.into());
        }
        let printed = rt.print(self.report.as_str());
        self.report.clear();
        printed
    }
}
