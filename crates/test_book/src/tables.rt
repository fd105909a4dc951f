//! Runs rows line by line. A transcript begins with its title, a line that begins `# `, and a table with a line that
//! begins `== `. Empty lines are passed over.
use crate::transcript::BookTranscript;
use std::alloc::{AllocError, Global};
use test_support::{AnswerForm, RowRunner, call_of};

/// The transcript that runs, and the report of its table.
#[derive(Drop)]
pub struct TranscriptTables {
    pub runner: RowRunner,
    transcript: BookTranscript,
}

impl TranscriptTables {
    pub fn new(alloc: Global) -> Result<TranscriptTables, AllocError> {
        let runner = match RowRunner::new(alloc, AnswerForm::Full) {
            Ok(runner) => runner,
            Err(_) => RowRunner::new(alloc, AnswerForm::Full)?,
        };
        Ok(TranscriptTables {
            runner,
            transcript: BookTranscript::new(alloc),
        })
    }

    /// Takes each line of a text.
    pub fn run_all_lines(&mut self, text: &str) {
        for line in text.split("\n") {
            self.take(line);
        }
        self.runner.end();
    }

    /// Takes one line. The call of a row is made again where it found no memory.
    fn take(&mut self, line: &str) {
        let TranscriptTables { runner, transcript } = self;
        if line.starts_with("== ") {
            runner.begin_table(line);
        } else if line.starts_with("# ") {
            runner.count_transcript();
            transcript.begin();
        } else if !line.is_empty() {
            transcript.answer(call_of(line), runner.begin_answer());
            if runner.must_repeat_for_memory(line) {
                transcript.answer(call_of(line), runner.begin_answer());
            }
            runner.compare(line);
        }
    }
}
