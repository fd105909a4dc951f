//! Commands, as they come at random.
use crate::schedules::random::Random;
use std::alloc::{AllocError, Global};
use test_support::{AnswerForm, AnswerText};

/// Commands, as they are served with workers and without.
#[derive(Drop)]
pub struct RandomInput {
    pub written: AnswerText,
    /// The same, but that each `show` is a `settle`.
    pub settled: AnswerText,
    /// Of each report that is printed, also the last, whether it is settled.
    pub are_settled: Vec<bool>,
}

const SCRIPTS: [&str; 5] = ["a", "b", "c", "d", "e"];

/// How a script begins.
const BEGINNING: &str = " 4
0 socket(..., SOCK_STREAM, IPPROTO_TCP) = 3
+0 bind(3, ..., ...) = 0
+0 listen(3, 1) = 0
";

/// Lines that pass, fail, are unsupported and can't be read.
const LINES: [&str; 5] = [
    "+0 bind(9, ..., ...) = -1 EBADF",
    "+0 bind(9, ..., ...) = 0",
    "+0 poll(3, ..., ...) = 0",
    "+0.2 > . 1:1(0) ack 1",
    ",",
];

const SETTINGS: [&str; 4] = [
    "tolerance_us 1000",
    "tolerance_us 4000",
    "mss 10",
    "nagle true",
];

impl RandomInput {
    pub fn new(alloc: Global) -> Result<RandomInput, AllocError> {
        Ok(RandomInput {
            written: AnswerText::new(alloc, AnswerForm::Short)?,
            settled: AnswerText::new(alloc, AnswerForm::Short)?,
            are_settled: Vec::new(alloc),
        })
    }

    /// So many commands in place of those before.
    pub fn generate(&mut self, random: &mut Random, commands: u64) {
        self.written.clear();
        self.settled.clear();
        self.are_settled.clear();
        for _command in 0..commands {
            self.add_command(random);
        }
        self.note_whether_report_settled(true);
    }

    fn add_command(&mut self, random: &mut Random) {
        let script = random.pick(&SCRIPTS);
        let line = random.pick(&LINES);
        match random.below(16) {
            0..=4 => self.add_to_both(&["add ", script, BEGINNING, line, "\n"]),
            5..=9 => self.add_to_both(&["edit ", script, " 4 1 1\n", line, "\n"]),
            10 => self.add_to_both(&["remove ", script, "\n"]),
            11 => self.add_to_both(&["set ", random.pick(&SETTINGS), "\n"]),
            12..=14 => self.report("show\n", false),
            _ => self.report("settle\n", true),
        }
    }

    /// Adds these pieces to both.
    fn add_to_both(&mut self, pieces: &[&str]) {
        for piece in pieces {
            self.written.push_str(piece);
            self.settled.push_str(piece);
        }
    }

    fn report(&mut self, word: &str, is_settled: bool) {
        self.written.push_str(word);
        self.settled.push_str("settle\n");
        self.note_whether_report_settled(is_settled);
    }

    fn note_whether_report_settled(&mut self, is_settled: bool) {
        if self.are_settled.push(is_settled).is_err() {
            self.written.is_whole = false;
        }
    }
}
