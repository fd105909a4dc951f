//! Readers that give little or fail, and writers that take little or fail: a fault stops the run, and what was written
//! before it is a prefix.
use crate::streams::StreamRuns;
use crate::streams::source::{Pace, STEADY};
use crate::streams::stored::{INPUT, OUTPUT};

const READ: &str = "pdregress: 17 Read\n";

const WRITE: &str = "pdregress: 18 Write\n";

/// How many reads a run makes at most.
const READS: u64 = 1_048_576;

impl StreamRuns {
    /// Fails each read in turn, of readers that give so many octets a call, and then one that is never made: there is a
    /// call for each piece of the input, and one that reports the end.
    pub fn check_reads(&mut self, most: usize) {
        let mut pace = STEADY;
        pace.given = most;
        let octets = INPUT.len().saturating_add(most.saturating_sub(1));
        let pieces = octets.checked_div(most).unwrap_or(0) as u64;
        for piece in 0..=pieces {
            pace.read_fails = piece.saturating_add(1);
            self.check_fault(pace, READ, pace.read_fails);
        }
        pace.read_fails = pieces.saturating_add(2);
        self.run("", INPUT, pace);
        let is_read = self.reads == pieces.saturating_add(1) && self.asked <= 4096;
        let is_whole = self.says(OUTPUT, "", 0);
        self.note(is_whole && is_read, pace.read_fails);
    }

    /// Fails each write in turn, of writers that take so many octets a call; one that takes none is a fault of itself.
    pub fn check_writes(&mut self, most: usize) {
        let mut pace = STEADY;
        pace.taken = most;
        if most == 0 {
            return self.check_fault(pace, WRITE, 1);
        }
        self.run("", INPUT, pace);
        let is_whole = self.says(OUTPUT, "", 0);
        self.note(is_whole, 0);
        for call in 1..=self.output.calls {
            pace.write_fails = call;
            self.check_fault(pace, WRITE, call);
        }
    }

    /// Runs the program on streams that fail at this call, and checks that it reports this fault and stops.
    fn check_fault(&mut self, pace: Pace, fault: &str, call: u64) {
        self.run("", INPUT, pace);
        let out = self.output.out.as_str();
        let transcripts_agree = self.status == 2 && self.errors.out.as_str() == fault;
        let is_prefix = OUTPUT.starts_with(out) && out.len() < OUTPUT.len();
        let is_stopped = pace.read_fails == 0 || self.reads == pace.read_fails;
        self.note(transcripts_agree && is_prefix && is_stopped, call);
    }

    /// The status stands where the error text can't be written.
    pub fn check_unwritten_errors(&mut self) {
        let mut pace = STEADY;
        pace.error_limit = 0;
        self.run("", "bye\n", pace);
        let is_right = self.says("", "", 2);
        self.note(is_right, 0);
    }

    /// Newlines for ever are read up to the limit on reads, and the read that reports the end counts too.
    pub fn check_endless_newlines(&mut self) {
        let mut pace = STEADY;
        pace.given = 1;
        pace.is_endless = true;
        self.run("", "\n", pace);
        let transcripts_agree = self.says("", READ, 2);
        self.note(transcripts_agree && self.reads == READS, 0);

        pace.read_ends = READS;
        self.run("", "\n", pace);
        self.note(self.status == 0 && self.reads == READS, READS);
    }
}
