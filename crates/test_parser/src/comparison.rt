//! Reads texts both ways, counts and prints what differs, and remembers if a line of the input couldn't be carried out.
use crate::make_text::text;
use crate::octet_buffer::OctetBuffer;
use crate::parsed_lines::ParsedLines;
use crate::reference_parser::ReferenceParser;
use crate::stepwise_parse::StepwiseParse;
use pd_text::Lines;
use std::alloc::Global;

/// How many octets of differences are printed, roughly.
const MAX_DIFFERENCES: usize = 5_000;

/// The status where something couldn't be read or printed.
pub const STOPPED: u8 = 2;

/// The last reading, how much was compared, how much of it differs, and the text to print.
#[derive(Drop)]
pub struct Comparison {
    pub alloc: Global,
    /// The readings of the slow reader, and of the product whole and event by event.
    reference_parser: ReferenceParser,
    whole: ParsedLines,
    steps: StepwiseParse,
    texts: usize,
    /// How many edited scripts were read again, and how many of their events were kept.
    edits: usize,
    kept: usize,
    /// How many of the last one.
    pub last_kept: usize,
    wrong: usize,
    pub output: OctetBuffer,
    /// Whether something couldn't be read.
    pub is_stopped: bool,
}

impl Comparison {
    pub fn new(alloc: Global) -> Comparison {
        Comparison {
            alloc,
            reference_parser: ReferenceParser::new(alloc),
            whole: ParsedLines::new(alloc),
            steps: StepwiseParse::new(alloc),
            texts: 0,
            edits: 0,
            kept: 0,
            last_kept: 0,
            wrong: 0,
            output: OctetBuffer::new(alloc),
            is_stopped: false,
        }
    }

    /// Says that something of a line can't be carried out.
    pub fn stop(&mut self) {
        self.output
            .add(b" STOPPED: no memory, no such file or edit, or too large");
        self.is_stopped = true;
    }

    /// The status of the program: 1 where something differs.
    pub fn status(&self) -> u8 {
        let is_short = self.whole.is_short | self.steps.reading.is_short | self.output.is_short;
        if is_short
            | self.reference_parser.is_short
            | self.reference_parser.reading.is_short
            | self.is_stopped
        {
            return STOPPED;
        }
        u8::from(self.wrong > 0)
    }

    /// Reads a text both ways, and compares what is read.
    pub fn compare(&mut self, octets: &[u8]) {
        self.reference_parser.read(octets);
        match text(self.alloc, octets) {
            Ok(lines) => self.compare_lines(&lines, octets),
            Err(_) => self.stop(),
        }
    }

    fn compare_lines(&mut self, lines: &Lines, octets: &[u8]) {
        self.whole.read_whole(self.alloc, lines);
        self.steps.read(self.alloc, lines);
        self.texts = self.texts.saturating_add(1);
        let slow = &self.reference_parser.reading;
        if !self.whole.is_same(slow) || !self.steps.reading.is_same(slow) {
            self.wrong = self.wrong.saturating_add(1);
            self.put_difference(octets);
        }
    }

    /// Says how a text is read whole, by events and slowly.
    fn put_difference(&mut self, octets: &[u8]) {
        let output = &mut self.output;
        if output.octets.len() > MAX_DIFFERENCES {
            return;
        }
        output.add(b" DIFFERS:");
        output.add_reading(&self.whole);
        output.add_reading(&self.steps.reading);
        output.add_reading(&self.reference_parser.reading);
        output.add(b" in: ");
        output.add(octets);
        output.add(b"\n");
    }

    /// Says what was read last.
    pub fn put_reading(&mut self) {
        self.output.add_reading(&self.reference_parser.reading);
    }

    /// Says the place after the header; of each event its line, the place after it, and the line of what follows if it isn't
    /// the end; and the fault, if there is one.
    pub fn put_steps(&mut self) {
        let output = &mut self.output;
        output.add_number(b"", self.steps.start.line);
        output.add_number(b"", self.steps.start.at);
        for step in self.steps.events.as_slice() {
            output.add_number(b" |", step.line);
            output.add_number(b"", step.after.line);
            output.add_number(b"", step.after.at);
            if let Some(line) = step.lookahead_line {
                output.add_number(b"", line);
            }
        }
        if let Some(line) = self.steps.reading.fault {
            output.add_number(b" fault", line);
        }
    }

    /// Notes an edited script that was read again, so many events kept.
    pub fn count_edit_and_kept_events(&mut self, kept: usize) {
        self.edits = self.edits.saturating_add(1);
        self.kept = self.kept.saturating_add(kept);
        self.last_kept = kept;
    }

    /// Notes whether something of an edited script is right.
    pub fn count_wrong_unless(&mut self, is_right: bool) {
        if !is_right {
            self.wrong = self.wrong.saturating_add(1);
            self.output.add(b" DIFFERS");
        }
    }

    /// Says how much was compared.
    pub fn put_totals(&mut self) {
        let output = &mut self.output;
        output.add_number(b"edited scripts read again:", self.edits);
        output.add_number(b", events kept:", self.kept);
        output.add_number(b"\ntexts in all:", self.texts);
        output.add_number(b", of which are read in two ways:", self.wrong);
        output.add(b"\n");
    }
}

impl OctetBuffer {
    /// Adds the line of a fault or `-`, and how many items a header has and how many events there are.
    fn add_reading(&mut self, reading: &ParsedLines) {
        match reading.fault {
            Some(line) => self.add_number(b"", line),
            None => self.add(b" -"),
        }
        self.add_number(b"", reading.header);
        self.add_number(b"", reading.events());
    }
}
