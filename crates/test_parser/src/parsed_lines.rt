//! The reading of a text as line numbers: where header items and events begin, how many these are, and the fault's.
use pd_script::{Header, Parsed, parse};
use pd_text::Lines;
use std::alloc::Global;

#[derive(Drop)]
pub struct ParsedLines {
    /// The line at which no script goes on.
    pub fault: Option<usize>,
    /// How many options and commands are before the events.
    pub header: usize,
    /// Their lines, and then those of the events, before a fault of those whose next token is before it.
    pub lines: Vec<usize>,
    /// Whether no memory was found for some of them.
    pub is_short: bool,
}

impl ParsedLines {
    pub fn new(alloc: Global) -> ParsedLines {
        ParsedLines {
            fault: None,
            header: 0,
            lines: Vec::new(alloc),
            is_short: false,
        }
    }

    /// Begins anew.
    pub fn clear(&mut self) {
        self.fault = None;
        self.header = 0;
        self.lines.clear();
    }

    pub fn is_same(&self, other: &ParsedLines) -> bool {
        self.fault == other.fault
            && self.header == other.header
            && self.lines.as_slice() == other.lines.as_slice()
    }

    /// How many events there are.
    pub fn events(&self) -> usize {
        self.lines.len().saturating_sub(self.header)
    }

    /// Adds the line of a header item or an event.
    pub fn add(&mut self, line: usize) {
        if self.lines.push(line).is_err() {
            self.is_short = true;
        }
    }

    pub fn add_header(&mut self, header: &Header) {
        self.header = header.len();
        for item in header.as_slice() {
            self.add(item.line);
        }
    }

    /// Has the product read a text at once.
    pub fn read_whole(&mut self, alloc: Global, lines: &Lines) {
        match parse(alloc, lines) {
            Ok(parsed) => self.take(&parsed),
            Err(_) => self.is_short = true,
        }
    }

    fn take(&mut self, parsed: &Parsed) {
        self.clear();
        self.fault = parsed.fault;
        self.add_header(&parsed.header);
        for event in parsed.events.as_slice() {
            self.add(event.line);
        }
    }
}
