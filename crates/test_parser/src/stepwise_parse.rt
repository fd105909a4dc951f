//! The product's reading of a text, event by event, as long as each is in the line that the one before it gave.
use crate::parsed_lines::ParsedLines;
use pd_lex::Place;
use pd_script::{Event, Header, MAX_EVENTS, NextEvent, next_event, read_header};
use pd_text::Lines;
use std::alloc::Global;

#[derive(Drop)]
pub struct StepwiseParse {
    pub reading: ParsedLines,
    /// The place after the header.
    pub start: Place,
    pub events: Vec<EventStep>,
    /// Where the next event is to stand, and in which line if that is known.
    place: Place,
    expected: Option<usize>,
}

/// An event's line, the place after it, and the line of what follows if it isn't the end.
#[derive(Clone, Copy)]
pub struct EventStep {
    pub line: usize,
    pub after: Place,
    pub lookahead_line: Option<usize>,
}

impl StepwiseParse {
    pub fn new(alloc: Global) -> StepwiseParse {
        let start = Place { line: 1, at: 0 };
        StepwiseParse {
            reading: ParsedLines::new(alloc),
            start,
            events: Vec::new(alloc),
            place: start,
            expected: None,
        }
    }

    /// Reads a text, of copies. Where an event isn't at the place of the one before, in the line of its reach, the
    /// reading ends without a fault.
    pub fn read(&mut self, alloc: Global, lines: &Lines) {
        self.reading.clear();
        self.events.clear();
        match read_header(alloc, lines) {
            Ok(header) => self.begin(&header),
            Err(_) => self.reading.is_short = true,
        }
        for _event in 0..=MAX_EVENTS {
            if !self.read_next(alloc, lines) {
                return;
            }
        }
    }

    /// Begins with a copy of the header.
    fn begin(&mut self, header: &Header) {
        match header.copy() {
            Ok(header) => {
                self.start = header.end();
                self.reading.add_header(&header);
            }
            Err(_) => self.reading.is_short = true,
        }
        self.place = self.start;
        self.expected = None;
    }

    /// Reads the next item, and returns whether to go on.
    fn read_next(&mut self, alloc: Global, lines: &Lines) -> bool {
        match next_event(alloc, lines, self.place) {
            Ok(NextEvent::Got(event, after, lookahead_line)) => {
                let is_end = match lookahead_line {
                    Some(line) => after.line == line,
                    None => after.line > lines.len(),
                };
                is_end && self.take(&event, after, lookahead_line)
            }
            Ok(NextEvent::Fault(line)) => {
                self.reading.fault = Some(line);
                false
            }
            Ok(NextEvent::End) => false,
            Err(_) => {
                self.reading.is_short = true;
                false
            }
        }
    }

    /// Takes an event, by a copy of it, and returns whether to go on.
    fn take(&mut self, event: &Event, after: Place, lookahead_line: Option<usize>) -> bool {
        match event.copy() {
            Ok(event) => self.add(event.line, after, lookahead_line),
            Err(_) => {
                self.reading.is_short = true;
                false
            }
        }
    }

    fn add(&mut self, line: usize, after: Place, lookahead_line: Option<usize>) -> bool {
        if self.expected.unwrap_or(line) != line {
            return false;
        }
        if self.events.len() >= MAX_EVENTS - 1 && lookahead_line.is_some() {
            self.reading.fault = lookahead_line;
            return false;
        }
        self.reading.add(line);
        if self
            .events
            .push(EventStep {
                line,
                after,
                lookahead_line,
            })
            .is_err()
        {
            self.reading.is_short = true;
        }
        self.place = after;
        self.expected = lookahead_line;
        true
    }
}
