//! An event as it stands on its line.
use crate::replacements::second_column_if_aligned_with_neighbours;
use crate::tokens::{
    Columns, EventTokens, find_nth_event_tokens_if_single_line, has_only_blanks, octets_from,
    octets_in_columns,
};
use pd_script::{Event, Parsed};
use pd_text::Lines;
use std::alloc::{AllocError, Global};

/// An event, all of it on one line.
#[derive(Drop)]
pub struct EventLine<'a> {
    pub alloc: Global,
    /// The text.
    pub lines: &'a Lines,
    /// The event.
    pub event: &'a Event,
    /// Its line, counted from 1.
    pub line: usize,
    /// The octets of that line.
    pub octets: &'a [u8],
    /// The tokens of the event.
    pub tokens: EventTokens,
}

impl<'a> EventLine<'a> {
    /// The event after so many others of a text; nothing where not all of it is on one line.
    ///
    /// # Errors
    /// `AllocError` where a growth is refused.
    pub fn find_nth_event_if_on_one_line(
        alloc: Global,
        lines: &'a Lines,
        parsed: &'a Parsed,
        passed: usize,
    ) -> Result<Option<EventLine<'a>>, AllocError> {
        let Some(event) = parsed.events.as_slice().get(passed) else {
            return Ok(None);
        };
        let Some(tokens) = find_nth_event_tokens_if_single_line(
            alloc,
            lines,
            parsed.header.end(),
            passed,
        )?
        else {
            return Ok(None);
        };
        let line = tokens.line;
        let Some(octets) = lines.line(line) else {
            return Ok(None);
        };
        Ok(Some(EventLine {
            alloc,
            lines,
            event,
            line,
            octets,
            tokens,
        }))
    }

    /// Where the event stands on its line.
    pub fn columns(&self) -> Columns {
        self.tokens.columns()
    }

    /// The column of what follows the time, if lines beside this one have one.
    pub fn column_after_time_if_neighbours_align(&self) -> Option<usize> {
        if self.columns().from == 0 {
            second_column_if_aligned_with_neighbours(self.lines, self.line, self.octets)
        } else {
            None
        }
    }

    /// The octets before the event on its line.
    pub fn octets_before(&self) -> &'a [u8] {
        let columns = Columns {
            from: 0,
            to: self.columns().from,
        };
        octets_in_columns(self.octets, columns)
    }

    /// The octets after it there.
    pub fn octets_after(&self) -> &'a [u8] {
        octets_from(self.octets, self.columns().to)
    }

    /// Whether nothing but blanks is before it.
    pub fn is_first_on_line(&self) -> bool {
        has_only_blanks(self.octets_before())
    }

    /// Whether nothing but blanks is after it.
    pub fn is_last_on_line(&self) -> bool {
        has_only_blanks(self.octets_after())
    }

    /// Whether nothing but blanks or a comment is after it.
    pub fn is_last_besides_comment(&self) -> bool {
        self.is_last_on_line() || self.octets_after().trim_ascii_start().starts_with(b"//")
    }

    /// From which octet of its line on it stands, with the blanks before it where it is the first.
    pub fn start_column_including_indent_if_first(&self) -> usize {
        if self.is_first_on_line() {
            0
        } else {
            self.columns().from
        }
    }

    /// The line up to the end of the event.
    pub fn line_through_event(&self) -> &'a [u8] {
        let columns = Columns {
            from: 0,
            to: self.columns().to,
        };
        octets_in_columns(self.octets, columns)
    }

    /// The line up to the end of the event, or of the comment that ends the line after it.
    pub fn line_through_event_or_trailing_comment(&self) -> &'a [u8] {
        if self.is_last_besides_comment() {
            self.octets
        } else {
            self.line_through_event()
        }
    }
}
