//! Events, each with what decided it.
ghost use Rattle.std.specs.Prelude.{◌≡◌, count_by, IfOk};
ghost use Rattle.pd_reparse.specs.Reading.{is_decided_within_first_lines, ReachesRise};
ghost use Rattle.pd_reparse.specs.declared.parsed_event.ParsedEvent.{ParsedEvent};

use crate::shared_list::{SharedList, TryClone};
use pd_lex::Place;
use pd_script::Event;
use std::alloc::AllocError;

/// An event of a script, and what follows it in the text.
#[derive(Drop)]
pub struct ParsedEvent {
    /// The event.
    pub event: Event,
    /// The last line that decided it: the line of the token that follows it; none where the end of
    /// the text follows it.
    pub lookahead_line: Option<usize>,
    /// Where that token stands, and reading goes on; at the end of the text the start of the line
    /// after the last.
    pub after: Place,
}

impl ParsedEvent {
    /// An event in whose place others are read.
    pub fn placeholder() -> ParsedEvent {
        ParsedEvent {
            event: Event::placeholder(),
            lookahead_line: None,
            after: Place { line: 0, at: 0 },
        }
    }

    /// Whether one of the first `same` lines decided it.
    pub fn is_decided_within_first_lines(&self, same: usize) -> bool
        ensures { result ≡ is_decided_within_first_lines same self.now.lookahead_line }
    {
        match self.lookahead_line {
            Some(line) => line <= same,
            None => false,
        }
    }
}

impl TryClone for ParsedEvent {
    fn try_clone(&self) -> Result<ParsedEvent, AllocError> {
        Ok(ParsedEvent {
            event: self.event.copy()?,
            lookahead_line: self.lookahead_line,
            after: self.after,
        })
    }
}

/// How many of the events one of the first `same` lines decided. It begins at the last, since those that it passes over
/// are read again.
pub fn count_events_decided_within_first_lines(
    events: &SharedList<ParsedEvent>,
    same: usize,
) -> usize
    requires { ReachesRise events.now }
    ensures { result ≡ count_by (λ (d : ParsedEvent). is_decided_within_first_lines same d.lookahead_line) events.now }
{
    let mut count = events.len();
    'later: while count > 0 {
        if events.at(count - 1).is_decided_within_first_lines(same) {
            return count;
        }
        count -= 1;
    }
    0
}
