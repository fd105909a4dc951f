//! The next event of a text, decided by what follows it.
ghost use Rattle.std.specs.Prelude.{◌≡◌, IfOk};
ghost use Rattle.pd_lex.specs.Lexing.{items};
ghost use Rattle.pd_script.specs.Next.{next_in, lookahead_line_of, with_event, IsNextEvent, GoesOn, LeavesNext};

use crate::cursor::Cursor;
use crate::parse_error::ParseError;
use crate::script_events::Event;
use pd_lex::{Place, law_lexing_resumes_at_token_end};
use pd_text::Lines;
use std::alloc::{AllocError, Global};
use std::marker::Model;

/// The next item among the events of a text.
#[derive(Drop)]
pub enum NextEvent {
    /// An event that another one or the end follows; the place of what follows it, at the end of
    /// the text the start of the line after the last; and its reach, the line of the token that
    /// follows it, if one does.
    Got(Event, Place, Option<usize>),
    /// The end of the text.
    End,
    /// The line of the first token at which no event goes on, or which follows an event and begins
    /// none.
    Fault(usize),
}

/// The same, where the event is in a place of its own.
#[derive(Clone, Copy)]
pub enum NextEventStatus {
    /// The place and the reach of an event that another one or the end follows, as of `NextEvent`.
    After(Place, Option<usize>),
    /// The end of the text.
    End,
    /// The line of the fault, as of `NextEvent`.
    Fault(usize),
}

/// A reader of the events of a text.
#[derive(Drop)]
pub struct EventReader<'a> {
    /// The tokens that are left.
    cursor: Cursor<'a>,
}

impl<'a> Model for EventReader<'a> {
    ghost use Rattle.std.specs.Prelude.{List};
    ghost use Rattle.pd_lex.specs.Tokens.{Item};

    ghost Value = { List Item };

    ghost view = { λ r. r.cursor };
}

impl<'a> EventReader<'a> {
    /// A reader of the events from a place of a text on.
    pub fn at(lines: &'a Lines, place: Place) -> EventReader<'a>
        ensures { result ≡ items lines.now place }
    {
        EventReader {
            cursor: Cursor::at(lines, place),
        }
    }

    /// Reads the next event in the place of another; what is there is no event of the text where none is answered.
    ///
    /// # Errors
    /// `AllocError` where a growth is refused.
    #[inline(always)]
    pub fn read_next_event_into(
        &mut self,
        alloc: Global,
        event: &mut Event,
    ) -> Result<NextEventStatus, AllocError>
        ensures next { IfOk result (λ next. with_event event.new next ≡ next_in self.old) }
        ensures left { IfOk result (λ next. LeavesNext (with_event event.new next) self.new self.old) }
    {
        self.cursor.read_event_into_giving_status(alloc, event)
    }
}

impl<'a> Cursor<'a> {
    /// The line of the next token, if there is one.
    pub fn line_of_next_token_if_any(&self) -> Option<usize>
        ensures { result ≡ lookahead_line_of self.now }
    {
        if self.is_end() {
            None
        } else {
            Some(self.line())
        }
    }

    /// Takes the next event in the place of another.
    ///
    /// # Errors
    /// `AllocError` where a growth is refused.
    #[inline(always)]
    #[tactic(auto, unfolding(crate::specs::Next::next_in))]
    pub fn read_event_into_giving_status(
        &mut self,
        alloc: Global,
        event: &mut Event,
    ) -> Result<NextEventStatus, AllocError>
        ensures next { IfOk result (λ next. with_event event.new next ≡ next_in self.old) }
        ensures left { IfOk result (λ next. LeavesNext (with_event event.new next) self.new self.old) }
    {
        if self.is_end() {
            return Ok(NextEventStatus::End);
        }
        if !self.starts_event() {
            return Ok(NextEventStatus::Fault(self.line()));
        }
        match self.take_event_into(alloc, event) {
            Ok(()) => {}
            Err(ParseError::Syntax) => return Ok(NextEventStatus::Fault(self.line())),
            Err(ParseError::OutOfMemory) => return Err(AllocError),
        }
        let lookahead_line = self.line_of_next_token_if_any();
        if lookahead_line.is_some() && !self.starts_event() {
            return Ok(NextEventStatus::Fault(self.line()));
        }
        Ok(NextEventStatus::After(self.place_of_next_token_or_end(), lookahead_line))
    }

    /// Takes the next event.
    ///
    /// # Errors
    /// As for `read_event`.
    pub fn next_event(&mut self, alloc: Global) -> Result<NextEvent, AllocError>
        ensures next { IfOk result (λ next. next ≡ next_in self.old) }
        ensures left { IfOk result (λ next. LeavesNext next self.new self.old) }
    {
        let mut event = Event::placeholder();
        Ok(
            match self.read_event_into_giving_status(alloc, &mut event)? {
                NextEventStatus::After(place, lookahead_line) => NextEvent::Got(
                    event,
                    place,
                    lookahead_line,
                ),
                NextEventStatus::End => NextEvent::End,
                NextEventStatus::Fault(line) => NextEvent::Fault(line),
            },
        )
    }
}

/// The next event of a text from a place on.
///
/// It is an event where one is there and another one or the end follows it. From the place
/// after it on stands what is left.
///
/// # Errors
/// `AllocError` where a growth is refused.
pub fn next_event(alloc: Global, lines: &Lines, place: Place) -> Result<NextEvent, AllocError>
    ensures next { IfOk result (λ next. next ≡ next_in (items lines.now place)) }

    // By the grammar.
    ensures spelled { IfOk result (IsNextEvent lines.now place) }
    ensures goes_on { IfOk result (GoesOn lines.now place) }
{
    // The law of tokens does no work: that what is left is at its place rests on it.
    law_lexing_resumes_at_token_end();
    lines.law_invariant();
    let next = Cursor::at(lines, place).next_event(alloc)?;
    Ok(next)
}
