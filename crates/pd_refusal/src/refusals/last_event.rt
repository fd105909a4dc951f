//! The rest of a refused text from its last event on, up to the refused line.
ghost use Rattle.std.specs.Prelude.{◌≡◌};
ghost use Rattle.pd_refusal.specs.MarkedPlace.{mark_before_if_event_incomplete};

use crate::escape::clamped_part;
use crate::refusals::blanks::column_of_bad_token;
use crate::refusals::probe::{begins_no_script, is_script};
use pd_lex::{Lexed, Place, Token, TokenKind, next_token};
use pd_script::{MAX_EVENTS, NextEvent, next_event, read_header};
use pd_text::{Lines, MAX_OCTETS};
use std::alloc::{AllocError, Global};

/// Where the event at a place ends, and whether another one follows; nothing where there is none.
///
/// # Errors
/// `AllocError` where a growth is refused.
fn event_end_and_has_next(
    alloc: Global,
    lines: &Lines,
    place: Place,
) -> Result<Option<(Place, bool)>, AllocError> {
    match next_event(alloc, lines, place)? {
        NextEvent::Got(_, after, lookahead_line) => Ok(Some((after, lookahead_line.is_some()))),
        NextEvent::End | NextEvent::Fault(_) => Ok(None),
    }
}

/// An event that a text may have before the remnant: only how many there are matters to the grammar.
const SOME_EVENT: &[u8] = b"*``";

/// A token of the remnant.
#[derive(Clone, Copy)]
struct LastEventToken {
    /// Where it begins in the text.
    from: Place,
    /// Where it ends in the text.
    to: Place,
    /// Where it ends among the remnant's octets.
    end: usize,
    /// Whether an event may begin with it.
    can_begin_event: bool,
    /// Its octet, if it is a symbol, else 0.
    symbol: u8,
    /// The number, if it is a whole one.
    number: Option<u64>,
}

/// The tokens of a text from the last event that is read on, up to those that begin on the refused line.
#[derive(Drop)]
pub struct LastEvent {
    /// The tokens' octets in one line, apart from each other where they are apart in the text, with as many events before
    /// them as make a difference.
    octets: Vec<u8>,
    /// How many of the octets are those events.
    opening: usize,
    /// The tokens in order.
    tokens: Vec<LastEventToken>,
    /// The place after the last token.
    after: Place,
}

/// How many events of a text are followed by another one, and where the next event begins; the last that a script may have
/// isn't counted.
fn count_events_before_last_and_its_place(
    alloc: Global,
    lines: &Lines,
) -> Result<(usize, Place), AllocError> {
    let mut place = read_header(alloc, lines)?.end();
    for events in 0..MAX_EVENTS - 1 {
        match event_end_and_has_next(alloc, lines, place)? {
            Some((after, true)) => place = after,
            _ => return Ok((events, place)),
        }
    }
    Ok((MAX_EVENTS - 1, place))
}

/// How many events make the same difference as these: whether there is one, and whether only one more may follow.
fn least_equivalent_event_count(events: usize) -> usize {
    if events == MAX_EVENTS - 1 {
        events
    } else {
        events.min(1)
    }
}

/// A token's octets; a string, a command and code are empty.
fn token_octets_with_emptied_literals<'a>(token: &Token<'a>) -> &'a [u8] {
    match token.kind {
        TokenKind::Str => b"\"\"",
        TokenKind::Cmd => b"``",
        TokenKind::Code => b"%{}%",
        _ => token.text,
    }
}

/// Whether an event may begin with a token.
fn can_begin_event(token: &Token<'_>) -> bool {
    match token.kind {
        TokenKind::Int | TokenKind::Decimal => true,
        TokenKind::Symbol => token.symbol == b'+' || token.symbol == b'*',
        _ => false,
    }
}

/// Where a refused token is marked, by where the token before it ends: there, where the next event begins in a later line and
/// what is before it is no whole script; else at itself.
fn mark_before_if_event_incomplete(
    refused: Place,
    before: Place,
    can_begin_event: bool,
    is_whole: bool,
) -> Place
    ensures { result ≡ mark_before_if_event_incomplete refused before can_begin_event is_whole }
{
    if can_begin_event && !is_whole && before.line < refused.line {
        before
    } else {
        refused
    }
}

impl LastEvent {
    /// The remnant of a text that is refused at a line.
    ///
    /// # Errors
    /// `AllocError` where a growth is refused.
    pub fn read(alloc: Global, lines: &Lines, line: usize) -> Result<LastEvent, AllocError> {
        let (events, place) = count_events_before_last_and_its_place(alloc, lines)?;
        let mut last_event = LastEvent {
            octets: Vec::new(alloc),
            opening: 0,
            tokens: Vec::new(alloc),
            after: place,
        };
        for _ in 0..least_equivalent_event_count(events) {
            last_event.octets.extend_from_slice(SOME_EVENT)?;
        }
        last_event.opening = last_event.octets.len();
        for _ in 0..MAX_OCTETS {
            match next_token(lines, last_event.after) {
                Lexed::Token(token) if token.from.line <= line => last_event.push_token(&token)?,
                _ => break,
            }
        }
        Ok(last_event)
    }

    fn push_token(&mut self, token: &Token) -> Result<(), AllocError> {
        if token.from.line != self.after.line || token.from.at != self.after.at {
            self.octets.push(b' ')?;
        }
        self.octets
            .extend_from_slice(token_octets_with_emptied_literals(token))?;
        let number = match token.kind {
            TokenKind::Int => Some(token.number),
            _ => None,
        };
        let piece = LastEventToken {
            from: token.from,
            to: token.to,
            end: self.octets.len(),
            can_begin_event: can_begin_event(token),
            symbol: token.symbol,
            number,
        };
        self.tokens.push(piece)?;
        self.after = token.to;
        Ok(())
    }

    /// The octets of its first tokens, so many, with the events before them.
    pub fn prior_events_and_first_tokens(&self, count: usize) -> &[u8] {
        let end = match count.checked_sub(1) {
            Some(last) => match self.tokens.get(last) {
                Some(piece) => piece.end,
                None => self.octets.len(),
            },
            None => self.opening,
        };
        clamped_part(self.octets.as_slice(), 0, end)
    }

    /// How many of its tokens a script goes on with, found by halving.
    ///
    /// # Errors
    /// `AllocError` where a growth is refused.
    pub fn count_accepted_tokens(&self, alloc: Global) -> Result<usize, AllocError> {
        let mut low = 0;
        let mut high = self.tokens.len();
        'halves: while low < high {
            let middle = low + (high - low) / 2;
            if begins_no_script(alloc, self.prior_events_and_first_tokens(middle + 1))? {
                high = middle;
            } else {
                low = middle + 1;
            }
        }
        Ok(low)
    }

    /// Where on the refused line stands what is refused: a token, or what begins none; nothing at the end of the text.
    pub fn place_of_refused(&self, lines: &Lines, line: usize, accepted: usize) -> Option<Place> {
        if let Some(piece) = self.tokens.get(accepted) {
            return Some(piece.from);
        }
        match next_token(lines, self.after) {
            Lexed::Bad(_) => Some(Place {
                line,
                at: column_of_bad_token(lines, self.after, line),
            }),
            Lexed::Token(_) | Lexed::End => None,
        }
    }

    /// Where what is refused is marked: at itself, or where the line before it lacks something.
    ///
    /// # Errors
    /// `AllocError` where a growth is refused.
    pub fn place_to_mark(
        &self,
        alloc: Global,
        refused: Option<Place>,
        accepted: usize,
    ) -> Result<Option<Place>, AllocError> {
        let Some(before) = self.token_before(accepted) else {
            return Ok(refused);
        };
        let Some(piece) = self.tokens.get(accepted) else {
            return Ok(refused);
        };
        let is_whole = is_script(alloc, self.prior_events_and_first_tokens(accepted))?;
        Ok(Some(mark_before_if_event_incomplete(
            piece.from,
            before.to,
            piece.can_begin_event,
            is_whole,
        )))
    }

    /// The token before the one that is refused.
    fn token_before(&self, accepted: usize) -> Option<&LastEventToken> {
        self.tokens.get(accepted.checked_sub(1)?)
    }

    /// The octet of that token, if it is a symbol, else 0.
    pub fn symbol_before(&self, accepted: usize) -> u8 {
        match self.token_before(accepted) {
            Some(piece) => piece.symbol,
            None => 0,
        }
    }

    /// The end less the start, where the last of its first tokens are a packet's up to its length.
    pub fn expected_packet_length(&self, accepted: usize) -> Option<u64> {
        let first = accepted.checked_sub(4)?;
        let start = self.tokens.get(first)?;
        let colon = self.tokens.get(accepted - 3)?;
        let end = self.tokens.get(accepted - 2)?;
        let bracket = self.tokens.get(accepted - 1)?;
        if colon.symbol != b':' || bracket.symbol != b'(' {
            return None;
        }
        Some(end.number?.saturating_sub(start.number?))
    }
}
