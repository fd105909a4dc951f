//! The tokens of an event on its line.
use pd_lex::{Lexed, Place, Token, TokenKind, next_token};
use pd_script::{NextEvent, next_event};
use pd_text::{Lines, MAX_OCTETS};
use std::alloc::{AllocError, Global};

/// From an octet of a line up to another.
#[derive(Clone, Copy)]
pub struct Columns {
    /// How many octets come before it.
    pub from: usize,
    /// How many octets come before its end.
    pub to: usize,
}

/// A token of an event.
#[derive(Clone, Copy)]
pub struct EventToken {
    pub kind: TokenKind,
    /// The octet of a symbol, and 0 of any other token.
    pub symbol: u8,
    pub columns: Columns,
}

/// The tokens of an event, all of them on one line.
#[derive(Drop)]
pub struct EventTokens {
    /// The line, counted from 1.
    pub line: usize,
    pub tokens: Vec<EventToken>,
}

/// The tokens of the event after so many others from a place on; nothing where not all of them are on one line.
///
/// # Errors
/// `AllocError` where a growth is refused.
pub fn find_nth_event_tokens_if_single_line(
    alloc: Global,
    lines: &Lines,
    first: Place,
    passed: usize,
) -> Result<Option<EventTokens>, AllocError> {
    let mut from = first;
    for _ in 0..passed {
        from = place_after_event(alloc, lines, from)?;
    }
    let until = place_after_event(alloc, lines, from)?;
    tokens_between_if_on_one_line(alloc, lines, from, until)
}

/// The place of what follows the event at a place.
fn place_after_event(alloc: Global, lines: &Lines, place: Place) -> Result<Place, AllocError> {
    match next_event(alloc, lines, place)? {
        NextEvent::Got(_, after, _) => Ok(after),
        NextEvent::End | NextEvent::Fault(_) => Ok(place),
    }
}

fn tokens_between_if_on_one_line(
    alloc: Global,
    lines: &Lines,
    from: Place,
    until: Place,
) -> Result<Option<EventTokens>, AllocError> {
    let mut tokens = Vec::new(alloc);
    let mut place = from;
    let mut line = 0;
    for _ in 0..MAX_OCTETS {
        let Lexed::Token(token) = next_token(lines, place) else {
            break;
        };
        if !is_place_before(token.from, until) {
            break;
        }
        if tokens.len() == 0 {
            line = token.from.line;
        }
        if token.from.line != line || token.to.line != line {
            return Ok(None);
        }
        tokens.push(EventToken::from_lexed_token(&token))?;
        place = token.to;
    }
    Ok(Some(EventTokens { line, tokens }))
}

fn is_place_before(place: Place, other: Place) -> bool {
    place.line < other.line || (place.line == other.line && place.at < other.at)
}

impl EventToken {
    fn from_lexed_token(token: &Token<'_>) -> EventToken {
        EventToken {
            kind: token.kind,
            symbol: match token.kind {
                TokenKind::Symbol => token.symbol,
                _ => 0,
            },
            columns: Columns {
                from: token.from.at,
                to: token.to.at,
            },
        }
    }

    /// Whether it is a number in digits.
    pub fn is_integer_token(&self) -> bool {
        matches!(self.kind, TokenKind::Int)
    }

    /// Whether it ends the time of an event.
    fn ends_time(&self) -> bool {
        match self.kind {
            TokenKind::Symbol => matches!(self.symbol, b'<' | b'>'),
            TokenKind::Int | TokenKind::Decimal => false,
            _ => true,
        }
    }
}

impl EventTokens {
    /// The token after so many others.
    pub fn get(&self, number: usize) -> Option<EventToken> {
        self.tokens.get(number).copied()
    }

    /// From the first token to the last.
    pub fn columns(&self) -> Columns {
        self.columns_between(0, self.tokens.len().saturating_sub(1))
    }

    /// From one token to another, by their numbers.
    pub fn columns_between(&self, first: usize, last: usize) -> Columns {
        match (self.get(first), self.get(last)) {
            (Some(first), Some(last)) => Columns {
                from: first.columns.from,
                to: last.columns.to,
            },
            _ => Columns { from: 0, to: 0 },
        }
    }

    /// The number of the first token after the time.
    pub fn index_after_time(&self) -> usize {
        match self.tokens.iter().position(|token| token.ends_time()) {
            Some(number) => number,
            None => self.tokens.len(),
        }
    }

    /// Where the time stands.
    pub fn time_columns(&self) -> Columns {
        self.columns_between(0, self.index_after_time().saturating_sub(1))
    }
}

/// The octets of a line in a span.
pub fn octets_in_columns(octets: &[u8], columns: Columns) -> &[u8] {
    if columns.from <= columns.to && columns.to <= octets.len() {
        &octets[columns.from..columns.to]
    } else {
        &[]
    }
}

/// The octets of a line from one on.
pub fn octets_from(octets: &[u8], from: usize) -> &[u8] {
    octets_in_columns(
        octets,
        Columns {
            from,
            to: octets.len(),
        },
    )
}

/// Whether octets are blanks alone.
pub fn has_only_blanks(octets: &[u8]) -> bool {
    octets.trim_ascii_start().is_empty()
}
