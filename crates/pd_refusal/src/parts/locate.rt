//! Where parts of a text stand, and how they are shown.
ghost use Rattle.std.specs.Prelude.{◌≡◌, IfOk, take, drop};
ghost use Rattle.pd_lex.specs.Lexing.{items};
ghost use Rattle.pd_refusal.specs.Parts.{place_of_event_after_passed, before_first_token, found, place_of_part_or_from, line_or_empty, IsShownAt};

use crate::escape::escaped;
use crate::parts::nesting::Nesting;
use crate::parts::rule_part::RulePart;
use crate::parts::token_roles::TokenRole;
use pd_lex::{Lexed, Place, next_token};
use pd_reparse::Reading;
use pd_text::Lines;
use std::alloc::{AllocError, Global};

/// Where a part of a text begins, in the line as it is shown.
#[derive(Drop)]
pub struct ShownPart {
    /// The line in which it begins, counted from 1.
    pub line: usize,
    /// The octets of that line as they are shown, all of them.
    pub text: Vec<u8>,
    /// In which column of `text` it begins, counted from 0.
    pub column: usize,
}

/// Where the event of a text that was read stands that comes after so many others: at the token after those, the first one after
/// the header.
pub fn place_of_event_after_passed(reading: &Reading, passed: usize) -> Place
    ensures { result ≡ place_of_event_after_passed reading.now passed }
{
    let end = reading.header().end();
    if passed == 0 {
        return end;
    }
    match reading.events().get(passed - 1) {
        Some(parsed_event) => parsed_event.after,
        None => end,
    }
}

/// Where the first such part from a place on begins; that place where there is none.
pub fn place_of_part_or_from(lines: &Lines, from: Place, part: RulePart) -> Place
    ensures { result ≡ place_of_part_or_from part lines.now from }
{
    match find_part(lines, from, part) {
        Some(place) => place,
        None => from,
    }
}

/// Where the first token from a place on stands with which a part begins.
fn find_part(lines: &Lines, from: Place, part: RulePart) -> Option<Place>
    ensures { result ≡ found part before_first_token (items lines.now from) }
{
    let mut place = from;
    let mut before = Nesting::before_first_token();
    'tokens: loop {
        let Lexed::Token(token) = next_token(lines, place) else {
            return None;
        };
        let role = TokenRole::of(&token);
        if part.begins_with_token(before, role) {
            return Some(token.from);
        }
        before = before.after_token(role);
        place = token.to;
    }
}

/// How a text is shown at a place.
///
/// # Errors
/// `AllocError` where a growth is refused.
pub fn shown_line_at(alloc: Global, lines: &Lines, place: Place) -> Result<ShownPart, AllocError>
    ensures { IfOk result (IsShownAt lines.now place) }
{
    let line = line_or_empty(lines, place.line);
    let text = escaped(alloc, line)?;
    let front = escaped(alloc, first_octets(line, place.at))?;
    Ok(ShownPart {
        line: place.line,
        text,
        column: front.len(),
    })
}

/// The rest of a line from a place on.
pub fn rest_of_line_at(lines: &Lines, place: Place) -> &[u8]
    ensures { result.now ≡ drop place.at (line_or_empty lines.now place.line) }
{
    let line = line_or_empty(lines, place.line);
    &line[place.at.min(line.len())..]
}

/// A line of a text, counted from 1; nothing outside of it.
fn line_or_empty(lines: &Lines, number: usize) -> &[u8]
    ensures { result.now ≡ line_or_empty lines.now number }
{
    match lines.line(number) {
        Some(line) => line,
        None => &[],
    }
}

/// The first octets of a line, so many.
fn first_octets(line: &[u8], count: usize) -> &[u8]
    ensures { result.now ≡ take count line.now }
{
    &line[..count.min(line.len())]
}
