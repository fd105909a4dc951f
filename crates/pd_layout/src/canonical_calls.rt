//! Calls as they stand in recordings.
ghost use Rattle.std.specs.Prelude.{◌≡◌, IfOk, drop};
ghost use Rattle.pd_layout.specs.Canonical.{gap, after_octets, passes_at, note_end, note_or_gap, answered_at, starts_with_letter_digit_or_underscore, call_octets, call_line, error_of, answer_of};
ghost use Rattle.pd_layout.specs.Internal.{lines_of, closing_of};

use crate::comments::are_rest_and_later_lines_only_comments;
use crate::line_cursor::LineCursor;
use crate::outside_brackets::find_place_of_symbol_outside_brackets;
use pd_lex::Place;
use pd_print::{put_answer, put_time};
use pd_script::{ErrorName, Event, ExpectedResult};
use pd_seg::{Answer, Errno};
use pd_text::Lines;
use std::alloc::AllocError;

/// Whether octets are at the front of a line, and a gap after them.
pub fn has_prefix_and_gap(octets: &[u8], line: &[u8], lines: LineCursor<'_>) -> bool
    ensures { result ≡ after_octets octets.now (gap (lines_of lines.entry)) line.now }
{
    match line.strip_prefix(octets) {
        Some(rest) => are_rest_and_later_lines_only_comments(rest, lines),
        None => false,
    }
}

/// The rest of a line after so many octets.
fn rest_of_line_from(line: &[u8], at: usize) -> &[u8]
    ensures { result.now ≡ drop at line.now }
{
    if at < line.len() { &line[at..] } else { &[] }
}

/// Whether the end of a note is at a place, and a gap up to a line.
fn has_note_end_and_gap_at(lines: &Lines, until: usize, place: Place) -> bool
    ensures { result ≡ passes_at note_end lines.now until place }
{
    match LineCursor::new(lines, place.line.saturating_sub(1), until).split_first() {
        Some((line, after)) => has_prefix_and_gap(b")", rest_of_line_from(line, place.at), after),
        None => false,
    }
}

/// Whether a gap follows the answer to an equals sign at a place, or a note and a gap up to a line.
fn is_optional_note_then_gap_after_answer(
    lines: &Lines,
    until: usize,
    equals: Place,
    rest: &[u8],
    after: LineCursor<'_>,
) -> bool
    ensures { result ≡ note_or_gap lines.now until (closing_of lines.now equals) (lines_of after.entry) rest.now }
{
    if are_rest_and_later_lines_only_comments(rest, after) {
        return true;
    }
    if !rest.starts_with(b" (") {
        return false;
    }
    match find_place_of_symbol_outside_brackets(lines, equals, b')') {
        Some(closing) => has_note_end_and_gap_at(lines, until, closing),
        None => false,
    }
}

/// Whether an equals sign is at a place, an answer, a note or none, and a gap up to a line.
fn has_equals_answer_and_gap_at(answer: &[u8], lines: &Lines, until: usize, equals: Place) -> bool
    ensures { result ≡ answered_at answer.now lines.now until equals }
{
    let lines_between = LineCursor::new(lines, equals.line.saturating_sub(1), until);
    let Some((line, after)) = lines_between.split_first() else {
        return false;
    };
    let Some(rest) = rest_of_line_from(line, equals.at).strip_prefix(b"= ") else {
        return false;
    };
    match rest.strip_prefix(answer) {
        Some(rest) => is_optional_note_then_gap_after_answer(lines, until, equals, rest, after),
        None => false,
    }
}

/// Whether what is left of a line begins a call, whose equals sign is followed by an answer, a note or none, and a gap up to a
/// line.
fn is_call_with_answer_and_gap(
    answer: &[u8],
    lines: &Lines,
    from: usize,
    until: usize,
    rest: &[u8],
) -> bool
    ensures { result ≡ call_octets answer.now lines.now from until rest.now }
{
    if !starts_with_letter_digit_or_underscore(rest) {
        return false;
    }
    match find_place_of_symbol_outside_brackets(lines, Place::line_start(from), b'=') {
        Some(equals) => has_equals_answer_and_gap_at(answer, lines, until, equals),
        None => false,
    }
}

fn starts_with_letter_digit_or_underscore(rest: &[u8]) -> bool
    ensures { result ≡ starts_with_letter_digit_or_underscore rest.now }
{
    match rest {
        [octet, ..] => octet.is_ascii_alphanumeric() || *octet == b'_',
        [] => false,
    }
}

/// Whether the line of an event is a call with the answer that the script expects, and a gap up to a line; its time and its
/// answer are written into a buffer.
///
/// # Errors
/// `AllocError` where a growth is refused.
pub fn is_line_canonical_call_and_gap(
    text: &mut Vec<u8>,
    lines: &Lines,
    until: usize,
    event: &Event,
    expected_result: ExpectedResult,
    line: &[u8],
) -> Result<bool, AllocError>
    ensures { IfOk result (λ canonical. canonical ≡ call_line lines.now event.now.line until event.now.time expected_result line.now) }
{
    let Some(answer) = answer_if_int_or_known_error(expected_result) else {
        return Ok(false);
    };
    text.clear();
    put_time(text, event.time)?;
    let Some(rest) = line.strip_prefix(text.as_slice()) else {
        return Ok(false);
    };
    let Some(rest) = rest.strip_prefix(b" ") else {
        return Ok(false);
    };
    text.clear();
    put_answer(text, answer)?;
    Ok(is_call_with_answer_and_gap(text.as_slice(), lines, event.line, until, rest))
}

/// The answer that a result is.
fn answer_if_int_or_known_error(expected_result: ExpectedResult) -> Option<Answer>
    ensures { result ≡ answer_of expected_result }
{
    match expected_result {
        ExpectedResult::Int(number) => Some(Answer::Number(number)),
        ExpectedResult::Negative(1, Some(name)) => match errno_of_name(name) {
            Some(error) => Some(Answer::Error(error)),
            None => None,
        },
        ExpectedResult::Negative(_, _) | ExpectedResult::Hex(_) => None,
    }
}

/// The error of a name.
fn errno_of_name(name: ErrorName) -> Option<Errno>
    ensures { result ≡ error_of name }
{
    match name {
        ErrorName::Ebadf => Some(Errno::Ebadf),
        ErrorName::Einval => Some(Errno::Einval),
        ErrorName::Eagain => Some(Errno::Eagain),
        ErrorName::Epipe => Some(Errno::Epipe),
        ErrorName::Unknown => None,
    }
}
