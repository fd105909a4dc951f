//! The trivia between the tokens of a text: comments and blank lines.
use crate::spans::{TextSpan, is_place_before_other};
use pd_lex::Place;
use pd_text::{Lines, MAX_OCTETS};
use std::alloc::AllocError;

/// A part of a gap between tokens.
#[derive(Clone, Copy)]
pub enum TriviaPart {
    /// A comment.
    Comment(TextSpan),
    /// A line with nothing but blanks.
    Blank,
}

/// Adds the comments of a gap and its blank lines. The line of its first place is blank only where nothing is before
/// that place, and the line of its last place never is.
///
/// # Errors
/// `AllocError` where a growth is refused.
pub fn append_comments_and_blank_lines_of_gap(
    pieces: &mut Vec<TriviaPart>,
    lines: &Lines,
    gap: TextSpan,
) -> Result<(), AllocError> {
    let mut place = gap.from;
    let mut is_blank = gap.from.at == 0;
    for _ in 0..=2 * MAX_OCTETS {
        let Some(line) = lines.line(place.line) else {
            return Ok(());
        };
        let at = first_nonblank_from(line, place.at);
        place.at = at;
        if !is_place_before_other(place, gap.to) {
            return Ok(());
        }
        if at >= line.len() {
            if is_blank {
                pieces.push(TriviaPart::Blank)?;
            }
            place = Place::line_start(place.line.saturating_add(1));
            is_blank = true;
            continue;
        }
        is_blank = false;
        let to = comment_end(lines, place, line);
        pieces.push(TriviaPart::Comment(TextSpan { from: place, to }))?;
        place = to;
    }
    Ok(())
}

/// Where the first octet from a place of a line on stands that is no blank.
fn first_nonblank_from(line: &[u8], from: usize) -> usize {
    let mut at = from;
    while at < line.len() && matches!(line[at], b' ' | b'\t' | b'\r') {
        at += 1;
    }
    at
}

/// The place after the comment that begins at a place of a line.
fn comment_end(lines: &Lines, place: Place, line: &[u8]) -> Place {
    let rest = &line[place.at.min(line.len())..];
    if rest.starts_with(b"/*") {
        return block_comment_end(lines, place);
    }
    Place {
        line: place.line,
        at: line.len(),
    }
}

/// The place after the next `*/` that is at least two octets after a place.
fn block_comment_end(lines: &Lines, place: Place) -> Place {
    let mut from = place.at.saturating_add(2);
    for number in place.line..=lines.len() {
        if let Some(line) = lines.line(number) {
            for at in from..line.len() {
                if line[at..].starts_with(b"*/") {
                    return Place {
                        line: number,
                        at: at + 2,
                    };
                }
            }
        }
        from = 0;
    }
    Place::line_start(lines.len().saturating_add(1))
}
