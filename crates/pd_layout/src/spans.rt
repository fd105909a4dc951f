//! Parts of a text, from a place to another.
use pd_lex::Place;
use pd_text::Lines;
use std::alloc::AllocError;

/// From a place of a text up to another.
#[derive(Clone, Copy)]
pub struct TextSpan {
    /// The place of its first octet.
    pub from: Place,
    /// The place after its last octet.
    pub to: Place,
}

/// Whether a place is before another.
pub fn is_place_before_other(place: Place, other: Place) -> bool {
    place.line < other.line || (place.line == other.line && place.at < other.at)
}

/// The place after the last line of a text.
pub fn place_after_last_line(lines: &Lines) -> Place {
    Place::line_start(lines.len() + 1)
}

/// Adds the octets of an extent, lines parted by newlines.
///
/// # Errors
/// `AllocError` where a growth is refused.
pub fn put_text_span(
    out: &mut Vec<u8>,
    lines: &Lines,
    text_span: TextSpan,
) -> Result<(), AllocError> {
    for number in text_span.from.line..=text_span.to.line {
        let Some(line) = lines.line(number) else {
            return Ok(());
        };
        let mut from = 0;
        if number == text_span.from.line {
            from = text_span.from.at;
        } else {
            out.push(b'\n')?;
        }
        let to = if number == text_span.to.line {
            text_span.to.at
        } else {
            line.len()
        };
        if from <= to && to <= line.len() {
            out.extend_from_slice(&line[from..to])?;
        }
    }
    Ok(())
}
