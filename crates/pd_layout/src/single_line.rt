//! Events that are alone on their lines, without comments: their parts by octets, the same as their tokens give.
use crate::event_parts::{EventParts, TextPart, is_letter_or_underscore};
use crate::spans::TextSpan;
use pd_lex::Place;
use pd_text::Lines;

/// The parts of the event that begins at a place, where the next one begins at the start of the next line, and nothing in the
/// line could be a comment, a text in quotes, code or an option. Without an answer the tokens have to be read.
pub fn parts_if_event_is_plain_single_line(
    lines: &Lines,
    from: Place,
    until: Place,
) -> Option<EventParts> {
    if until.at != 0 || from.line.saturating_add(1) != until.line {
        return None;
    }
    let line = lines.line(from.line)?;
    let rest = line.get(from.at..)?;
    let time = rest
        .iter()
        .take_while(|octet| is_time_octet_or_blank(octet))
        .count();
    match rest.get(time..) {
        Some([b'<' | b'>', packet @ ..]) => packet_parts_if_without_special_octets(
            &rest[..time],
            packet,
            from,
        ),
        _ => call_parts_if_without_special_octets(line, from),
    }
}

/// The parts of a packet with this time before its direction, and this after it.
fn packet_parts_if_without_special_octets(
    time: &[u8],
    packet: &[u8],
    from: Place,
) -> Option<EventParts> {
    let is_special = |octet: &u8| matches!(octet, b'/' | b'"' | b'`' | b'%' | b'-');
    if packet.iter().any(is_special) {
        return None;
    }
    let after = from.at.saturating_add(time.len()).saturating_add(1);
    Some(EventParts::of_packet_with_end_and_time_end(
        from,
        from.at.saturating_add(len_without_trailing_blanks(time)),
        after.saturating_add(len_without_trailing_blanks(packet)),
    ))
}

/// The parts of an event that isn't a packet.
fn call_parts_if_without_special_octets(line: &[u8], from: Place) -> Option<EventParts> {
    let mut parts = EventParts::empty_at(from);
    for at in from.at..line.len() {
        match line[at] {
            b'/' | b'"' | b'`' | b'%' => return None,
            b'-' if line[at..].starts_with(b"--") => return None,
            b' ' | b'\t' | b'\r' => {}
            octet => {
                if is_letter_right_after_time_token(&parts, octet, at) {
                    return None;
                }
                parts.extend_part_by_token(octet, span_of_octet(from.line, at));
            }
        }
    }
    Some(parts)
}

/// How many octets there are without the blanks at the end.
fn len_without_trailing_blanks(octets: &[u8]) -> usize {
    let is_blank = |octet: &&u8| matches!(octet, b' ' | b'\t' | b'\r');
    let blanks = octets.iter().rev().take_while(is_blank).count();
    octets.len().saturating_sub(blanks)
}

/// Whether an octet may stand in a time, or is a blank beside it.
fn is_time_octet_or_blank(octet: &u8) -> bool {
    matches!(
        octet,
        b'0'..=b'9' | b'+' | b'.' | b'~' | b'*' | b' ' | b'\t' | b'\r'
    )
}

/// Whether a letter, which would begin a call, may be in the middle of a token.
fn is_letter_right_after_time_token(parts: &EventParts, octet: u8, at: usize) -> bool {
    parts.part_of_last_token() == TextPart::Time
        && parts.event.to.at == at
        && is_letter_or_underscore(octet)
}

/// An octet of a line.
fn span_of_octet(line: usize, at: usize) -> TextSpan {
    TextSpan {
        from: Place { line, at },
        to: Place {
            line,
            at: at.saturating_add(1),
        },
    }
}
