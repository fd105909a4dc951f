//! Where on a line stands what begins no token.
use pd_lex::Place;
use pd_text::Lines;

/// Blanks and comments of a line, gone over.
#[derive(Clone, Copy)]
struct BlankScan {
    /// Whether a comment goes on after the line.
    is_open: bool,
    /// How many octets of the line are before what follows them, or before the comment.
    column: usize,
}

/// In which column of a line something begins no token, where blanks and comments alone are between a place and it.
pub fn column_of_bad_token(lines: &Lines, place: Place, line: usize) -> usize {
    let mut gap = BlankScan {
        is_open: false,
        column: 0,
    };
    let mut at = place.at;
    for number in place.line..line.saturating_add(1) {
        let octets = lines.line(number).unwrap_or(&[]);
        gap = skip_blanks_up_to_token_or_open_comment(octets, at, gap.is_open);
        at = 0;
    }
    gap.column
}

/// Goes over blanks and comments of a line from a column on, within a comment or not.
fn skip_blanks_up_to_token_or_open_comment(line: &[u8], at: usize, is_inside: bool) -> BlankScan {
    let mut is_open = is_inside;
    let mut column = 0;
    let mut rest = &line[at.min(line.len())..];
    'octets: loop {
        match rest {
            [b'*', b'/', tail @ ..] if is_open => {
                is_open = false;
                rest = tail;
            }
            [_, tail @ ..] if is_open => rest = tail,
            [b' ' | b'\t' | b'\r', tail @ ..] => rest = tail,
            [b'/', b'*', tail @ ..] => {
                is_open = true;
                column = line.len().saturating_sub(rest.len());
                rest = tail;
            }
            [] if is_open => return BlankScan { is_open, column },
            _ => {
                let column = line.len().saturating_sub(rest.len());
                return BlankScan { is_open, column };
            }
        }
    }
}
