//! Comments and empty lines as they stand in recordings.
ghost use Rattle.std.specs.Prelude.{◌≡◌, ◌≤◌, false, length, option_copied, IfSome};
ghost use Rattle.pd_layout.specs.Canonical.{find_rest_after_comment_end, open_comment_goes_on_if_nothing_after, comment, comment_goes_on_if_empty_or_comment, lead, trail, gap};
ghost use Rattle.pd_layout.specs.Internal.{lines_of};

use crate::line_cursor::LineCursor;
use crate::traces::is_single_trace_line;

/// Whether these octets follow an event in its line, and lines up to the next event after them.
pub fn are_rest_and_later_lines_only_comments(rest: &[u8], lines: LineCursor<'_>) -> bool
    ensures { result ≡ gap (lines_of lines.entry) rest.now }
{
    match comment_goes_on_if_trailing_comments_only(rest) {
        Some(inside) => are_empty_or_closed_comment_lines(inside, lines),
        None => false,
    }
}

/// Whether these are lines in front of an event, the first of them within a comment or not.
pub fn are_empty_or_closed_comment_lines(inside: bool, lines: LineCursor<'_>) -> bool
    ensures { result ≡ lead inside (lines_of lines.entry) }
{
    let mut inside = inside;
    let mut left = lines;
    while let Some((line, after)) = left.split_first() {
        match comment_goes_on_if_empty_or_comment(inside, line) {
            Some(more) => inside = more,
            None => return false,
        }
        left = after;
    }
    !inside
}

/// Whether a comment goes on after a line in front of an event, which may be within one; nothing where the line is neither
/// empty nor a comment.
fn comment_goes_on_if_empty_or_comment(inside: bool, line: &[u8]) -> Option<bool>
    ensures { result ≡ comment_goes_on_if_empty_or_comment inside line.now }
{
    if inside {
        open_comment_goes_on_if_nothing_after(line)
    } else if line.is_empty() {
        Some(false)
    } else {
        comment_goes_on_if_comment_or_indented_trace(line)
    }
}

/// Whether a comment alone in its line goes on after it; nothing where the line is none.
fn comment_goes_on_if_comment_or_indented_trace(line: &[u8]) -> Option<bool>
    ensures { result ≡ comment line.now }
{
    if let Some(rest) = line.strip_prefix(b" ") {
        return if is_single_trace_line(rest) {
            Some(false)
        } else {
            None
        };
    }
    if line.starts_with(b"//") {
        return if is_single_trace_line(line) {
            None
        } else {
            Some(false)
        };
    }
    match line.strip_prefix(b"/*") {
        Some(rest) => open_comment_goes_on_if_nothing_after(rest),
        None => None,
    }
}

/// Whether a comment that a line is in goes on after the line; nothing where something follows its end.
fn open_comment_goes_on_if_nothing_after(line: &[u8]) -> Option<bool>
    ensures { result ≡ open_comment_goes_on_if_nothing_after line.now }
{
    match find_rest_after_comment_end(line) {
        Some(rest) => if rest.is_empty() { Some(false) } else { None },
        None => Some(true),
    }
}

/// Whether the last comment after an event in its line goes on in the next one; nothing where something else is there.
fn comment_goes_on_if_trailing_comments_only(line: &[u8]) -> Option<bool>
    ensures { result ≡ trail false line.now }
{
    let mut rest = line;
    while let Some(comment) = rest.strip_prefix(b" /*") {
        match find_rest_after_comment_end(comment) {
            Some(after) => rest = after,
            None => return Some(true),
        }
    }
    if rest.is_empty() || rest.starts_with(b" //") {
        Some(false)
    } else {
        None
    }
}

/// The octets after the end of a comment in a line; nothing where the comment goes on in the next line.
fn find_rest_after_comment_end(line: &[u8]) -> Option<&[u8]>
    ensures what { option_copied result ≡ find_rest_after_comment_end line.now }
    ensures shorter { IfSome result (λ rest. length rest.now ≤ length line.now) }
{
    let mut rest = line;
    while let [_, others @ ..] = rest {
        if let Some(after) = rest.strip_prefix(b"*/") {
            return Some(after);
        }
        rest = others;
    }
    None
}
