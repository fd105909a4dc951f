//! Places in a text, and what is left of their lines.
ghost use Rattle.std.specs.Prelude.{◌≡◌, ◌+◌, ◌≤◌, ◌<◌, ◌^◌, length, drop, IfSome, IfNone};
ghost use Rattle.std.specs.List.{prefix_len};
ghost use Rattle.pd_lex.specs.Octets.{is_blank};
ghost use Rattle.pd_lex.specs.Places.{line_at, IsPlace};

use crate::scan::is_blank;
use crate::token::Place;
use pd_text::Lines;

/// How many octets of a line are before the first that is no blank, from one on; no fewer than
/// before that one.
#[inline(always)]
pub fn first_nonblank_from(line: &[u8], at: usize) -> usize
    ensures place { result ≡ at + prefix_len is_blank (drop at line.now) }
    ensures small { length line.now < 2 ^ 64 }
{
    let mut at = at;
    'blanks: while at < line.len() && is_blank(line[at]) {
        at += 1;
    }
    at
}

/// The rest of the line of a place; `None` past the last line.
pub fn rest_of_line<'a>(lines: &'a Lines, place: Place) -> Option<&'a [u8]>
    requires { IsPlace lines.now place }
    ensures rest { IfSome result (λ r. r.now ≡ drop place.at (line_at lines.now place.line)) }
    ensures line { IfSome result (λ r. place.line ≤ length lines.now) }
    ensures few { length lines.now ≤ 4096 }
    ensures small { length (line_at lines.now place.line) < 2 ^ 64 }
    ensures past { IfNone result (length lines.now < place.line) }
{
    match lines.line(place.line) {
        Some(line) => Some(&line[place.at..]),
        None => None,
    }
}

/// The octets of a line, counted from 1; none past the last line.
pub fn line_or_empty<'a>(lines: &'a Lines, number: usize) -> &'a [u8]
    requires { 1 ≤ number }
    ensures { result.now ≡ line_at lines.now number }
{
    match lines.line(number) {
        Some(octets) => octets,
        None => &[],
    }
}
