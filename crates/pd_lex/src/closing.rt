//! The end of what was opened, within a line.
ghost use Rattle.std.specs.Prelude.{◌≡◌, ◌≤◌, length, option_copied, IfSome};
ghost use Rattle.pd_lex.specs.Pieces.{find_rest_after_octet_pair, rest_after_unescaped_quote, rest_after_backquote, rest_after_closing};

use crate::scan::Opener;

/// The octets after the first pair of these two.
fn find_rest_after_octet_pair(s: &[u8], x: u8, y: u8) -> Option<&[u8]>
    ensures after { option_copied result ≡ find_rest_after_octet_pair x y s.now }
{
    let mut rest = s;
    loop {
        match rest {
            [b, c, tail @ ..] if *b == x && *c == y => return Some(tail),
            [_, tail @ ..] => rest = tail,
            [] => return None,
        }
    }
}

/// The octets after the first backquote.
fn rest_after_backquote(s: &[u8]) -> Option<&[u8]>
    ensures after { option_copied result ≡ rest_after_backquote s.now }
{
    let mut rest = s;
    loop {
        match rest {
            [b'`', tail @ ..] => return Some(tail),
            [_, tail @ ..] => rest = tail,
            [] => return None,
        }
    }
}

/// The octets after the first `"` that no backslash takes.
fn rest_after_unescaped_quote(s: &[u8]) -> Option<&[u8]>
    ensures after { option_copied result ≡ rest_after_unescaped_quote s.now }
{
    let mut rest = s;
    loop {
        match rest {
            [b'"', tail @ ..] => return Some(tail),
            [b'\\', _, tail @ ..] => rest = tail,
            [_, tail @ ..] => rest = tail,
            [] => return None,
        }
    }
}

/// The octets after the end of the piece that was opened.
pub fn rest_after_closing(opener: Opener, s: &[u8]) -> Option<&[u8]>
    ensures after { option_copied result ≡ rest_after_closing opener s.now }
{
    match opener {
        Opener::Comment => find_rest_after_octet_pair(s, b'*', b'/'),
        Opener::Quote => rest_after_unescaped_quote(s),
        Opener::Backquote => rest_after_backquote(s),
        Opener::Brace => find_rest_after_octet_pair(s, b'}', b'%'),
    }
}
