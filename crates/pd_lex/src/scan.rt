//! The piece at the front of a line.
ghost use Rattle.std.specs.Prelude.{◌≡◌, ◌≤◌, ◌<◌, true, nat_lt, length};
ghost use Rattle.std.specs.List.{prefix_len, list_all};
ghost use Rattle.pd_lex.specs.Octets.{is_digit, is_hex_digit, is_word, is_blank, is_nonblank, is_not_newline};
ghost use Rattle.pd_lex.specs.Pieces.{is_hex_number, fraction_len, len_of_equals_and_option_value, word_piece, point_piece, dash_piece, piece, find_rest_after_octet_pair, rest_after_unescaped_quote, rest_after_backquote, rest_after_closing, opener_len};
ghost use Rattle.pd_lex.specs.Scanned.{piece_len, begins_name, run_piece, slash_piece, percent_piece};

use crate::classes::{OctetClass, class_of};
use crate::token::TokenKind;

/// The opening of a piece that may span lines.
#[derive(Clone, Copy)]
pub enum Opener {
    /// `/*`
    Comment,
    /// `"`
    Quote,
    /// A backquote.
    Backquote,
    /// `%{`
    Brace,
}

impl Opener {
    /// How many octets it has.
    pub fn len(self) -> usize
        ensures { result ≡ opener_len self }
    {
        match self {
            Opener::Comment | Opener::Brace => 2,
            Opener::Quote | Opener::Backquote => 1,
        }
    }
}

/// The piece at the front of a line.
#[derive(Clone, Copy)]
pub enum Piece {
    /// A blank or a line comment of so many octets.
    Blank(usize),
    /// A token of so many octets.
    Whole(TokenKind, usize),
    /// The beginning of what may span lines.
    Open(Opener),
    /// An octet that begins nothing.
    Stray,
}

/// Whether an octet is a digit.
pub fn is_digit(b: u8) -> bool
    ensures { result ≡ is_digit b }
{
    b.is_ascii_digit()
}

fn is_hex_digit(b: u8) -> bool
    ensures { result ≡ is_hex_digit b }
{
    b.is_ascii_hexdigit()
}

/// Whether an octet may be in a word: a digit, a letter or an underscore.
pub fn is_word_octet(b: u8) -> bool
    ensures { result ≡ is_word b }
{
    matches!(class_of(b), OctetClass::Digit | OctetClass::Letter)
}

/// Whether an octet is a space, a tab, a carriage return or a newline.
pub fn is_blank(b: u8) -> bool
    ensures { result ≡ is_blank b }
{
    b <= b' ' && matches!(b, b' ' | b'\t' | b'\r' | b'\n')
}

fn is_nonblank(b: u8) -> bool
    ensures { result ≡ is_nonblank b }
{
    !is_blank(b)
}

fn is_not_newline(b: u8) -> bool
    ensures { result ≡ is_not_newline b }
{
    b != b'\n'
}

#[inline(always)]
fn digits_len(s: &[u8]) -> usize
    ensures len { result ≡ prefix_len is_digit s.now }
    ensures within { result ≤ length s.now }
{
    s.iter().take_while(|b| is_digit(**b)).count()
}

/// How many octets of a word are at the front.
#[inline(always)]
pub fn word_len(s: &[u8]) -> usize
    ensures len { result ≡ prefix_len is_word s.now }
    ensures within { result ≤ length s.now }
{
    s.iter().take_while(|b| is_word_octet(**b)).count()
}

/// The same where the first octet begins a word, which is not looked at again.
#[inline(always)]
pub fn word_len_trusting_first_octet(s: &[u8]) -> usize
    requires { begins_name s.now ≡ true }
    ensures len { result ≡ prefix_len is_word s.now }
    ensures within { result ≤ length s.now }
{
    match s {
        [_, rest @ ..] => word_len(rest) + 1,
        [] => 0,
    }
}

fn nonblank_len(s: &[u8]) -> usize
    ensures len { result ≡ prefix_len is_nonblank s.now }
    ensures within { result ≤ length s.now }
{
    s.iter().take_while(|b| is_nonblank(**b)).count()
}

fn len_to_newline(s: &[u8]) -> usize
    ensures len { result ≡ prefix_len is_not_newline s.now }
    ensures within { result ≤ length s.now }
{
    s.iter().take_while(|b| is_not_newline(**b)).count()
}

fn are_hex_digits(s: &[u8]) -> bool
    ensures { result ≡ list_all is_hex_digit s.now }
{
    s.iter().all(|b| is_hex_digit(*b))
}

fn is_hex_number(s: &[u8]) -> bool
    ensures { result ≡ is_hex_number s.now }
{
    match s {
        [b'0', b'x', _, ..] => are_hex_digits(&s[2..]),
        _ => false,
    }
}

/// How many octets a point and the digits after it have at the front; 0 where no point or no digit is there.
#[inline(always)]
pub fn fraction_len(s: &[u8]) -> usize
    ensures len { result ≡ fraction_len s.now }
    ensures within { result ≤ length s.now }
{
    match s {
        [b'.', rest @ ..] => {
            let n = digits_len(rest);
            if n > 0 { n + 1 } else { 0 }
        }
        _ => 0,
    }
}

fn len_of_equals_and_option_value(s: &[u8]) -> usize
    ensures len { result ≡ len_of_equals_and_option_value s.now }
    ensures within { result ≤ length s.now }
{
    match s {
        [b'=', rest @ ..] => nonblank_len(rest) + 1,
        _ => 0,
    }
}

/// Whether it begins with a letter, a digit or `_`.
#[tactic(auto, using(crate::proofs::Words::goes_on_is))]
pub fn starts_with_word_octet(s: &[u8]) -> bool
    ensures { result ≡ nat_lt 0 (prefix_len is_word s.now) }
{
    match s {
        [b, ..] => is_word_octet(*b),
        [] => false,
    }
}

/// A run of letters, digits and `_`, among them one that is no digit.
fn hex_or_word_at(s: &[u8]) -> Piece
    ensures piece { result ≡ run_piece s.now }
    ensures within { piece_len result ≤ length s.now }
{
    let n = word_len(s);
    let (run, _) = s.split_at(n);
    if is_hex_number(run) {
        Piece::Whole(TokenKind::Hex, n)
    } else {
        Piece::Whole(TokenKind::Word, n)
    }
}

/// A number, or a word that begins with digits.
fn number_or_word_at(s: &[u8]) -> Piece
    ensures piece { result ≡ word_piece s.now }
    ensures within { piece_len result ≤ length s.now }
{
    let digits = digits_len(s);
    let (_, rest) = s.split_at(digits);
    let f = fraction_len(rest);
    if f > 0 {
        return Piece::Whole(TokenKind::Decimal, digits + f);
    }
    if starts_with_word_octet(rest) {
        hex_or_word_at(s)
    } else {
        Piece::Whole(TokenKind::Int, digits)
    }
}

/// A word that begins with a letter or `_`.
fn word_at(s: &[u8]) -> Piece
    requires { begins_name s.now ≡ true }
    ensures piece { result ≡ word_piece s.now }
    ensures within { piece_len result ≤ length s.now }
{
    Piece::Whole(TokenKind::Word, word_len(s))
}

#[tactic(auto, unfolding(crate::specs::Pieces::point_piece))]
fn dots_decimal_or_point_at(s: &[u8]) -> Piece
    requires { 0 < length s.now }
    ensures piece { result ≡ point_piece s.now }
    ensures within { piece_len result ≤ length s.now }
{
    if s.starts_with(b"...") {
        return Piece::Whole(TokenKind::Dots, 3);
    }
    let f = fraction_len(s);
    if f > 0 {
        Piece::Whole(TokenKind::Decimal, f)
    } else {
        Piece::Whole(TokenKind::Symbol, 1)
    }
}

#[tactic(auto, unfolding(crate::specs::Pieces::dash_piece))]
fn option_or_dash_at(s: &[u8]) -> Piece
    requires { 0 < length s.now }
    ensures piece { result ≡ dash_piece s.now }
    ensures within { piece_len result ≤ length s.now }
{
    match s {
        [b'-', b'-', rest @ ..] => {
            let n = word_len(rest);
            if n > 0 {
                Piece::Whole(
                    TokenKind::Opt,
                    2 + n + len_of_equals_and_option_value(&rest[n..]),
                )
            } else {
                Piece::Whole(TokenKind::Symbol, 1)
            }
        }
        _ => Piece::Whole(TokenKind::Symbol, 1),
    }
}

/// A line comment, the beginning of a comment, or the slash.
fn comment_or_slash_at(s: &[u8]) -> Piece
    requires { 0 < length s.now }
    ensures piece { result ≡ slash_piece s.now }
    ensures within { piece_len result ≤ length s.now }
{
    match s {
        [b'/', b'/', ..] => Piece::Blank(len_to_newline(s)),
        [b'/', b'*', ..] => Piece::Open(Opener::Comment),
        _ => Piece::Whole(TokenKind::Symbol, 1),
    }
}

/// The beginning of code, or the percent sign.
fn code_or_percent_at(s: &[u8]) -> Piece
    requires { 0 < length s.now }
    ensures piece { result ≡ percent_piece s.now }
    ensures within { piece_len result ≤ length s.now }
{
    match s {
        [b'%', b'{', ..] => Piece::Open(Opener::Brace),
        _ => Piece::Whole(TokenKind::Symbol, 1),
    }
}

/// The piece at the front of what is left of a line.
#[tactic(auto, unfolding(crate::specs::Pieces::piece))]
pub fn piece_at(s: &[u8]) -> Piece
    requires { 0 < length s.now }
    ensures piece { result ≡ piece s.now }
    ensures within { piece_len result ≤ length s.now }
{
    match s {
        [] => Piece::Stray,
        [b, ..] if is_digit(*b) => number_or_word_at(s),
        [b, ..] if is_word_octet(*b) => word_at(s),
        [b, ..] if is_blank(*b) => Piece::Blank(1),
        [b'.', ..] => dots_decimal_or_point_at(s),
        [b'-', ..] => option_or_dash_at(s),
        [b'/', ..] => comment_or_slash_at(s),
        [b'"', ..] => Piece::Open(Opener::Quote),
        [b'`', ..] => Piece::Open(Opener::Backquote),
        [b'%', ..] => code_or_percent_at(s),
        [33..=126, ..] => Piece::Whole(TokenKind::Symbol, 1),
        _ => Piece::Stray,
    }
}
