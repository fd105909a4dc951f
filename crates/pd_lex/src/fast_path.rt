//! The common tokens at the front of a line, read at once; `None` leaves the octets to `step`.
ghost use Rattle.std.specs.Prelude.{◌≡◌, ◌≤◌, ◌<◌, true, [], ◌∷◌, Some, length, take, get_or, fold, IfSome};
ghost use Rattle.std.specs.List.{prefix_len};
ghost use Rattle.pd_lex.specs.Octets.{is_digit};
ghost use Rattle.pd_lex.specs.Classes.{class_of};
ghost use Rattle.pd_lex.specs.declared.classes.OctetClass.TheVariants as classes;
ghost use Rattle.pd_lex.specs.Pieces.{piece};
ghost use Rattle.pd_lex.specs.Numbers.{capped_number};
ghost use Rattle.pd_lex.specs.Scanned.{wrapped_digit, begins_name};
ghost use Rattle.pd_lex.specs.declared.scan.Piece.TheVariants.{Whole};
ghost use Rattle.pd_lex.specs.declared.token.TokenKind.TheVariants.{Int, Symbol};

use crate::scan::{fraction_len, is_digit, starts_with_word_octet, word_len_trusting_first_octet};
use crate::token::TokenKind;

/// A token of so many octets of the line, with the octet of a Symbol and the number of an Int.
#[derive(Clone, Copy)]
pub struct FastToken {
    /// The token's kind.
    pub kind: TokenKind,
    /// The octet of a Symbol.
    pub symbol: u8,
    /// How many octets of the line it has.
    pub len: usize,
    /// The number of an Int.
    pub number: u64,
}

/// So many digits write no number above the greatest `u64`.
const FEW: usize = 9;

/// How many digits are at the front, and the number that they write modulo 2^64.
#[inline(always)]
fn digit_count_and_wrapping_value(s: &[u8]) -> (usize, u64)
    ensures len { result.0 ≡ prefix_len is_digit s.now }
    ensures number { result.1 ≡ fold wrapped_digit 0 (take (prefix_len is_digit s.now) s.now) }
    ensures within { result.0 ≤ length s.now }
{
    let mut rest = s;
    let mut number = 0u64;
    loop {
        match rest {
            [b, tail @ ..] if is_digit(*b) => {
                number = number.wrapping_mul(10).wrapping_add(u64::from(*b - b'0'));
                rest = tail;
            }
            _ => return (s.len() - rest.len(), number),
        }
    }
}

/// The Int or the Decimal at the front, if its whole part has few digits.
#[inline(always)]
pub fn int_or_decimal_token_if_few_whole_digits(s: &[u8]) -> Option<FastToken>
    ensures piece { IfSome result (λ p. Whole p.kind p.len ≡ piece s.now) }
    ensures within { IfSome result (λ p. p.len ≤ length s.now) }
    ensures number { IfSome result (λ p. p.kind ≡ Int → p.number ≡ capped_number (take p.len s.now)) }
    ensures symbol { IfSome result (λ p. p.kind ≡ Symbol → take p.len s.now ≡ p.symbol ∷ []) }
{
    let (len, number) = digit_count_and_wrapping_value(s);
    // A number of more digits may not fit into 64 bits: `step` reads it.
    if len == 0 || len > FEW {
        return None;
    }
    let (_, rest) = s.split_at(len);
    let more = fraction_len(rest);
    if more > 0 {
        return Some(FastToken {
            kind: TokenKind::Decimal,
            symbol: 0,
            len: len + more,
            number: 0,
        });
    }
    if starts_with_word_octet(rest) {
        return None;
    }
    Some(FastToken {
        kind: TokenKind::Int,
        symbol: 0,
        len,
        number,
    })
}

/// The word at the front.
#[inline(always)]
pub fn word_token_trusting_first_octet(s: &[u8]) -> Option<FastToken>
    requires { begins_name s.now ≡ true }
    ensures piece { IfSome result (λ p. Whole p.kind p.len ≡ piece s.now) }
    ensures within { IfSome result (λ p. p.len ≤ length s.now) }
    ensures number { IfSome result (λ p. p.kind ≡ Int → p.number ≡ capped_number (take p.len s.now)) }
    ensures symbol { IfSome result (λ p. p.kind ≡ Symbol → take p.len s.now ≡ p.symbol ∷ []) }
{
    Some(FastToken {
        kind: TokenKind::Word,
        symbol: 0,
        len: word_len_trusting_first_octet(s),
        number: 0,
    })
}

/// Three points, or a point before a blank.
#[tactic(auto, unfolding(crate::specs::Pieces::piece, crate::specs::Pieces::point_piece))]
#[inline(always)]
pub fn three_dots_or_point_before_blank_token(s: &[u8]) -> Option<FastToken>
    ensures piece { IfSome result (λ p. Whole p.kind p.len ≡ piece s.now) }
    ensures within { IfSome result (λ p. p.len ≤ length s.now) }
    ensures number { IfSome result (λ p. p.kind ≡ Int → p.number ≡ capped_number (take p.len s.now)) }
    ensures symbol { IfSome result (λ p. p.kind ≡ Symbol → take p.len s.now ≡ p.symbol ∷ []) }
{
    match s {
        [b'.', b'.', b'.', ..] => Some(FastToken {
            kind: TokenKind::Dots,
            symbol: 0,
            len: 3,
            number: 0,
        }),
        [b'.', b' ', ..] => symbol_token_of(b'.'),
        _ => None,
    }
}

/// A symbol.
#[inline(always)]
fn symbol_token_of(octet: u8) -> Option<FastToken>
    ensures { result ≡ Some (record { kind = Symbol; symbol = octet; len = 1; number = 0 }) }
{
    Some(FastToken {
        kind: TokenKind::Symbol,
        symbol: octet,
        len: 1,
        number: 0,
    })
}

/// The octet at the front, which begins a Symbol and nothing else.
#[inline(always)]
pub fn symbol_token_trusting_first_octet(s: &[u8]) -> Option<FastToken>
    requires some { 0 < length s.now }
    requires class { class_of (get_or s.now 0 0) ≡ classes.Symbol }
    ensures piece { IfSome result (λ p. Whole p.kind p.len ≡ piece s.now) }
    ensures within { IfSome result (λ p. p.len ≤ length s.now) }
    ensures number { IfSome result (λ p. p.kind ≡ Int → p.number ≡ capped_number (take p.len s.now)) }
    ensures symbol { IfSome result (λ p. p.kind ≡ Symbol → take p.len s.now ≡ p.symbol ∷ []) }
{
    symbol_token_of(s[0])
}
