//! The numbers that digits write, in bases up to 36; an octet that is no digit has the value 36.
ghost use Rattle.std.specs.Prelude.{◌≡◌, ◌≤◌, fold, length};
ghost use Rattle.std.specs.Char.{digit_value};
ghost use Rattle.pd_lex.specs.declared.token.TokenKind.TheVariants.{Int};
ghost use Rattle.pd_lex.specs.Numbers.{capped_digit, capped_number};
ghost use Rattle.pd_lex.specs.Scanned.{wrapped_digit};

use crate::token::TokenKind;

/// The value of an octet as a digit in a base up to 36, or 36.
pub fn digit_value(octet: u8) -> u64
    ensures { result ≡ digit_value octet }
{
    if octet.is_ascii_digit() {
        return u64::from(octet - b'0');
    }
    match octet {
        b'A'..=b'Z' => u64::from(octet - b'A') + 10,
        b'a'..=b'z' => u64::from(octet - b'a') + 10,
        _ => 36,
    }
}

/// The number that the digits write after those of `value`; one above the greatest `u64` counts as that.
pub fn saturating_value_with_more_digits(radix: u64, value: u64, digits: &[u8]) -> u64
    ensures { result ≡ fold (capped_digit radix) value digits.now }
{
    digits.iter().fold(
        value,
        |value, digit| value
            .saturating_mul(radix)
            .saturating_add(digit_value(*digit)),
    )
}

/// The number in digits; one above the greatest `u64` counts as that.
#[tactic(auto, using(crate::proofs::Capped::capping))]
pub fn saturating_decimal_value(digits: &[u8]) -> u64
    ensures { result ≡ capped_number digits.now }
{
    saturating_value_with_more_digits(10, 0, digits)
}

/// The number of an Int.
pub fn number_if_int_or_zero(kind: TokenKind, text: &[u8]) -> u64
    ensures { kind ≡ Int → result ≡ capped_number text.now }
{
    match kind {
        TokenKind::Int => saturating_decimal_value(text),
        _ => 0,
    }
}
