//! The numbers that tokens write.
ghost use Rattle.std.specs.Prelude.{◌≡◌, ◌+◌, ◌-◌, ◌*◌, ◌^◌, ◌≤◌, ◌++◌, min, fold, get_or, length, drop, take, replicate};
ghost use Rattle.std.specs.List.{list_all};
ghost use Rattle.pd_lex.specs.Octets.{is_digit};
ghost use Rattle.pd_script.specs.Items.{is_nonempty_digits};
ghost use Rattle.pd_script.specs.Values.{saturated_hex_number, len_before_point, microseconds};
ghost use Rattle.pd_lex.specs.Scanned.{wrapped_digit};

use pd_lex::{digit_value, saturating_decimal_value, saturating_value_with_more_digits};

/// A time is below so many microseconds.
pub const TIME_LIMIT: u64 = 4_294_967_296_000_000;

/// The greatest number of a packet or a result.
pub const MAX_NUMBER: u64 = 4_294_967_295;

/// The digits after `0x`.
fn digits_after_unchecked_hex_prefix(text: &[u8]) -> &[u8]
    ensures { result.now ≡ drop 2 text.now }
{
    if text.len() < 2 { &[] } else { &text[2..] }
}

/// The number in hexadecimal digits after `0x`; one above the greatest `u64` counts as that.
#[tactic(auto, using(crate::proofs::Capped::capping))]
pub fn saturated_hex_number(text: &[u8]) -> u64
    ensures { result ≡ min (saturated_hex_number text.now) (2 ^ 64 - 1) }
{
    saturating_value_with_more_digits(16, 0, digits_after_unchecked_hex_prefix(text))
}

/// How many octets are before the point.
fn len_before_point(text: &[u8]) -> usize
    ensures len { result ≡ len_before_point text.now }
    ensures within { result ≤ length text.now }
{
    text.iter().take_while(|octet| **octet != b'.').count()
}

/// The digits after the point, which follows so many.
fn digits_after_point(text: &[u8], len: usize) -> &[u8]
    requires { len ≤ length text.now }
    ensures { result.now ≡ drop (len + 1) text.now }
{
    if len < text.len() {
        &text[len + 1..]
    } else {
        &[]
    }
}

/// The decimal at a place after the point; one that isn't written is a zero.
fn decimal_octet_or_ascii_zero_at(decimals: &[u8], place: usize) -> u8
    ensures { result ≡ get_or decimals.now place 48 }
{
    if place < decimals.len() {
        decimals[place]
    } else {
        b'0'
    }
}

/// The number that the first six decimals write.
fn microseconds_of_decimals(decimals: &[u8]) -> u64
    ensures { result ≡ fold wrapped_digit 0 (take 6 (decimals.now ++ replicate 6 48)) }
{
    let mut number = 0u64;
    'places: for place in 0..6usize {
        number = number.wrapping_mul(10).wrapping_add(digit_value(decimal_octet_or_ascii_zero_at(
            decimals, place,
        )));
    }
    number
}

/// The microseconds of seconds in digits, or in digits with a point; more than the greatest `u64` stand as that.
pub fn saturated_microseconds_of_seconds(text: &[u8]) -> u64
    ensures { result ≡ min (microseconds text.now) (2 ^ 64 - 1) }
{
    let len = len_before_point(text);
    let whole = saturating_decimal_value(&text[..len]).saturating_mul(1_000_000);
    if len == text.len() {
        return whole;
    }
    whole.saturating_add(microseconds_of_decimals(digits_after_point(text, len)))
}

fn is_digit_octet(octet: u8) -> bool
    ensures { result ≡ is_digit octet }
{
    matches!(octet, b'0'..=b'9')
}

fn are_all_digits_or_empty(octets: &[u8]) -> bool
    ensures { result ≡ list_all is_digit octets.now }
{
    octets.iter().all(|octet| is_digit_octet(*octet))
}

/// Whether the octets are digits, one or more.
pub fn is_nonempty_digits(octets: &[u8]) -> bool
    ensures { result ≡ is_nonempty_digits octets.now }
{
    0 < octets.len() && are_all_digits_or_empty(octets)
}
