//! Numbers and values of commands.
ghost use Rattle.std.specs.Prelude.{◌≡◌, ◌&&◌, ◌+◌, ◌-◌, ◌*◌, ◌^◌, true, Some, None, nat_lt, if◌then◌else◌};
ghost use Rattle.std.specs.Char.{is_ascii_digit};
ghost use Rattle.pd_protocol.specs.Words.{are_digits, is_count, number_of, value_of};

use pd_settings::Value;

/// The number that digits write, where it fits.
pub fn parse_number(word: &[u8]) -> Option<u64>
    ensures { let n = number_of word.now in
        result ≡ (if are_digits word.now && nat_lt n (2 ^ 64) then Some n else None) }
{
    if word.is_empty() {
        return None;
    }
    let mut n: u64 = 0;
    for digit in word {
        if !digit.is_ascii_digit() {
            return None;
        }
        n = append_digit_if_fits(n, *digit)?;
    }
    Some(n)
}

/// A number with one digit more after it, where it fits.
fn append_digit_if_fits(n: u64, digit: u8) -> Option<u64>
    requires { is_ascii_digit digit ≡ true }
    ensures { let more = n * 10 + (digit - 48) in
        result ≡ (if nat_lt more (2 ^ 64) then Some more else None) }
{
    n.checked_mul(10)?.checked_add((digit - b'0') as u64)
}

/// The number that one to six digits write.
pub fn parse_count_of_at_most_six_digits(word: &[u8]) -> Option<usize>
    ensures { result ≡ (if is_count word.now then Some (number_of word.now) else None) }
{
    if word.len() > 6 {
        return None;
    }
    match parse_number(word) {
        Some(n) => Some(n as usize),
        None => None,
    }
}

/// The value that a word writes for a setting.
pub fn parse_setting_number_boolean_or_word(word: &[u8]) -> Value
    ensures { result ≡ value_of word.now }
{
    if let Some(n) = parse_number(word) {
        return Value::Number(n);
    }
    if word == b"true".as_slice() {
        return Value::Boolean(true);
    }
    if word == b"false".as_slice() {
        return Value::Boolean(false);
    }
    Value::from_word_or_other(word)
}
