//! Moments and times.
ghost use Rattle.std.specs.Prelude.{◌≡◌, ◌++◌, ◌<◌, ◌^◌, IfOk, OnOk};
ghost use Rattle.pd_script.specs.Values.{microseconds};
ghost use Rattle.pd_script.specs.Grammar.{IsTime};
ghost use Rattle.pd_print.specs.Numbers.{fixed_seconds_text, seconds_text, fraction_text, time_text};
ghost use Rattle.pd_print.specs.RoundTrip.{IsReadAs, FitsTime};

use crate::digits::{put_digits_without_end_zeros, put_last_digits, put_number};
use pd_script::Time;
use std::alloc::{AllocError, Global};

/// How many microseconds a second has.
const SECOND: u64 = 1_000_000;

/// A moment in seconds with six decimals, as in `1.234567`.
///
/// # Errors
/// `AllocError` where a growth is refused.
pub fn render_seconds_with_six_decimals(alloc: Global, time_us: u64) -> Result<Vec<u8>, AllocError>
    ensures octets { IfOk result (λ text. text.items ≡ fixed_seconds_text time_us) }

    // As a script's seconds it is just this moment.
    ensures back { IfOk result (λ text. microseconds text.items ≡ time_us) }
{
    let mut out = Vec::new(alloc);
    put_number(&mut out, time_us / SECOND)?;
    out.extend_from_slice(b".")?;
    put_last_digits(&mut out, 6, time_us % SECOND)?;
    Ok(out)
}

/// A time as a script writes it, with no more decimals than it takes: `*`, `0.5`, `+0.5`, `0.5~0.7` or `+0.5~+0.7`.
///
/// # Errors
/// `AllocError` where a growth is refused.
pub fn render_time(alloc: Global, time: Time) -> Result<Vec<u8>, AllocError>
    ensures octets { IfOk result (λ text. text.items ≡ time_text time) }

    // At the end of a line just this time is read.
    ensures back { IfOk result (λ text. FitsTime time → IsReadAs IsTime (λ line. (line, time)) text.items) }
{
    let mut out = Vec::new(alloc);
    put_time(&mut out, time)?;
    Ok(out)
}

/// Adds a time as a script writes it.
///
/// # Errors
/// `AllocError` where a growth is refused; some octets may have been added then.
pub fn put_time(out: &mut Vec<u8>, time: Time) -> Result<(), AllocError>
    ensures { OnOk result (out.new.items ≡ out.old.items ++ time_text time) }
{
    match time {
        Time::Any => out.extend_from_slice(b"*"),
        Time::Absolute(time_us) => put_signed_seconds(out, b"", time_us),
        Time::Relative(time_us) => put_signed_seconds(out, b"+", time_us),
        Time::AbsoluteRange(first, last) => {
            put_signed_seconds(out, b"", first)?;
            put_signed_seconds(out, b"~", last)
        }
        Time::RelativeRange(first, last) => {
            put_signed_seconds(out, b"+", first)?;
            put_signed_seconds(out, b"~+", last)
        }
    }
}

/// Adds a sign, and seconds with no more decimals than they take.
fn put_signed_seconds(out: &mut Vec<u8>, sign: &[u8], time: u64) -> Result<(), AllocError>
    ensures { OnOk result (out.new.items ≡ out.old.items ++ (sign.now ++ seconds_text time)) }
{
    out.extend_from_slice(sign)?;
    put_number(out, time / SECOND)?;
    put_decimals_of_microseconds_if_nonzero(out, time % SECOND)
}

/// Adds a point and the decimals of so many microseconds, unless all are zeros.
fn put_decimals_of_microseconds_if_nonzero(out: &mut Vec<u8>, part: u64) -> Result<(), AllocError>
    ensures { OnOk result (out.new.items ≡ out.old.items ++ fraction_text part) }
{
    if part == 0 {
        return Ok(());
    }
    out.extend_from_slice(b".")?;
    put_digits_without_end_zeros(out, 6, part)
}
