//! Numbers in decimal digits.
ghost use Rattle.std.specs.Prelude.{◌≡◌, ◌++◌, ◌<◌, OnOk};
ghost use Rattle.std.specs.Fmt.{decimal};
ghost use Rattle.pd_print.specs.Numbers.{digits_of, shortest_digits};

use itoa::Buffer;
use std::alloc::AllocError;

/// Adds a number.
pub fn put_number(out: &mut Vec<u8>, number: u64) -> Result<(), AllocError>
    ensures { OnOk result (out.new.items ≡ out.old.items ++ decimal number) }
{
    let mut digits = Buffer::new();
    out.extend_from_slice(digits.format(number).as_bytes())
}

/// Adds the last digits of a number, so many, with zeros in front.
pub fn put_last_digits(out: &mut Vec<u8>, places: u32, number: u64) -> Result<(), AllocError>
    ensures { OnOk result (out.new.items ≡ out.old.items ++ digits_of places number) }
{
    if places == 0 {
        return Ok(());
    }
    put_last_digits(out, places - 1, number / 10)?;
    out.push(b'0' + (number % 10) as u8)?;
    Ok(())
}

/// Adds the same without the zeros at the end.
#[tactic(auto, using(crate::proofs::DigitLemmas::shortening))]
pub fn put_digits_without_end_zeros(
    out: &mut Vec<u8>,
    places: u32,
    number: u64,
) -> Result<(), AllocError>
    ensures { OnOk result (out.new.items ≡ out.old.items ++ shortest_digits places number) }
{
    if places == 0 {
        Ok(())
    } else if number % 10 == 0 {
        put_digits_without_end_zeros(out, places - 1, number / 10)
    } else {
        put_last_digits(out, places, number)
    }
}
