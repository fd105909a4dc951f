//! The answers of calls.
ghost use Rattle.std.specs.Prelude.{◌≡◌, ◌++◌, IfOk, OnOk};
ghost use Rattle.pd_script.specs.Grammar.{IsExpectedResult};
ghost use Rattle.pd_script.specs.Values.{error_name};
ghost use Rattle.pd_print.specs.Answers.{answer_text, expected_result_of, name_of};
ghost use Rattle.pd_print.specs.RoundTrip.{IsReadAs, FitsAnswer};

use crate::digits::put_number;
use pd_seg::{Answer, Errno};
use std::alloc::{AllocError, Global};

/// The result of a call as a script writes it: digits, or `-1` and the name of an error.
///
/// # Errors
/// `AllocError` where a growth is refused.
pub fn render_answer(alloc: Global, answer: Answer) -> Result<Vec<u8>, AllocError>
    ensures octets { IfOk result (λ text. text.items ≡ answer_text answer) }

    // At the end of a line just this result is read.
    ensures back { IfOk result (λ text. IsReadAs IsExpectedResult (λ line. expected_result_of answer) text.items) }
{
    let mut out = Vec::new(alloc);
    put_answer(&mut out, answer)?;
    Ok(out)
}

/// Adds the result of a call as a script writes it.
///
/// # Errors
/// `AllocError` where a growth is refused; some octets may have been added then.
pub fn put_answer(out: &mut Vec<u8>, answer: Answer) -> Result<(), AllocError>
    ensures text { OnOk result (out.new.items ≡ out.old.items ++ answer_text answer) }
    ensures small { FitsAnswer answer }
{
    match answer {
        Answer::Number(number) => put_number(out, u64::from(number)),
        Answer::Error(error) => {
            out.extend_from_slice(b"-1 ")?;
            out.extend_from_slice(error_name(error))
        }
    }
}

/// The name of an error.
fn error_name(error: Errno) -> &'static [u8]
    ensures { result.now ≡ error_name (name_of error) }
{
    match error {
        Errno::Ebadf => b"EBADF",
        Errno::Einval => b"EINVAL",
        Errno::Eagain => b"EAGAIN",
        Errno::Epipe => b"EPIPE",
    }
}
