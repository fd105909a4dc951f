//! The answer of a call against the result that a script expects.
ghost use Rattle.std.specs.Prelude.{◌≡◌, ◌↔◌, IsNone};
ghost use Rattle.pd_match.specs.Agreement.{IsResult};
ghost use Rattle.pd_match.specs.Calls.{result_mismatch, value_answered, value_written, is_answered, same_error};

use crate::kinds::Kind;
use pd_script::{Call, ErrorName, ExpectedResult};
use pd_seg::{Answer, Errno};

/// `Result` where the answer of the call isn't the one that the script expects, else None. They are compared as
/// numbers, an error being -1; then, where the script names an error, that error must be the answer.
///
/// Takes no memory.
pub fn check_call(call: &Call, answer: &Answer) -> Option<Kind>
    ensures value { result ≡ result_mismatch call.now.result answer.now }
    ensures agrees { IsNone result ↔ IsResult call.now.result answer.now }
{
    if signed_number_of_expected_result(call.result) == answer_number_or_minus_one_on_error(*answer)
        && matches_error_name_if_expected(call.result, *answer)
    {
        None
    } else {
        Some(Kind::Result)
    }
}

fn signed_number_of_expected_result(expected_result: ExpectedResult) -> i64
    ensures { result ≡ value_written expected_result }
{
    match expected_result {
        ExpectedResult::Int(number) | ExpectedResult::Hex(number) => i64::from(number),
        ExpectedResult::Negative(number, _) => -i64::from(number),
    }
}

fn answer_number_or_minus_one_on_error(answer: Answer) -> i64
    ensures { result ≡ value_answered answer }
{
    match answer {
        Answer::Number(number) => i64::from(number),
        Answer::Error(_) => -1,
    }
}

fn matches_error_name_if_expected(expected_result: ExpectedResult, answer: Answer) -> bool
    ensures { result ≡ same_error expected_result answer }
{
    match expected_result {
        ExpectedResult::Negative(_, Some(name)) => is_answer_error_of_name(name, answer),
        _ => true,
    }
}

fn is_answer_error_of_name(name: ErrorName, answer: Answer) -> bool
    ensures { result ≡ is_answered name answer }
{
    matches!(
        (name, answer),
        (ErrorName::Ebadf, Answer::Error(Errno::Ebadf))
            | (ErrorName::Einval, Answer::Error(Errno::Einval))
            | (ErrorName::Eagain, Answer::Error(Errno::Eagain))
            | (ErrorName::Epipe, Answer::Error(Errno::Epipe))
    )
}
