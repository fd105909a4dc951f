//! Answers as the results of a script.
ghost use Rattle.std.specs.Prelude.{◌≡◌};
ghost use Rattle.pd_print.specs.Answers.{expected_result_of, name_of};

use pd_script::{ErrorName, ExpectedResult};
use pd_seg::{Answer, Errno};

/// The result of a script that is just this answer.
pub fn expected_result_from_answer(answer: Answer) -> ExpectedResult
    ensures { result ≡ expected_result_of answer }
{
    match answer {
        Answer::Number(number) => ExpectedResult::Int(number),
        Answer::Error(error) => ExpectedResult::Negative(1, Some(error_name_of_errno(error))),
    }
}

/// The name of an error in a script.
fn error_name_of_errno(error: Errno) -> ErrorName
    ensures { result ≡ name_of error }
{
    match error {
        Errno::Ebadf => ErrorName::Ebadf,
        Errno::Einval => ErrorName::Einval,
        Errno::Eagain => ErrorName::Eagain,
        Errno::Epipe => ErrorName::Epipe,
    }
}
