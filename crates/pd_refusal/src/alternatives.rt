//! The calls and flags that are run, in the place of those that aren't.
ghost use Rattle.std.specs.Prelude.{◌≡◌};
ghost use Rattle.pd_refusal.specs.Alternatives.{quoted_call_name};

use crate::rules::{Rule, UnsupportedShape};
use pd_script::{Action, Event, Function};
use std::alloc::{AllocError, Global};

/// The calls that are run.
const CALLS: [Function; 8] = [
    Function::Socket,
    Function::Bind,
    Function::Listen,
    Function::Accept,
    Function::Setsockopt,
    Function::Fcntl,
    Function::Write,
    Function::Close,
];

/// Alternatives to the part that a rule stops at an event: calls, the shapes of a call, or flags; none where the rule isn't
/// about these.
///
/// # Errors
/// `AllocError` where a growth is refused.
pub fn supported_alternatives_of_rule_at_event(
    alloc: Global,
    rule: Rule,
    event: &Event,
) -> Result<Vec<Vec<u8>>, AllocError> {
    match (rule, &event.action) {
        (Rule::NotRun(UnsupportedShape::CallName), _) => supported_call_names(alloc),
        (Rule::NotRun(UnsupportedShape::CallShape), Action::Call(call)) => supported_call_shapes(
            alloc,
            call.function,
        ),
        (Rule::NotRun(UnsupportedShape::Flag), _) => copy_texts_into_list(
            alloc,
            &["`F`", "`S`", "`R`", "`P`", "`.`"],
        ),
        _ => Ok(Vec::new(alloc)),
    }
}

fn supported_call_names(alloc: Global) -> Result<Vec<Vec<u8>>, AllocError> {
    let mut names = Vec::new(alloc);
    for function in CALLS {
        names.push(Vec::from_slice(alloc, quoted_call_name(function).as_bytes())?)?;
    }
    Ok(names)
}

/// The name of a call in backquotes.
fn quoted_call_name(function: Function) -> &'static str
    ensures { result.now ≡ quoted_call_name function }
{
    match function {
        Function::Socket => "`socket`",
        Function::Bind => "`bind`",
        Function::Listen => "`listen`",
        Function::Accept => "`accept`",
        Function::Setsockopt => "`setsockopt`",
        Function::Fcntl => "`fcntl`",
        Function::Write => "`write`",
        Function::Close => "`close`",
        Function::Unknown => "``",
    }
}

/// The shapes of a call that are run.
fn supported_call_shapes(alloc: Global, function: Function) -> Result<Vec<Vec<u8>>, AllocError> {
    if let Function::Setsockopt = function {
        return copy_texts_into_list(
            alloc,
            &[
                "`setsockopt(fd, SOL_SOCKET, SO_REUSEADDR, any, any)`",
                "`setsockopt(fd, SOL_TCP or IPPROTO_TCP, TCP_NODELAY, [1] or [0], any)`",
            ],
        );
    }
    copy_texts_into_list(alloc, &[supported_shape_except_of_setsockopt(function)])
}

/// The one shape of another call that is run.
fn supported_shape_except_of_setsockopt(function: Function) -> &'static str {
    match function {
        Function::Socket => "`socket(any, SOCK_STREAM, IPPROTO_TCP or 0)`",
        Function::Bind => "`bind(fd, any, any)`",
        Function::Listen => "`listen(fd, any)`",
        Function::Accept => "`accept(fd, any, any)`",
        Function::Fcntl => "`fcntl(fd, F_SETFL, any)`",
        Function::Write => "`write(fd, any, n)`",
        Function::Close => "`close(fd)`",
        Function::Setsockopt | Function::Unknown => "``",
    }
}

/// Words as a list.
fn copy_texts_into_list(alloc: Global, words: &[&'static str]) -> Result<Vec<Vec<u8>>, AllocError> {
    let mut list = Vec::new(alloc);
    for each in words {
        list.push(Vec::from_slice(alloc, each.as_bytes())?)?;
    }
    Ok(list)
}
