//! The rules of calls that an event comes to, and why the sender sends no more after an input.
ghost use Rattle.std.specs.Prelude.{◌≡◌, option_map};
ghost use Rattle.pd_explain.specs.RuleCalls.{answered_name, blocker_name, call_name, closed_name, done_name, error_name, nodelay_name, option_name, queued_name, written_name};

use pd_host::SendBlocker;
use pd_script::{Argument, Call, Constant, ErrorName, ExpectedResult, Function};

fn error_name(error: Option<ErrorName>) -> &'static str
    ensures { result.now ≡ error_name error }
{
    match error {
        Some(ErrorName::Ebadf) => "own.call.ebadf",
        Some(ErrorName::Einval) => "own.call.einval",
        Some(ErrorName::Eagain) => "own.call.eagain",
        Some(ErrorName::Epipe) => "own.call.epipe",
        Some(ErrorName::Unknown) | None => "own.call.error",
    }
}

fn queued_name(octets: u64, queued: u32) -> &'static str
    ensures { result.now ≡ queued_name octets queued }
{
    if queued == 0 {
        "own.call.write-nothing"
    } else if u64::from(queued) < octets {
        "own.call.write-part"
    } else {
        "own.call.write"
    }
}

fn written_name(arguments: &[Argument], queued: u32) -> &'static str
    ensures { result.now ≡ written_name arguments.now queued }
{
    match arguments {
        [_, _, Argument::Int(octets)] => queued_name(*octets, queued),
        _ => "own.call.write",
    }
}

fn closed_name(arguments: &[Argument]) -> &'static str
    ensures { result.now ≡ closed_name arguments.now }
{
    match arguments {
        [Argument::Int(fd)] => {
            if *fd == 3 {
                "own.call.close-listener"
            } else {
                "rfc9293.call.close"
            }
        }
        _ => "rfc9293.call.close",
    }
}

fn nodelay_name(fd: u64, n: u64) -> &'static str
    ensures { result.now ≡ nodelay_name fd n }
{
    if fd == 3 {
        "own.call.nodelay-on-listener"
    } else if n == 1 {
        "rfc9293.nodelay.on"
    } else {
        "rfc9293.nodelay.off"
    }
}

fn option_name(arguments: &[Argument]) -> &'static str
    ensures { result.now ≡ option_name arguments.now }
{
    match arguments {
        [
            Argument::Int(fd),
            _,
            Argument::Constant(Constant::TcpNodelay),
            Argument::Element(n),
            _,
        ] => nodelay_name(*fd, *n),
        _ => "own.call.reuseaddr",
    }
}

fn done_name(function: Function, arguments: &[Argument], n: u32) -> &'static str
    ensures { result.now ≡ done_name function arguments.now n }
{
    match function {
        Function::Socket => "own.call.socket",
        Function::Bind => "own.call.bind",
        Function::Listen => "own.call.listen",
        Function::Accept => "own.call.accept",
        Function::Setsockopt => option_name(arguments),
        Function::Fcntl => "own.call.fcntl",
        Function::Write => written_name(arguments, n),
        Function::Close => closed_name(arguments),
        Function::Unknown => "own.call.error",
    }
}

/// The name of a call, by the result that the script expects, which is the one that the call has.
pub fn call_name(call: &Call) -> &'static str
    ensures { result.now ≡ call_name call.now }
{
    match call.result {
        ExpectedResult::Int(n) | ExpectedResult::Hex(n) => {
            done_name(call.function, call.arguments.as_slice(), n)
        }
        ExpectedResult::Negative(n, error) => {
            if n == 0 {
                done_name(call.function, call.arguments.as_slice(), 0)
            } else {
                error_name(error)
            }
        }
    }
}

/// The name of a reason why the sender sends no more.
pub fn blocker_name(blocker: SendBlocker) -> Option<&'static str>
    ensures { option_map (λ name. name.now) result ≡ blocker_name blocker }
{
    match blocker {
        SendBlocker::Reset | SendBlocker::NotEstablished => None,
        SendBlocker::Acknowledged => Some("rfc9293.sending.all-acknowledged"),
        SendBlocker::PipeFull => Some("rfc6675.sending.pipe-full"),
        SendBlocker::NothingNext => Some("rfc6675.sending.nothing-next"),
        SendBlocker::Recovering => Some("own.sending.none-by-call-in-recovery"),
        SendBlocker::AllSent => Some("rfc9293.sending.all-sent"),
        SendBlocker::PeerWindow => Some("rfc9293.sending.peer-window"),
        SendBlocker::CongestionWindow => Some("rfc5681.sending.congestion-window"),
        SendBlocker::PartOfSegment => Some("rfc9293.sending.part-of-segment"),
        SendBlocker::Nagle => Some("rfc9293.sending.nagle"),
        SendBlocker::Open => Some("own.sending.none-by-this-input"),
    }
}
