//! Whether two events, calls or packets are the same.
ghost use Rattle.std.specs.Prelude.{◌≡◌, ◌↔◌, IsTrue};
ghost use Rattle.pd_layout.specs.ReadAs.{without_line};

use pd_script::{
    Action, Argument, Arguments, BlockingEnd, Call, Constant, ErrorName, Event, ExpectedResult,
    Function, OptionList, Options, Packet, PacketFlags, PacketOption, SackBlock, SackBlockList,
    Time,
};

/// Whether two events agree in all but their lines.
pub fn is_same_event_but_for_line(one: &Event, other: &Event) -> bool
    ensures { IsTrue result ↔ (without_line one.now ≡ without_line other.now) }
{
    is_same_time(one.time, other.time)
        && is_same_blocking_end(one.blocking_end, other.blocking_end)
        && is_same_action(&one.action, &other.action)
}

/// Whether both are the same time, written in the same form.
fn is_same_time(one: Time, other: Time) -> bool
    ensures { IsTrue result ↔ (one ≡ other) }
{
    match (one, other) {
        (Time::Any, Time::Any) => true,
        (Time::Absolute(mine), Time::Absolute(its)) | (Time::Relative(mine), Time::Relative(its)) =>
            mine == its,
        (Time::AbsoluteRange(from, to), Time::AbsoluteRange(its_from, its_to))
        | (Time::RelativeRange(from, to), Time::RelativeRange(its_from, its_to)) => {
            from == its_from && to == its_to
        }
        _ => false,
    }
}

/// Whether both are the same end of a blocking call, or none.
fn is_same_blocking_end(one: Option<BlockingEnd>, other: Option<BlockingEnd>) -> bool
    ensures { IsTrue result ↔ (one ≡ other) }
{
    match (one, other) {
        (None, None) => true,
        (Some(BlockingEnd::Absolute(mine)), Some(BlockingEnd::Absolute(its)))
        | (Some(BlockingEnd::Relative(mine)), Some(BlockingEnd::Relative(its))) => mine == its,
        _ => false,
    }
}

/// Whether both are the same action.
fn is_same_action(one: &Action, other: &Action) -> bool
    ensures { IsTrue result ↔ (one.now ≡ other.now) }
{
    match (one, other) {
        (Action::Inbound(mine), Action::Inbound(its))
        | (Action::Outbound(mine), Action::Outbound(its)) => is_same_packet(mine, its),
        (Action::Call(mine), Action::Call(its)) => is_same_call(mine, its),
        (Action::Command, Action::Command) | (Action::Code, Action::Code) => true,
        _ => false,
    }
}

/// Whether two calls agree in the function, the arguments and the result.
fn is_same_call(one: &Call, other: &Call) -> bool
    ensures { IsTrue result ↔ (one.now ≡ other.now) }
{
    is_same_function(one.function, other.function)
        && are_same_arguments(&one.arguments, &other.arguments)
        && is_same_expected_result(one.result, other.result)
}

/// Whether both are the same function.
fn is_same_function(one: Function, other: Function) -> bool
    ensures { IsTrue result ↔ (one ≡ other) }
{
    matches!(
        (one, other),
        (Function::Socket, Function::Socket)
            | (Function::Bind, Function::Bind)
            | (Function::Listen, Function::Listen)
            | (Function::Accept, Function::Accept)
            | (Function::Setsockopt, Function::Setsockopt)
            | (Function::Fcntl, Function::Fcntl)
            | (Function::Write, Function::Write)
            | (Function::Close, Function::Close)
            | (Function::Unknown, Function::Unknown)
    )
}

fn are_same_arguments(one: &Arguments, other: &Arguments) -> bool
    ensures { IsTrue result ↔ (one.now ≡ other.now) }
{
    are_same_argument_lists(one.as_slice(), other.as_slice())
}

fn are_same_argument_lists(one: &[Argument], other: &[Argument]) -> bool
    ensures { IsTrue result ↔ (one.now ≡ other.now) }
{
    one.len() == other.len()
        && one
            .iter()
            .zip(other)
            .all(|(mine, its)| is_same_argument(mine, its))
}

/// Whether both are the same argument with the same value.
fn is_same_argument(one: &Argument, other: &Argument) -> bool
    ensures { IsTrue result ↔ (one.now ≡ other.now) }
{
    match (one, other) {
        (Argument::Int(mine), Argument::Int(its)) => mine == its,
        (Argument::Constant(mine), Argument::Constant(its)) => is_same_constant(*mine, *its),
        (Argument::Element(mine), Argument::Element(its)) => mine == its,
        (Argument::Other, Argument::Other) => true,
        _ => false,
    }
}

/// Whether both are the same word.
fn is_same_constant(one: Constant, other: Constant) -> bool
    ensures { IsTrue result ↔ (one ≡ other) }
{
    matches!(
        (one, other),
        (Constant::SockStream, Constant::SockStream)
            | (Constant::IpprotoTcp, Constant::IpprotoTcp)
            | (Constant::SolSocket, Constant::SolSocket)
            | (Constant::SolTcp, Constant::SolTcp)
            | (Constant::SoReuseaddr, Constant::SoReuseaddr)
            | (Constant::TcpNodelay, Constant::TcpNodelay)
            | (Constant::FSetfl, Constant::FSetfl)
            | (Constant::Unknown, Constant::Unknown)
    )
}

/// Whether both are the same result, written in the same form.
fn is_same_expected_result(one: ExpectedResult, other: ExpectedResult) -> bool
    ensures { IsTrue result ↔ (one ≡ other) }
{
    match (one, other) {
        (ExpectedResult::Int(mine), ExpectedResult::Int(its)) => mine == its,
        (ExpectedResult::Hex(mine), ExpectedResult::Hex(its)) => mine == its,
        (ExpectedResult::Negative(mine, name), ExpectedResult::Negative(its, its_name)) => {
            mine == its && is_same_error_name(name, its_name)
        }
        _ => false,
    }
}

/// Whether both are the same name of an error, or none.
fn is_same_error_name(one: Option<ErrorName>, other: Option<ErrorName>) -> bool
    ensures { IsTrue result ↔ (one ≡ other) }
{
    match (one, other) {
        (None, None) => true,
        (Some(mine), Some(its)) => is_same_error(mine, its),
        _ => false,
    }
}

fn is_same_error(one: ErrorName, other: ErrorName) -> bool
    ensures { IsTrue result ↔ (one ≡ other) }
{
    matches!(
        (one, other),
        (ErrorName::Ebadf, ErrorName::Ebadf)
            | (ErrorName::Einval, ErrorName::Einval)
            | (ErrorName::Eagain, ErrorName::Eagain)
            | (ErrorName::Epipe, ErrorName::Epipe)
            | (ErrorName::Unknown, ErrorName::Unknown)
    )
}

/// Whether two packets agree in every field.
fn is_same_packet(one: &Packet, other: &Packet) -> bool
    ensures { IsTrue result ↔ (one.now ≡ other.now) }
{
    is_same_flags(one.flags, other.flags)
        && one.start == other.start
        && one.end == other.end
        && one.length == other.length
        && one.ack == other.ack
        && one.win == other.win
        && are_same_options(&one.options, &other.options)
}

/// Whether both have the same flags.
fn is_same_flags(one: PacketFlags, other: PacketFlags) -> bool
    ensures { IsTrue result ↔ (one ≡ other) }
{
    one.syn == other.syn
        && one.fin == other.fin
        && one.rst == other.rst
        && one.psh == other.psh
        && one.ack == other.ack
        && one.other == other.other
}

/// Whether both are absent, any, or the same options in the same order.
fn are_same_options(one: &Options, other: &Options) -> bool
    ensures { IsTrue result ↔ (one.now ≡ other.now) }
{
    match (one, other) {
        (Options::Absent, Options::Absent) | (Options::Any, Options::Any) => true,
        (Options::Listed(mine), Options::Listed(its)) => is_same_option_list(mine, its),
        _ => false,
    }
}

fn is_same_option_list(one: &OptionList, other: &OptionList) -> bool
    ensures { IsTrue result ↔ (one.now ≡ other.now) }
{
    are_same_option_lists(one.as_slice(), other.as_slice())
}

fn are_same_option_lists(one: &[PacketOption], other: &[PacketOption]) -> bool
    ensures { IsTrue result ↔ (one.now ≡ other.now) }
{
    one.len() == other.len()
        && one
            .iter()
            .zip(other)
            .all(|(mine, its)| is_same_option(mine, its))
}

/// Whether both are the same option with the same values.
fn is_same_option(one: &PacketOption, other: &PacketOption) -> bool
    ensures { IsTrue result ↔ (one.now ≡ other.now) }
{
    match (one, other) {
        (PacketOption::Mss(mine), PacketOption::Mss(its)) => mine == its,
        (PacketOption::Wscale(mine), PacketOption::Wscale(its)) => mine == its,
        (PacketOption::SackOk, PacketOption::SackOk)
        | (PacketOption::Nop, PacketOption::Nop)
        | (PacketOption::Eol, PacketOption::Eol) => true,
        (PacketOption::Timestamp(mine, echo), PacketOption::Timestamp(its, its_echo)) => {
            mine == its && echo == its_echo
        }
        (PacketOption::Sack(mine), PacketOption::Sack(its)) => is_same_sack_block_list(mine, its),
        _ => false,
    }
}

fn is_same_sack_block_list(one: &SackBlockList, other: &SackBlockList) -> bool
    ensures { IsTrue result ↔ (one.now ≡ other.now) }
{
    are_same_sack_blocks(one.as_slice(), other.as_slice())
}

fn are_same_sack_blocks(one: &[SackBlock], other: &[SackBlock]) -> bool
    ensures { IsTrue result ↔ (one.now ≡ other.now) }
{
    one.len() == other.len()
        && one
            .iter()
            .zip(other)
            .all(|(mine, its)| is_same_sack_block(mine, its))
}

fn is_same_sack_block(one: &SackBlock, other: &SackBlock) -> bool
    ensures { IsTrue result ↔ (one.now ≡ other.now) }
{
    one.left == other.left && one.right == other.right
}
