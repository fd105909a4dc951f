//! The names of calls, constants and errors.
ghost use Rattle.std.specs.Prelude.{◌≡◌, find};
ghost use Rattle.std.specs.Str.{bytes_eq};
ghost use Rattle.pd_script.specs.Values.{function_name, function_by_name_or_unknown, named_functions, constant_name, constant_by_name_or_unknown, named_constants, error_name, error_by_name_or_unknown, named_errors, option_name, find_option_by_name, named_options};

use crate::calls::{Constant, ErrorName, Function};

/// The name of a TCP option.
#[derive(Clone, Copy)]
pub enum OptionName {
    Mss,
    Wscale,
    SackOk,
    Nop,
    Eol,
    Timestamp,
    Sack,
}

/// The TCP options that have names.
const OPTIONS: [OptionName; 7] = [
    OptionName::Mss,
    OptionName::Wscale,
    OptionName::SackOk,
    OptionName::Nop,
    OptionName::Eol,
    OptionName::Timestamp,
    OptionName::Sack,
];

fn option_name(option: &OptionName) -> &'static [u8]
    ensures { result.now ≡ option_name option.now }
{
    match option {
        OptionName::Mss => b"mss",
        OptionName::Wscale => b"wscale",
        OptionName::SackOk => b"sackOK",
        OptionName::Nop => b"nop",
        OptionName::Eol => b"eol",
        OptionName::Timestamp => b"TS",
        OptionName::Sack => b"sack",
    }
}

/// The TCP option of a name.
#[tactic(auto, unfolding(crate::specs::Values::find_option_by_name))]
pub fn find_option_by_name(name: &[u8]) -> Option<OptionName>
    ensures { result ≡ find_option_by_name name.now }
{
    OPTIONS
        .iter()
        .copied()
        .find(|option| option_name(option) == name)
}

/// The calls that have names.
const FUNCTIONS: [Function; 8] = [
    Function::Socket,
    Function::Bind,
    Function::Listen,
    Function::Accept,
    Function::Setsockopt,
    Function::Fcntl,
    Function::Write,
    Function::Close,
];

/// The constants that have names.
const CONSTANTS: [Constant; 7] = [
    Constant::SockStream,
    Constant::IpprotoTcp,
    Constant::SolSocket,
    Constant::SolTcp,
    Constant::SoReuseaddr,
    Constant::TcpNodelay,
    Constant::FSetfl,
];

/// The errors that have names.
const ERRORS: [ErrorName; 4] = [
    ErrorName::Ebadf,
    ErrorName::Einval,
    ErrorName::Eagain,
    ErrorName::Epipe,
];

fn function_name(function: &Function) -> &'static [u8]
    ensures { result.now ≡ function_name function.now }
{
    match function {
        Function::Socket => b"socket",
        Function::Bind => b"bind",
        Function::Listen => b"listen",
        Function::Accept => b"accept",
        Function::Setsockopt => b"setsockopt",
        Function::Fcntl => b"fcntl",
        Function::Write => b"write",
        Function::Close => b"close",
        Function::Unknown => b"",
    }
}

fn constant_name(constant: &Constant) -> &'static [u8]
    ensures { result.now ≡ constant_name constant.now }
{
    match constant {
        Constant::SockStream => b"SOCK_STREAM",
        Constant::IpprotoTcp => b"IPPROTO_TCP",
        Constant::SolSocket => b"SOL_SOCKET",
        Constant::SolTcp => b"SOL_TCP",
        Constant::SoReuseaddr => b"SO_REUSEADDR",
        Constant::TcpNodelay => b"TCP_NODELAY",
        Constant::FSetfl => b"F_SETFL",
        Constant::Unknown => b"",
    }
}

fn error_name(error: &ErrorName) -> &'static [u8]
    ensures { result.now ≡ error_name error.now }
{
    match error {
        ErrorName::Ebadf => b"EBADF",
        ErrorName::Einval => b"EINVAL",
        ErrorName::Eagain => b"EAGAIN",
        ErrorName::Epipe => b"EPIPE",
        ErrorName::Unknown => b"",
    }
}

fn find_function(name: &[u8]) -> Option<Function>
    ensures { result ≡ find (λ f. bytes_eq (function_name f) name.now) named_functions }
{
    FUNCTIONS
        .iter()
        .copied()
        .find(|function| function_name(function) == name)
}

fn find_constant(name: &[u8]) -> Option<Constant>
    ensures { result ≡ find (λ c. bytes_eq (constant_name c) name.now) named_constants }
{
    CONSTANTS
        .iter()
        .copied()
        .find(|constant| constant_name(constant) == name)
}

fn find_error(name: &[u8]) -> Option<ErrorName>
    ensures { result ≡ find (λ e. bytes_eq (error_name e) name.now) named_errors }
{
    ERRORS
        .iter()
        .copied()
        .find(|error| error_name(error) == name)
}

/// The call of a name.
#[tactic(auto, unfolding(crate::specs::Values::function_by_name_or_unknown))]
pub fn function_by_name_or_unknown(name: &[u8]) -> Function
    ensures { result ≡ function_by_name_or_unknown name.now }
{
    find_function(name).unwrap_or(Function::Unknown)
}

/// The constant of a name.
#[tactic(auto, unfolding(crate::specs::Values::constant_by_name_or_unknown))]
pub fn constant_by_name_or_unknown(name: &[u8]) -> Constant
    ensures { result ≡ constant_by_name_or_unknown name.now }
{
    find_constant(name).unwrap_or(Constant::Unknown)
}

/// The error of a name.
#[tactic(auto, unfolding(crate::specs::Values::error_by_name_or_unknown))]
pub fn error_by_name_or_unknown(name: &[u8]) -> ErrorName
    ensures { result ≡ error_by_name_or_unknown name.now }
{
    find_error(name).unwrap_or(ErrorName::Unknown)
}
