//! Requests of calls, where their names and shapes are run.
ghost use Rattle.std.specs.Prelude.{◌≡◌, is_some};
ghost use Rattle.pd_host.specs.Syscalls.{is_tcp_or_default_protocol, is_tcp_level, parse_socket_arguments_if_tcp_stream, nodelay_syscall_if_zero_or_one, parse_setsockopt_reuseaddr_or_nodelay, parse_fcntl_arguments_if_setfl, parse_bind_or_accept_arguments, parse_listen_arguments, parse_write_arguments, parse_close_arguments, syscall_of};

use pd_script::{Argument, Call, Constant, Function};

/// A request of a call to the sender.
#[derive(Clone, Copy, PartialEq, Eq)]
pub enum Syscall {
    Socket,
    /// An operation on the descriptor of this number.
    On(u64, SocketOperation),
}

/// A request to a descriptor.
#[derive(Clone, Copy, PartialEq, Eq)]
pub enum SocketOperation {
    Bind,
    Listen,
    Accept,
    /// `setsockopt` with `SO_REUSEADDR`.
    ReuseAddress,
    /// `setsockopt` with `TCP_NODELAY`: whether it is set.
    NoDelay(bool),
    /// `fcntl` with `F_SETFL`.
    SetFlags,
    /// `write` of this many octets.
    Write(u64),
    Close,
}

/// Whether a call's name and shape are run. The sender's state isn't looked at.
pub fn is_shape_supported(call: &Call) -> bool
    ensures { result ≡ is_some (syscall_of call.now) }
{
    Syscall::parse_call_if_supported(call).is_some()
}

impl Syscall {
    /// The request of a call, or `None` for a call whose name or shape isn't run.
    #[inline(always)]
    pub fn parse_call_if_supported(call: &Call) -> Option<Syscall>
        ensures { result ≡ syscall_of call.now }
    {
        let arguments = call.arguments.as_slice();
        match call.function {
            Function::Socket => parse_socket_arguments_if_tcp_stream(arguments),
            Function::Bind => parse_bind_or_accept_arguments(SocketOperation::Bind, arguments),
            Function::Listen => parse_listen_arguments(arguments),
            Function::Accept => parse_bind_or_accept_arguments(SocketOperation::Accept, arguments),
            Function::Setsockopt => parse_setsockopt_reuseaddr_or_nodelay(arguments),
            Function::Fcntl => parse_fcntl_arguments_if_setfl(arguments),
            Function::Write => parse_write_arguments(arguments),
            Function::Close => parse_close_arguments(arguments),
            Function::Unknown => None,
        }
    }
}

fn parse_socket_arguments_if_tcp_stream(arguments: &[Argument]) -> Option<Syscall>
    ensures { result ≡ parse_socket_arguments_if_tcp_stream arguments.now }
{
    match arguments {
        [_, Argument::Constant(Constant::SockStream), protocol] => {
            if is_tcp_or_default_protocol(*protocol) {
                Some(Syscall::Socket)
            } else {
                None
            }
        }
        _ => None,
    }
}

fn is_tcp_or_default_protocol(protocol: Argument) -> bool
    ensures { result ≡ is_tcp_or_default_protocol protocol }
{
    match protocol {
        Argument::Constant(Constant::IpprotoTcp) => true,
        Argument::Int(n) => n == 0,
        _ => false,
    }
}

/// The shape of `bind` and `accept`.
fn parse_bind_or_accept_arguments(
    operation: SocketOperation,
    arguments: &[Argument],
) -> Option<Syscall>
    ensures { result ≡ parse_bind_or_accept_arguments operation arguments.now }
{
    match arguments {
        [Argument::Int(fd), _, _] => Some(Syscall::On(*fd, operation)),
        _ => None,
    }
}

fn parse_listen_arguments(arguments: &[Argument]) -> Option<Syscall>
    ensures { result ≡ parse_listen_arguments arguments.now }
{
    match arguments {
        [Argument::Int(fd), _] => Some(Syscall::On(*fd, SocketOperation::Listen)),
        _ => None,
    }
}

fn parse_setsockopt_reuseaddr_or_nodelay(arguments: &[Argument]) -> Option<Syscall>
    ensures { result ≡ parse_setsockopt_reuseaddr_or_nodelay arguments.now }
{
    match arguments {
        [
            Argument::Int(fd),
            Argument::Constant(Constant::SolSocket),
            Argument::Constant(Constant::SoReuseaddr),
            _,
            _,
        ] => Some(Syscall::On(*fd, SocketOperation::ReuseAddress)),
        [
            Argument::Int(fd),
            Argument::Constant(level),
            Argument::Constant(Constant::TcpNodelay),
            Argument::Element(n),
            _,
        ] => {
            if is_tcp_level(*level) {
                nodelay_syscall_if_zero_or_one(*fd, *n)
            } else {
                None
            }
        }
        _ => None,
    }
}

fn is_tcp_level(level: Constant) -> bool
    ensures { result ≡ is_tcp_level level }
{
    matches!(level, Constant::SolTcp | Constant::IpprotoTcp)
}

fn nodelay_syscall_if_zero_or_one(fd: u64, n: u64) -> Option<Syscall>
    ensures { result ≡ nodelay_syscall_if_zero_or_one fd n }
{
    match n {
        1 => Some(Syscall::On(fd, SocketOperation::NoDelay(true))),
        0 => Some(Syscall::On(fd, SocketOperation::NoDelay(false))),
        _ => None,
    }
}

fn parse_fcntl_arguments_if_setfl(arguments: &[Argument]) -> Option<Syscall>
    ensures { result ≡ parse_fcntl_arguments_if_setfl arguments.now }
{
    match arguments {
        [Argument::Int(fd), Argument::Constant(Constant::FSetfl), _] => {
            Some(Syscall::On(*fd, SocketOperation::SetFlags))
        }
        _ => None,
    }
}

fn parse_write_arguments(arguments: &[Argument]) -> Option<Syscall>
    ensures { result ≡ parse_write_arguments arguments.now }
{
    match arguments {
        [Argument::Int(fd), _, Argument::Int(n)] => Some(Syscall::On(
            *fd,
            SocketOperation::Write(*n),
        )),
        _ => None,
    }
}

fn parse_close_arguments(arguments: &[Argument]) -> Option<Syscall>
    ensures { result ≡ parse_close_arguments arguments.now }
{
    match arguments {
        [Argument::Int(fd)] => Some(Syscall::On(*fd, SocketOperation::Close)),
        _ => None,
    }
}
