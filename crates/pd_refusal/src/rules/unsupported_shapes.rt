//! Shapes of events and header items that aren't run, wherever they are written.
ghost use Rattle.std.specs.Prelude.{◌≡◌};
ghost use Rattle.pd_run.specs.Times.{is_single_moment};
ghost use Rattle.pd_refusal.specs.Rules.{find_unsupported_shape_of_call, find_unsupported_shape_by_packet_flags, find_unsupported_shape_of_action, find_unsupported_shape_of_event};

use pd_host::is_shape_supported;
use pd_script::{Action, Call, Event, Function, Packet, Time};

/// Shapes of events and header items that aren't run, wherever they are written.
#[derive(Clone, Copy)]
pub enum UnsupportedShape {
    /// An option of the header, but for a valid tolerance.
    HeaderOption,
    /// A command in the header.
    HeaderCommand,
    /// An event with the end of a blocking call.
    Blocking,
    /// A command as an event.
    Command,
    /// Code.
    Code,
    /// A packet that arrives, with `*` or a range.
    InboundTime,
    /// A call with `*` or a range.
    CallTime,
    /// A packet with a flag that isn't run.
    Flag,
    /// A call with a name that isn't run.
    CallName,
    /// A call with arguments that aren't run.
    CallShape,
}

impl UnsupportedShape {
    pub fn words(self) -> &'static str {
        match self {
            UnsupportedShape::HeaderOption => {
                "an option of the header other than `--tolerance_usecs=N` with N at most 1,000,000"
            }
            UnsupportedShape::HeaderCommand => "a command in the header",
            UnsupportedShape::Blocking => "a blocking call",
            UnsupportedShape::Command => "a command",
            UnsupportedShape::Code => "code",
            UnsupportedShape::InboundTime =>
                "a packet that arrives with `*` or a range as its time",
            UnsupportedShape::CallTime => "a call with `*` or a range as its time",
            UnsupportedShape::Flag => "a packet with one of the flags U, E, W and C",
            UnsupportedShape::CallName => "a call whose name isn't in the table of calls",
            UnsupportedShape::CallShape => "a call whose shape isn't in the table of calls",
        }
    }

    pub fn key(self) -> &'static str {
        match self {
            UnsupportedShape::HeaderOption => "header_option",
            UnsupportedShape::HeaderCommand => "header_command",
            UnsupportedShape::Blocking => "blocking",
            UnsupportedShape::Command => "command",
            UnsupportedShape::Code => "code",
            UnsupportedShape::InboundTime => "inbound_time",
            UnsupportedShape::CallTime => "call_time",
            UnsupportedShape::Flag => "flag",
            UnsupportedShape::CallName => "call_name",
            UnsupportedShape::CallShape => "call_shape",
        }
    }
}

/// The first rule by which an event isn't run, whatever the sender's state.
pub fn find_unsupported_shape_of_event(event: &Event) -> Option<UnsupportedShape>
    ensures { result ≡ find_unsupported_shape_of_event event.now }
{
    if event.blocking_end.is_some() {
        return Some(UnsupportedShape::Blocking);
    }
    find_unsupported_shape_of_action(event.time, &event.action)
}

fn is_single_moment(time: Time) -> bool
    ensures { result ≡ is_single_moment time }
{
    matches!(time, Time::Absolute(_) | Time::Relative(_))
}

fn find_unsupported_shape_of_action(time: Time, action: &Action) -> Option<UnsupportedShape>
    ensures { result ≡ find_unsupported_shape_of_action time action.now }
{
    match action {
        Action::Inbound(packet) => {
            if is_single_moment(time) {
                find_unsupported_shape_by_packet_flags(packet)
            } else {
                Some(UnsupportedShape::InboundTime)
            }
        }
        Action::Outbound(packet) => find_unsupported_shape_by_packet_flags(packet),
        Action::Call(call) => {
            if is_single_moment(time) {
                find_unsupported_shape_of_call(call)
            } else {
                Some(UnsupportedShape::CallTime)
            }
        }
        Action::Command => Some(UnsupportedShape::Command),
        Action::Code => Some(UnsupportedShape::Code),
    }
}

fn find_unsupported_shape_by_packet_flags(packet: &Packet) -> Option<UnsupportedShape>
    ensures { result ≡ find_unsupported_shape_by_packet_flags packet.now }
{
    if packet.flags.other {
        Some(UnsupportedShape::Flag)
    } else {
        None
    }
}

fn find_unsupported_shape_of_call(call: &Call) -> Option<UnsupportedShape>
    ensures { result ≡ find_unsupported_shape_of_call call.now }
{
    if is_shape_supported(call) {
        return None;
    }
    match call.function {
        Function::Unknown => Some(UnsupportedShape::CallName),
        _ => Some(UnsupportedShape::CallShape),
    }
}
