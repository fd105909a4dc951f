//! Inputs that the sender doesn't run in the state that it is in.
ghost use Rattle.std.specs.Prelude.{◌≡◌, None};
ghost use Rattle.pd_match.specs.Agreement.{flags_of};
ghost use Rattle.pd_host.specs.Connection.{ConnectionView};
ghost use Rattle.pd_host.specs.ConnectionSnapshot.{connection_snapshot_in};
ghost use Rattle.pd_host.specs.Handshake.{is_listening, is_syn_alone};
ghost use Rattle.pd_run.specs.InboundSegment.{segment_in};
ghost use Rattle.pd_refusal.specs.Rules.{unsupported_first_segment_rule, is_closed_by, why_connection_segment_is_unsupported, unsupported_arrival_rule, unsupported_call_rule, unsupported_input_of_halted_action};

use pd_host::{ConnState, Host};
use pd_script::{Action, Function, Packet, PacketFlags};

/// Inputs that the sender doesn't run in the state that it is in.
#[derive(Clone, Copy)]
pub enum UnsupportedInput {
    /// A second `socket`.
    SecondSocket,
    /// `close` of 3 before the connection is accepted.
    ListenerClose,
    /// A first segment, and nothing listens.
    NotListening,
    /// A first segment that is no SYN.
    NotSyn,
    /// A SYN with a small `mss`.
    SmallMss,
    /// Data from the peer.
    Payload,
    /// A SYN on a connection.
    SecondSyn,
    /// A FIN out of place.
    StrayFin,
    /// A segment after an RST.
    AfterReset,
    /// A segment after both FINs.
    AfterFins,
}

impl UnsupportedInput {
    pub fn words(self) -> &'static str {
        match self {
            UnsupportedInput::SecondSocket => "a second `socket`, also after `close(3)`",
            UnsupportedInput::ListenerClose =>
                "`close` of 3 while a connection was begun that isn't accepted",
            UnsupportedInput::NotListening => "a first segment where 3 doesn't listen",
            UnsupportedInput::NotSyn => {
                "a first segment that isn't exactly a SYN: no other flag, start 0, no data"
            }
            UnsupportedInput::SmallMss => "a SYN whose `mss` is below 64",
            UnsupportedInput::Payload => "data from the peer",
            UnsupportedInput::SecondSyn => "a SYN on a connection that was begun",
            UnsupportedInput::StrayFin => {
                "a FIN in the receive window, but for one at RCV.NXT while no FIN was taken"
            }
            UnsupportedInput::AfterReset => "a segment on a connection that is closed by an RST",
            UnsupportedInput::AfterFins => {
                "a segment on a connection that is closed by the ACK of our FIN after the peer's"
            }
        }
    }

    pub fn key(self) -> &'static str {
        match self {
            UnsupportedInput::SecondSocket => "second_socket",
            UnsupportedInput::ListenerClose => "listener_close",
            UnsupportedInput::NotListening => "not_listening",
            UnsupportedInput::NotSyn => "not_syn",
            UnsupportedInput::SmallMss => "small_mss",
            UnsupportedInput::Payload => "data",
            UnsupportedInput::SecondSyn => "second_syn",
            UnsupportedInput::StrayFin => "stray_fin",
            UnsupportedInput::AfterReset => "after_reset",
            UnsupportedInput::AfterFins => "after_fins",
        }
    }
}

/// The first rule by which a sender that halts at an action doesn't run it.
pub fn unsupported_input_of_halted_action(action: &Action, host: &Host) -> Option<UnsupportedInput>
    ensures { result ≡ unsupported_input_of_halted_action action.now host.now.state }
{
    match action {
        Action::Inbound(packet) => Some(unsupported_arrival_rule(packet, host)),
        Action::Call(call) => Some(unsupported_call_rule(call.function)),
        Action::Outbound(_) => None,
        Action::Command => None,
        Action::Code => None,
    }
}

fn unsupported_call_rule(function: Function) -> UnsupportedInput
    ensures { result ≡ unsupported_call_rule function }
{
    match function {
        Function::Socket => UnsupportedInput::SecondSocket,
        _ => UnsupportedInput::ListenerClose,
    }
}

fn unsupported_arrival_rule(packet: &Packet, host: &Host) -> UnsupportedInput
    ensures { result ≡ unsupported_arrival_rule host.now.state (segment_in packet.now) }
{
    match host.connection_snapshot() {
        None => unsupported_first_segment_rule(packet, host),
        Some(connection_snapshot) => why_connection_segment_is_unsupported(
            packet,
            host.state().is_closed(),
            connection_snapshot.is_reset,
        ),
    }
}

/// Of a first segment.
fn unsupported_first_segment_rule(packet: &Packet, host: &Host) -> UnsupportedInput
    requires { connection_snapshot_in host.now.state ≡ None }
    ensures { result ≡ unsupported_first_segment_rule host.now.state.endpoint.listener (segment_in packet.now) }
{
    if !is_listening(host) {
        UnsupportedInput::NotListening
    } else if is_syn_alone(packet.flags) && packet.start == 0 && packet.end <= packet.start {
        UnsupportedInput::SmallMss
    } else {
        UnsupportedInput::NotSyn
    }
}

fn is_listening(host: &Host) -> bool
    requires { connection_snapshot_in host.now.state ≡ None }
    ensures { result ≡ is_listening host.now.state.endpoint.listener }
{
    matches!(host.state(), ConnState::Listen)
}

fn is_syn_alone(flags: PacketFlags) -> bool
    ensures { result ≡ is_syn_alone (flags_of flags) }
{
    flags.syn && !flags.fin && !flags.rst && !flags.psh && !flags.ack
}

/// Of a segment on a connection, by whether it is closed, and by an RST.
fn why_connection_segment_is_unsupported(
    packet: &Packet,
    is_closed: bool,
    is_reset: bool,
) -> UnsupportedInput
    ensures { (c : ConnectionView) → is_closed ≡ is_closed_by c → is_reset ≡ c.is_reset → result ≡ why_connection_segment_is_unsupported c (segment_in packet.now) }
{
    if packet.end > packet.start {
        UnsupportedInput::Payload
    } else if packet.flags.syn {
        UnsupportedInput::SecondSyn
    } else if !is_closed {
        UnsupportedInput::StrayFin
    } else if is_reset {
        UnsupportedInput::AfterReset
    } else {
        UnsupportedInput::AfterFins
    }
}
