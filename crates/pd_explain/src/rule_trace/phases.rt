//! Phases, which are rules that go on: the state of a connection, its loss recovery, and its windows; and the names of checks.
ghost use Rattle.std.specs.Prelude.{◌≡◌, ◌++◌, IfOk, OnOk};
ghost use Rattle.pd_explain.specs.Inner.{names_of};
ghost use Rattle.pd_explain.specs.RulePhases.{check_name, growth_name, phases, phases_of_snapshot, phases_of_windows, recovery_name, state_rule_name, window_name};

use pd_host::{ConnState, ConnectionSnapshot, Host, Recovery, SegmentCheck, WindowSnapshot};
use std::alloc::{AllocError, Global};

/// How a sender stands: its state, and from the end of the handshake on its loss recovery, the growth of its window, and
/// the peer's window.
///
/// # Errors
/// `AllocError` where a growth is refused.
pub fn phases(alloc: Global, host: &Host) -> Result<Vec<&'static str>, AllocError>
    ensures { IfOk result (λ names. names_of names.items ≡ phases host.now.state) }
{
    let mut names: Vec<&'static str> = Vec::new(alloc);
    names.push(state_rule_name(host.state()))?;
    if let Some(snapshot) = host.connection_snapshot() {
        put_phases_of_snapshot(&mut names, snapshot)?;
    }
    Ok(names)
}

fn put_phases_of_snapshot(
    names: &mut Vec<&'static str>,
    snapshot: ConnectionSnapshot,
) -> Result<(), AllocError>
    ensures { OnOk result (names_of names.new.items ≡ names_of names.old.items ++ phases_of_windows snapshot.windows) }
{
    if let Some(windows) = snapshot.windows {
        names.push(recovery_name(windows.recovery))?;
        names.push(growth_name(windows))?;
        names.push(window_name(windows))?;
    }
    Ok(())
}

fn state_rule_name(state: ConnState) -> &'static str
    ensures { result.now ≡ state_rule_name state }
{
    match state {
        ConnState::Closed => "rfc9293.state.closed",
        ConnState::Listen => "rfc9293.state.listen",
        ConnState::SynReceived => "rfc9293.state.syn-received",
        ConnState::Established => "rfc9293.state.established",
        ConnState::FinWait1 => "rfc9293.state.fin-wait-1",
        ConnState::FinWait2 => "rfc9293.state.fin-wait-2",
        ConnState::CloseWait => "rfc9293.state.close-wait",
        ConnState::Closing => "rfc9293.state.closing",
        ConnState::LastAck => "rfc9293.state.last-ack",
        ConnState::TimeWait => "rfc9293.state.time-wait",
    }
}

fn recovery_name(recovery: Recovery) -> &'static str
    ensures { result.now ≡ recovery_name recovery }
{
    match recovery {
        Recovery::Idle => "rfc5681.no-recovery",
        Recovery::WithSack(_) => "rfc6675.recovery",
        Recovery::WithoutSack => "rfc5681.recovery",
    }
}

fn growth_name(windows: WindowSnapshot) -> &'static str
    ensures { result.now ≡ growth_name windows }
{
    if windows.cwnd < windows.ssthresh {
        "rfc5681.slow-start"
    } else {
        "rfc5681.congestion-avoidance"
    }
}

fn window_name(windows: WindowSnapshot) -> &'static str
    ensures { result.now ≡ window_name windows }
{
    if windows.rwnd == 0 {
        "rfc9293.window.closed"
    } else {
        "rfc9293.window.open"
    }
}

/// The name of a check that decides on a segment.
pub fn check_name(check: SegmentCheck) -> &'static str
    ensures { result.now ≡ check_name check }
{
    match check {
        SegmentCheck::NotRun => "own.check.not-run",
        SegmentCheck::StrayRst => "rfc9293.check.rst-outside-window",
        SegmentCheck::OutsideWindow => "rfc9293.check.outside-window",
        SegmentCheck::ExactRst => "rfc9293.check.rst",
        SegmentCheck::ChallengedRst => "rfc5961.check.challenged-rst",
        SegmentCheck::WithoutAck => "rfc9293.check.without-ack",
        SegmentCheck::FirstAck => "rfc9293.check.first-ack",
        SegmentCheck::RefusedAck => "rfc9293.check.refused-ack",
        SegmentCheck::EarlyAck => "rfc9293.check.early-ack",
        SegmentCheck::OldAck => "rfc9293.check.old-ack",
    }
}
