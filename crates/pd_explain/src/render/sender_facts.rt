//! The facts of how a sender stands, each with its name in text and in JSON.
ghost use Rattle.std.specs.Prelude.{◌≡◌};
ghost use Rattle.pd_explain.specs.States.{state_word};

use crate::render::facts::{
    FactValue, Facts, fact_value_of_moment_or_nothing, named_fact, number_fact,
};
use FactValue::{Moment, Words};
use pd_cause::SenderSnapshot;
use pd_host::{ConnState, ConnectionSnapshot, Recovery, WindowSnapshot};
use std::alloc::{AllocError, Global};

/// How a sender stands, but for the name of its state.
///
/// # Errors
/// `AllocError` where a growth is refused.
pub fn facts_of_sender_without_state_name<'a>(
    alloc: Global,
    sender: &SenderSnapshot,
) -> Result<Facts<'a>, AllocError> {
    let mut facts = Vec::new(alloc);
    put_sender_facts_without_state(&mut facts, sender)?;
    Ok(facts)
}

fn put_sender_facts_without_state<'a>(
    facts: &mut Facts<'a>,
    sender: &SenderSnapshot,
) -> Result<(), AllocError> {
    let Some(connection_snapshot) = sender.connection_snapshot else {
        return facts.extend_from_slice(&[named_fact("connection", "connection", Words("none"))]);
    };
    if connection_snapshot.is_reset {
        facts.extend_from_slice(&[named_fact("connection", "connection", Words("reset"))])?;
    }
    put_sequence_and_windows(facts, connection_snapshot)?;
    match connection_snapshot.windows {
        None => put_rto_and_expiry(facts, connection_snapshot, sender.expiry),
        Some(windows) => {
            put_pipe_prr_and_dup_ack_counts(facts, windows)?;
            put_rto_and_expiry(facts, connection_snapshot, sender.expiry)?;
            let recovery = Words(recovery_rfc_name(windows.recovery));
            facts.extend_from_slice(&[named_fact("recovery", "recovery", recovery)])
        }
    }
}

/// Adds the numbers of octets, the windows among them where there are any.
fn put_sequence_and_windows<'a>(
    facts: &mut Facts<'a>,
    connection_snapshot: ConnectionSnapshot,
) -> Result<(), AllocError> {
    facts.extend_from_slice(&[
        number_fact("una", "una", connection_snapshot.una),
        number_fact("next", "next", connection_snapshot.next),
        number_fact("top", "top", connection_snapshot.top),
        number_fact("end", "end", connection_snapshot.end),
    ])?;
    if let Some(windows) = connection_snapshot.windows {
        facts.extend_from_slice(&[
            number_fact("cwnd", "cwnd", windows.cwnd),
            number_fact("ssthresh", "ssthresh", windows.ssthresh),
            number_fact("rwnd", "rwnd", windows.rwnd),
        ])?;
    }
    let flight = connection_snapshot
        .top
        .saturating_sub(connection_snapshot.una);
    facts.extend_from_slice(&[number_fact("FlightSize", "flight_size", flight)])
}

/// Adds what recovery counts.
fn put_pipe_prr_and_dup_ack_counts<'a>(
    facts: &mut Facts<'a>,
    windows: WindowSnapshot,
) -> Result<(), AllocError> {
    if let Recovery::WithSack(pipe) = windows.recovery {
        facts.extend_from_slice(&[number_fact("pipe", "pipe", pipe)])?;
    }
    if let Some(prr) = windows.prr {
        facts.extend_from_slice(&[
            number_fact("prr_delivered", "prr_delivered", prr.prr_delivered),
            number_fact("prr_out", "prr_out", prr.prr_out),
        ])?;
    }
    facts.extend_from_slice(&[number_fact("DupAcks", "dup_acks", windows.dup_acks)])
}

fn put_rto_and_expiry<'a>(
    facts: &mut Facts<'a>,
    connection_snapshot: ConnectionSnapshot,
    expiry: Option<u64>,
) -> Result<(), AllocError> {
    facts.extend_from_slice(&[
        named_fact("RTO", "rto_us", Moment(connection_snapshot.rto_us)),
        named_fact(
            "expiry",
            "expiry_us",
            fact_value_of_moment_or_nothing(expiry, "none"),
        ),
    ])
}

fn recovery_rfc_name(recovery: Recovery) -> &'static str {
    match recovery {
        Recovery::Idle => "none",
        Recovery::WithSack(_) => "RFC6675",
        Recovery::WithoutSack => "RFC5681",
    }
}

/// The name of a state (RFC 9293, section 3.3.2).
pub fn state_name(state: ConnState) -> &'static str
    ensures { result.now ≡ state_word state }
{
    match state {
        ConnState::Closed => "CLOSED",
        ConnState::Listen => "LISTEN",
        ConnState::SynReceived => "SYN-RECEIVED",
        ConnState::Established => "ESTABLISHED",
        ConnState::FinWait1 => "FIN-WAIT-1",
        ConnState::FinWait2 => "FIN-WAIT-2",
        ConnState::CloseWait => "CLOSE-WAIT",
        ConnState::Closing => "CLOSING",
        ConnState::LastAck => "LAST-ACK",
        ConnState::TimeWait => "TIME-WAIT",
    }
}
