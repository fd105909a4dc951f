//! The failure of an event, found where it stopped a run.
ghost use Rattle.std.specs.Prelude.{◌≡◌, ◌<◌, ◌≤◌, ◌^◌, false, is_some, IfOk, IfSome};
ghost use Rattle.std.specs.List.{list_any};
ghost use Rattle.pd_host.specs.Expiries.{deadline_of};
ghost use Rattle.pd_host.specs.SendBlockers.{blocker_in};
ghost use Rattle.pd_print.specs.Answers.{answer_text};
ghost use Rattle.pd_run.specs.Limits.{is_long, written_times};
ghost use Rattle.pd_run.specs.Times.{time_range_of};
ghost use Rattle.pd_cause.specs.Failures.{is_failure, sender_at, ShowsPackets, Tells, IsFailureOf};
ghost use Rattle.pd_cause.specs.Outlook.{IsOutlook};
ghost use Rattle.pd_cause.specs.SenderSnapshots.{snapshot_of, reason_of};
ghost use Rattle.pd_cause.specs.Unexpected.{CountsUnexpected};
ghost use Rattle.pd_cause.specs.Inner.{expected_time_of};
ghost use Rattle.pd_refusal.specs.Escape.{escaped};

use crate::causes::aligned_packets::{
    AlignedPackets, aligned_packets, render_outbound_event_with_time_text,
    render_sent_event_with_moment_comment,
};
use crate::causes::failure::{
    ExpectedTime, Failed, Failure, MissingPacket, SenderSnapshot, TimeBackwards, WrongPacket,
    WrongResult,
};
use crate::causes::not_sent_reason::NotSentReason;
use crate::causes::outlook::dup_ack_timeout_and_sack_outlook;
use crate::causes::source_text::SourceText;
use crate::causes::unmatched::{
    count_unmatched_before_awaited_or_zero, list_first_unmatched_after_skipped,
};
use pd_host::Host;
use pd_match::Kind;
use pd_print::render_answer;
use pd_refusal::escaped;
use pd_run::{Precheck, RunState, StopPoint, StopReason, time_range_of};
use pd_script::{Action, Event, Packet, Time};
use pd_seg::{Answer, Sent};
use std::alloc::{AllocError, Global};

/// The failure of an event that stopped a run, and is written so; nothing where a rule stopped it.
///
/// # Errors
/// `AllocError` where a growth is refused.
pub fn failure_unless_stopped_by_rule(
    alloc: Global,
    event: &Event,
    stop: &StopPoint,
    source_text: SourceText,
) -> Result<Option<Failure>, AllocError>
    ensures rules { IfOk result (λ reported. is_some reported ≡ is_failure stop.now.stop_reason) }
    ensures reported { IfOk result (λ reported. IfSome reported (IsFailureOf source_text.time.items event.now stop.now)) }
{
    match what_failed_unless_stopped_by_rule(alloc, event, stop, source_text)? {
        None => Ok(None),
        Some(failed) => Ok(Some(failure_with_unmatched_and_sender(alloc, stop, failed)?)),
    }
}

/// The same without the sender at the stop.
fn what_failed_unless_stopped_by_rule(
    alloc: Global,
    event: &Event,
    stop: &StopPoint,
    source_text: SourceText,
) -> Result<Option<Failed>, AllocError>
    ensures rules { IfOk result (λ reported. is_some reported ≡ is_failure stop.now.stop_reason) }
    ensures reported { IfOk result (λ reported. IfSome reported (Tells source_text.time.items event.now stop.now.before stop.now.stop_reason)) }
{
    let before = &stop.before;
    let failed = match &stop.stop_reason {
        StopReason::FailedPrecheck(Precheck::OverLimit | Precheck::NotRun)
        | StopReason::Halted(_) => return Ok(None),
        StopReason::FailedPrecheck(Precheck::Backwards) => Failed::Backwards(
            describe_time_before_base(event, before, source_text),
        ),
        StopReason::Missing => {
            let script = render_if_outbound_or_else_source_text(alloc, event, source_text)?;
            Failed::Missing(describe_missing_packet(alloc, event, before, script)?)
        }
        StopReason::Differs(kind, sent, run) => {
            Failed::Packet(describe_wrong_packet(alloc, event, *kind, sent, run, source_text)?)
        }
        StopReason::Answered(answer, _) => Failed::Result(describe_wrong_result(
            alloc,
            *answer,
            source_text,
        )?),
    };
    Ok(Some(failed))
}

/// The run at the stop, whose sender is shown.
pub fn run_in_stop_reason_or_before_event(stop: &StopPoint) -> &RunState
    ensures { result.now.host ≡ sender_at stop.now.before stop.now.stop_reason }
{
    match &stop.stop_reason {
        StopReason::Differs(_, _, run) => run,
        StopReason::Answered(_, run) => run,
        _ => &stop.before,
    }
}

/// The failure, with the sender at the stop and its packets that were put out and not taken, the one compared left out.
fn failure_with_unmatched_and_sender(
    alloc: Global,
    stop: &StopPoint,
    failed: Failed,
) -> Result<Failure, AllocError>
    ensures failed { IfOk result (λ failure_with_unmatched_and_sender. failure_with_unmatched_and_sender.failed ≡ failed) }
    ensures sender { IfOk result (λ failure_with_unmatched_and_sender. failure_with_unmatched_and_sender.sender ≡ snapshot_of (sender_at stop.now.before stop.now.stop_reason)) }
{
    let run = run_in_stop_reason_or_before_event(stop);
    let compared = usize::from(matches!(stop.stop_reason, StopReason::Differs(_, _, _)));
    Ok(Failure {
        failed,
        unmatched: list_first_unmatched_after_skipped(alloc, run, compared)?,
        origins: Vec::new(alloc),
        dropped: Vec::new(alloc),
        sender: sender_snapshot_of_run(run),
    })
}

/// How the sender of a run stands.
pub fn sender_snapshot_of_run(run: &RunState) -> SenderSnapshot
    ensures { result ≡ snapshot_of run.now.host }
{
    let host = run.host();
    SenderSnapshot {
        state: host.state(),
        connection_snapshot: host.connection_snapshot(),
        expiry: host.deadline(),
    }
}

fn describe_time_before_base(
    event: &Event,
    before: &RunState,
    source_text: SourceText,
) -> TimeBackwards
    ensures { result.base ≡ before.now.base }
{
    TimeBackwards {
        event: source_text.event,
        time: absolute_start_or_zero(event.time),
        base: before.base(),
    }
}

/// The first moment of an absolute time.
fn absolute_start_or_zero(time: Time) -> u64 {
    match time {
        Time::Absolute(time) | Time::AbsoluteRange(time, _) => time,
        Time::Any | Time::Relative(_) | Time::RelativeRange(_, _) => 0,
    }
}

/// The report of an awaited event, which is shown so.
fn describe_missing_packet(
    alloc: Global,
    event: &Event,
    before: &RunState,
    script: Vec<u8>,
) -> Result<MissingPacket, AllocError>
    ensures reason { IfOk result (λ missing_packet. missing_packet.reason ≡ reason_of event.now.action (blocker_in before.now.host.state)) }
    ensures expiry { IfOk result (λ missing_packet. missing_packet.expiry ≡ deadline_of before.now.host.state) }
    ensures outlook { IfOk result (λ missing_packet. IsOutlook before.now.host.state missing_packet.outlook) }
{
    let host = before.host();
    let reason = NotSentReason::no_octets_expected_or_blocker(&event.action, host.send_blocker()?);
    Ok(MissingPacket {
        script,
        expected_time: expected_time_range_and_tolerance(event.time, before),
        expiry: host.deadline(),
        reason,
        words: not_sent_reason_words(alloc, reason, host)?,
        outlook: dup_ack_timeout_and_sack_outlook(alloc, host)?,
    })
}

/// A reason in words, with the numbers of a sender.
fn not_sent_reason_words(
    alloc: Global,
    reason: NotSentReason,
    host: &Host,
) -> Result<Vec<u8>, AllocError> {
    reason.in_words(
        alloc,
        host.connection_snapshot(),
        host.octet_needed_in_windows()?,
    )
}

/// The event by itself: its time as written, and of a packet what is written.
fn render_if_outbound_or_else_source_text(
    alloc: Global,
    event: &Event,
    source_text: SourceText,
) -> Result<Vec<u8>, AllocError> {
    match expected_packet_of(event) {
        Some(packet) => render_outbound_event_with_time_text(
            alloc,
            &escaped(alloc, &source_text.time)?,
            packet,
        ),
        None => Ok(source_text.event),
    }
}

fn describe_wrong_packet(
    alloc: Global,
    event: &Event,
    kind: Kind,
    sent: &Sent,
    run: &RunState,
    source_text: SourceText,
) -> Result<WrongPacket, AllocError>
    ensures kind { IfOk result (λ compared. compared.kind ≡ kind) }
    ensures at { IfOk result (λ compared. compared.at ≡ sent.now.at) }
    ensures packets { IfOk result (λ compared. ShowsPackets (escaped source_text.time.items) event.now.action sent.now run.now.base compared) }
    ensures unexpected { IfOk result (λ compared. CountsUnexpected event.now run.now compared.unexpected) }
{
    let pair = match &event.action {
        Action::Outbound(packet) => aligned_packets(
            alloc,
            &escaped(alloc, &source_text.time)?,
            packet,
            sent,
            run.base(),
        )?,
        Action::Inbound(_) | Action::Call(_) | Action::Command | Action::Code => AlignedPackets {
            script: source_text.event,
            actual: render_sent_event_with_moment_comment(alloc, sent, run.base())?,
        },
    };
    Ok(WrongPacket {
        kind,
        script: pair.script,
        actual: pair.actual,
        at: sent.at,
        expected_time: match kind {
            Kind::Time => expected_time_range_and_tolerance(event.time, run),
            _ => None,
        },
        unexpected: count_unmatched_before_awaited_or_zero(event, run),
    })
}

fn describe_wrong_result(
    alloc: Global,
    answer: Answer,
    source_text: SourceText,
) -> Result<WrongResult, AllocError>
    ensures { IfOk result (λ wrong_result. wrong_result.answer.items ≡ answer_text answer) }
{
    let answer = render_answer(alloc, answer)?;
    Ok(WrongResult {
        call: source_text.event,
        expected: source_text.result,
        answer,
    })
}

/// The packet that an event expects to leave.
fn expected_packet_of(event: &Event) -> Option<&Packet> {
    match &event.action {
        Action::Outbound(packet) => Some(packet),
        Action::Inbound(_) | Action::Call(_) | Action::Command | Action::Code => None,
    }
}

/// When a packet with a time is awaited.
fn expected_time_range_and_tolerance(time: Time, run: &RunState) -> Option<ExpectedTime>
    ensures { run.now.base < 2 ^ 61 → list_any is_long (written_times time) ≡ false → result ≡ expected_time_of time run.now }
{
    match time_range_of(run.base(), time) {
        None => None,
        Some((first, last)) => Some(ExpectedTime {
            first,
            last,
            tolerance: run.tolerance(),
        }),
    }
}
