//! Runs with a note of what let each packet go: the input of a line, or the timer.
ghost use Rattle.std.specs.Prelude.{◌≡◌, ◌-◌, ◌++◌, ◌<◌, ◌≤◌, ◌^◌, ◌+◌, false, is_some, None, Some, IfOk, OnOk, length, replicate, if◌then◌else◌};
ghost use Rattle.std.specs.List.{list_any};
ghost use Rattle.pd_host.specs.Expiries.{advanced, deadline_of, due_by};
ghost use Rattle.pd_host.specs.Host.{IsShort};
ghost use Rattle.pd_run.specs.Prechecks.{failed_precheck};
ghost use Rattle.pd_run.specs.Laws.{unmatched};
ghost use Rattle.pd_run.specs.Limits.{is_long, written_times};
ghost use Rattle.pd_run.specs.Step.{action_time_not_before_clock, step, IsStepEnd, stop_reason};
ghost use Rattle.pd_run.specs.declared.stepper.StepEnd.TheVariants.{Go};
ghost use Rattle.pd_cause.specs.Origins.{awaits_packet, count_packets_matched_by, packets_in, after_timer, after_input};
ghost use Rattle.pd_cause.specs.Inner.{AreOriginsOf, origin_by, triggers_at, triggers_by, triggers_of};

use crate::laws::law_outbox_is_first_in_first_out;
use pd_host::{Host, HostEnd, Outbox};
use pd_run::{
    Plain, RunState, StepEnd, Stepper, StopPoint, StopReason, failed_precheck,
    single_moment_or_base,
};
use pd_script::{Action, Event};
use pd_seg::{SendRule, Sent};
use pd_settings::Settings;
use std::alloc::{AllocError, Global};

/// How many packets are reported at most: the one compared, and ten others.
const MAX_REPORTED: usize = 11;

/// The trigger of a packet.
#[derive(Clone, Copy, PartialEq, Eq)]
pub enum Trigger {
    /// The timer.
    Timer,
    /// The input at a line: a packet that arrived, or a call.
    Line(usize),
}

/// The origin of a packet: what let it go, when and by which rule.
#[derive(Clone, Copy, PartialEq, Eq)]
pub struct Origin {
    /// The timer, or an input.
    pub trigger: Trigger,
    /// When it was put out, in microseconds since the start of the run.
    pub at: u64,
    /// The rule of the sender.
    pub rule: SendRule,
}

/// One event of a run: it is noted who let the packets go that it put out, where it passes.
///
/// # Errors
/// `AllocError` where a growth is refused.
pub fn step_and_note_packet_triggers(
    stepper: &mut Plain,
    run: &mut RunState,
    event: &Event,
    settings: &Settings,
    triggers: &mut Vec<Trigger>,
) -> Result<StepEnd, AllocError>
    requires room { stepper.old < 2 ^ 64 - 1 }
    requires live { run.old.host.end_reason ≡ None }
    requires clock { run.old.clock < 2 ^ 61 }
    requires base { run.old.base < 2 ^ 61 }
    requires short { IsShort run.old.host.state }
    ensures ends { IfOk result (λ end. IsStepEnd (step run.old event.now) end run.new) }
    ensures one_more { OnOk result (stepper.new ≡ stepper.old + 1) }
    ensures noted { IfOk result (λ end. end ≡ Go → triggers.new.items ≡ triggers.old.items ++ triggers_at run.old event.now) }
{
    law_outbox_is_first_in_first_out();
    let before = count_unmatched(run);
    let expired = count_unmatched_after_expiries(run, event)?;
    let end = stepper.step(run, event, settings)?;
    if let StepEnd::Go = end {
        let after = count_unmatched_and_matched_by_event(run, event)?;
        put_triggers_by_outbox_counts(triggers, event, before, expired, after)?;
    }
    Ok(end)
}

/// Notes the same of an event that stopped a run.
///
/// # Errors
/// `AllocError` where a growth is refused.
pub fn note_triggers_if_packet_or_result_differs(
    triggers: &mut Vec<Trigger>,
    event: &Event,
    stop: &StopPoint,
) -> Result<(), AllocError>
    requires live { stop.now.before.host.end_reason ≡ None }
    requires clock { stop.now.before.clock < 2 ^ 61 }
    requires base { stop.now.before.base < 2 ^ 61 }
    requires stops { stop_reason stop.now.before event.now ≡ Some stop.now.stop_reason }
    ensures { OnOk result (triggers.new.items ≡ triggers.old.items ++ triggers_by stop.now.before event.now stop.now.stop_reason) }
{
    law_outbox_is_first_in_first_out();
    match &stop.stop_reason {
        StopReason::Differs(_, _, run) => note_triggers_between_runs(
            triggers,
            event,
            &stop.before,
            run,
        ),
        StopReason::Answered(_, run) => note_triggers_between_runs(
            triggers,
            event,
            &stop.before,
            run,
        ),
        StopReason::FailedPrecheck(_) | StopReason::Halted(_) | StopReason::Missing => Ok(()),
    }
}

/// The same where a packet or an answer was compared in a run.
fn note_triggers_between_runs(
    triggers: &mut Vec<Trigger>,
    event: &Event,
    before: &RunState,
    run: &RunState,
) -> Result<(), AllocError>
    requires live { before.now.host.end_reason ≡ None }
    requires clock { before.now.clock < 2 ^ 61 }
    requires base { before.now.base < 2 ^ 61 }
    ensures { failed_precheck before.now.base event.now ≡ None → length (unmatched run.now) ≡ length (after_input before.now event.now) → OnOk result (triggers.new.items ≡ triggers.old.items ++ triggers_at before.now event.now) }
{
    law_outbox_is_first_in_first_out();
    let stood = count_unmatched(before);
    let expired = count_unmatched_after_expiries(before, event)?;
    let after = count_unmatched(run);
    put_triggers_by_outbox_counts(triggers, event, stood, expired, after)
}

/// Adds who let the packets go that an event put out, by how many stood before, after its expiries and after it.
fn put_triggers_by_outbox_counts(
    triggers: &mut Vec<Trigger>,
    event: &Event,
    before: usize,
    expired: usize,
    after: usize,
) -> Result<(), AllocError>
    ensures { OnOk result (triggers.new.items ≡ triggers.old.items ++ triggers_of ((if awaits_packet event.now.action then after else expired) - before) (after - (if awaits_packet event.now.action then after else expired)) event.now.line) }
{
    let by_timer = if awaits_packet(&event.action) {
        after
    } else {
        expired
    };
    put_timer_then_line_triggers(
        triggers,
        by_timer.saturating_sub(before),
        after.saturating_sub(by_timer),
        event.line,
    )
}

/// Adds who let so many packets go: first the timer, and then the input of a line.
fn put_timer_then_line_triggers(
    triggers: &mut Vec<Trigger>,
    timer: usize,
    input: usize,
    line: usize,
) -> Result<(), AllocError>
    ensures { OnOk result (triggers.new.items ≡ triggers.old.items ++ triggers_of timer input line) }
{
    repeat_trigger(triggers, timer, Trigger::Timer)?;
    repeat_trigger(triggers, input, Trigger::Line(line))
}

/// Adds a trigger so many times.
fn repeat_trigger(
    triggers: &mut Vec<Trigger>,
    count: usize,
    trigger: Trigger,
) -> Result<(), AllocError>
    ensures { OnOk result (triggers.new.items ≡ triggers.old.items ++ replicate count trigger) }
{
    for _time in 0..count {
        triggers.push(trigger)?;
    }
    Ok(())
}

/// How many packets of a run are unmatched.
fn count_unmatched(run: &RunState) -> usize
    ensures { result ≡ length (unmatched run.now) }
{
    run.host().outbox().len()
}

/// The same with the one that an event took.
fn count_unmatched_and_matched_by_event(run: &RunState, event: &Event) -> Result<usize, AllocError>
    ensures { IfOk result (λ count. count ≡ length (unmatched run.now) + count_packets_matched_by event.now) }
{
    match count_unmatched(run).checked_add(count_packets_matched_by(event)) {
        Some(count) => Ok(count),
        None => Err(AllocError),
    }
}

/// How many packets are unmatched after all expiries up to the moment at which an event acts.
fn count_unmatched_after_expiries(run: &RunState, event: &Event) -> Result<usize, AllocError>
    requires live { run.now.host.end_reason ≡ None }
    requires clock { run.now.clock < 2 ^ 61 }
    requires base { run.now.base < 2 ^ 61 }
    ensures { IfOk result (λ count. failed_precheck run.now.base event.now ≡ None → awaits_packet event.now.action ≡ false → count ≡ length (after_timer run.now event.now)) }
{
    let before = count_unmatched(run);
    if awaits_packet(&event.action) || failed_precheck(run.base(), event).is_some() {
        return Ok(before);
    }
    let moment = action_time_not_before_clock(run, event);
    if has_expiry_by(run, moment) {
        return count_unmatched_after_advance(run.host(), moment);
    }
    Ok(before)
}

/// The moment at which an event acts.
pub fn action_time_not_before_clock(run: &RunState, event: &Event) -> u64
    requires clock { run.now.clock < 2 ^ 61 }
    requires base { run.now.base < 2 ^ 61 }
    requires short { list_any is_long (written_times event.now.time) ≡ false }
    ensures acts { result ≡ action_time_not_before_clock run.now event.now }
    ensures early { result < 2 ^ 62 }
{
    single_moment_or_base(run.base(), event.time).max(run.clock())
}

/// Whether an expiry lies at or before a moment.
pub fn has_expiry_by(run: &RunState, until: u64) -> bool
    ensures { result ≡ is_some (due_by until (deadline_of run.now.host.state)) }
{
    match run.host().deadline() {
        None => false,
        Some(at) => at <= until,
    }
}

/// How many packets of a host are unmatched after all expiries up to a moment.
fn count_unmatched_after_advance(host: &Host, until: u64) -> Result<usize, AllocError>
    requires live { host.now.end_reason ≡ None }
    requires early { until < 2 ^ 62 }
    ensures { IfOk result (λ count. count ≡ length (packets_in host.now.state.endpoint.outbox (advanced until host.now.state))) }
{
    let before = host.outbox().len();
    let mut host = host.copy()?;
    match host.advance(until) {
        Ok(()) => Ok(host.outbox().len()),
        Err(HostEnd::Halted(_)) => Ok(before),
        Err(HostEnd::OutOfMemory) => Err(AllocError),
    }
}

/// How many packets an event takes that passes.
pub fn count_packets_matched_by(event: &Event) -> usize
    ensures { result ≡ count_packets_matched_by event.now }
{
    if awaits_packet(&event.action) { 1 } else { 0 }
}

/// Whether an action awaits a packet.
pub fn awaits_packet(action: &Action) -> bool
    ensures { result ≡ awaits_packet action.now }
{
    match action {
        Action::Outbound(_) => true,
        Action::Inbound(_) => false,
        Action::Call(_) => false,
        Action::Command => false,
        Action::Code => false,
    }
}

/// The origins of the oldest unmatched packets, of which the last triggers are known.
///
/// # Errors
/// `AllocError` where a growth is refused.
pub fn origins_of_oldest_unmatched(
    alloc: Global,
    outbox: &Outbox,
    triggers: &[Trigger],
) -> Result<Vec<Origin>, AllocError>
    requires { length outbox.now ≤ length triggers.now }
    ensures { IfOk result (λ origins. AreOriginsOf outbox.now triggers.now origins.items) }
{
    let skipped = triggers.len() - outbox.len();
    let mut origins = Vec::new(alloc);
    for place in 0..outbox.len().min(MAX_REPORTED) {
        match outbox.get(place) {
            Some(sent) => origins.push(origin_from_trigger(sent, triggers[skipped + place]))?,
            None => unreachable!(),
        }
    }
    Ok(origins)
}

fn origin_from_trigger(sent: &Sent, trigger: Trigger) -> Origin
    ensures { result ≡ origin_by trigger sent.now }
{
    Origin {
        trigger,
        at: sent.at,
        rule: sent.rule,
    }
}
