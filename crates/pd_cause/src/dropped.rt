//! Segments that a check of the sender dropped, before a run stopped.
ghost use Rattle.std.specs.Prelude.{◌≡◌, ◌==◌, ◌<◌, ◌^◌, ◌+◌, ◌++◌, ◌∷◌, ◌||◌, [], false, true, None, nat_le, IfOk, IfSome, OnOk};
ghost use Rattle.std.specs.List.{filter_map, list_any};
ghost use Rattle.pd_host.specs.Expiries.{advanced};
ghost use Rattle.pd_run.specs.Limits.{is_long, is_packet_number_over_limit, written_times};
ghost use Rattle.pd_run.specs.Step.{action_time_not_before_clock};
ghost use Rattle.pd_reparse.specs.Reading.{script_part};
ghost use Rattle.pd_cause.specs.Dropped.{is_check_that_drops_segment, deciding_check, failed_check_after_expiries, dropped_in_event, dropped_before, dropped_segment_if_check_drops, last_dropped_segments_if_packet_stop, last_dropped_segments_of_last_events};
ghost use Rattle.pd_cause.specs.Inner.{IsResumed, Reaches};

use crate::origins::{action_time_not_before_clock, has_expiry_by};
use crate::resume::ResumedRun;
use pd_host::{Host, HostEnd, SegmentCheck};
use pd_reparse::Reading;
use pd_run::{
    Plain, RunState, StepEnd, Stepper, StopPoint, StopReason, failed_check_of_arriving_packet,
    failed_precheck, law_clock_base_and_queue_bounded_per_event,
};
use pd_script::{Action, Event, Packet};
use pd_settings::Settings;
use std::alloc::{AllocError, Global};

/// How many events before a stop are looked at.
pub const MAX_EVENTS_BACK: usize = 16;
/// How many segments are reported at most.
const MAX_REPORTED: usize = 4;

/// A segment that a check dropped.
#[derive(Clone, Copy)]
pub struct DroppedSegment {
    /// The line of the packet that arrived.
    pub line: usize,
    /// The check that it didn't pass.
    pub failed_check: SegmentCheck,
}

/// The last segments that checks dropped, of the events before one of a script that was read. The run is taken up on its way, or
/// else is run from its first event.
///
/// # Errors
/// `AllocError` where a growth is refused.
fn last_dropped_segments_before_event(
    alloc: Global,
    reading: &Reading,
    settings: &Settings,
    resumed: Option<ResumedRun>,
    passed: usize,
) -> Result<Vec<DroppedSegment>, AllocError>
    requires resumed { IfSome resumed (λ t. IsResumed settings.now (script_part reading.now) t.passed t.run) }
    requires reached { Reaches settings.now (script_part reading.now) passed }
    ensures { IfOk result (λ dropped. dropped.items ≡ dropped_before settings.now (script_part reading.now) passed) }
{
    match resumed {
        Some(resumed) if resumes_early_enough(resumed.passed, passed) => {
            last_dropped_segments_by_resumed_run(alloc, reading, settings, resumed, passed)
        }
        _ => last_dropped_segments_by_full_run(alloc, reading, settings, passed),
    }
}

/// The same where a run stops: before a packet that differs or is missing; else none.
///
/// # Errors
/// `AllocError` where a growth is refused.
pub fn last_dropped_segments_if_packet_stop(
    alloc: Global,
    reading: &Reading,
    settings: &Settings,
    resumed: Option<ResumedRun>,
    stop: &StopPoint,
) -> Result<Vec<DroppedSegment>, AllocError>
    requires resumed { IfSome resumed (λ t. IsResumed settings.now (script_part reading.now) t.passed t.run) }
    requires reached { Reaches settings.now (script_part reading.now) stop.now.passed }
    ensures { IfOk result (λ dropped. dropped.items ≡ last_dropped_segments_if_packet_stop settings.now (script_part reading.now) stop.now) }
{
    match stop.stop_reason {
        StopReason::Missing | StopReason::Differs(_, _, _) => {
            last_dropped_segments_before_event(alloc, reading, settings, resumed, stop.passed)
        }
        StopReason::FailedPrecheck(_) | StopReason::Halted(_) | StopReason::Answered(_, _) => Ok(
            Vec::new(alloc),
        ),
    }
}

/// Whether a run that was taken up after so many events has those before it that are looked at.
fn resumes_early_enough(begun: usize, passed: usize) -> bool
    ensures { result ≡ nat_le (begun + 16) passed }
{
    passed >= MAX_EVENTS_BACK && begun <= passed - MAX_EVENTS_BACK
}

/// The same by a run from the first event.
fn last_dropped_segments_by_full_run(
    alloc: Global,
    reading: &Reading,
    settings: &Settings,
    passed: usize,
) -> Result<Vec<DroppedSegment>, AllocError>
    requires reached { Reaches settings.now (script_part reading.now) passed }
    ensures { IfOk result (λ dropped. dropped.items ≡ dropped_before settings.now (script_part reading.now) passed) }
{
    law_clock_base_and_queue_bounded_per_event();
    match RunState::new(alloc, reading.header(), settings) {
        Ok(run) => last_dropped_segments_by_resumed_run(
            alloc,
            reading,
            settings,
            ResumedRun { passed: 0, run },
            passed,
        ),
        Err(_) => Ok(Vec::new(alloc)),
    }
}

/// The same by a run that is taken up.
fn last_dropped_segments_by_resumed_run(
    alloc: Global,
    reading: &Reading,
    settings: &Settings,
    resumed: ResumedRun,
    passed: usize,
) -> Result<Vec<DroppedSegment>, AllocError>
    requires resumed { IsResumed settings.now (script_part reading.now) resumed.passed resumed.run }
    requires reached { Reaches settings.now (script_part reading.now) passed }
    requires early { ((resumed.passed == 0) || nat_le (resumed.passed + 16) passed) ≡ true }
    ensures { IfOk result (λ dropped. dropped.items ≡ dropped_before settings.now (script_part reading.now) passed) }
{
    law_clock_base_and_queue_bounded_per_event();
    let events = reading.events();
    let mut stepper = Plain::new();
    let mut dropped = Vec::new(alloc);
    let mut run = resumed.run;
    for number in resumed.passed..passed {
        let event = &events.at(number).event;
        push_dropped_segment_or_none_of_event(&mut dropped, &run, event)?;
        match stepper.step(&mut run, event, settings)? {
            StepEnd::Go => {}
            StepEnd::Stop(_) => unreachable!(),
        }
    }
    last_dropped_segments_of_last_events(alloc, dropped.as_slice())
}

/// Notes the segment that is dropped in an event, or that none is.
fn push_dropped_segment_or_none_of_event(
    dropped: &mut Vec<Option<DroppedSegment>>,
    run: &RunState,
    event: &Event,
) -> Result<(), AllocError>
    requires live { run.now.host.end_reason ≡ None }
    requires clock { run.now.clock < 2 ^ 61 }
    requires base { run.now.base < 2 ^ 61 }
    ensures { OnOk result (dropped.new.items ≡ dropped.old.items ++ dropped_in_event run.now event.now ∷ []) }
{
    dropped.push(dropped_in_event(run, event)?)?;
    Ok(())
}

/// The segment that is dropped in an event.
fn dropped_in_event(run: &RunState, event: &Event) -> Result<Option<DroppedSegment>, AllocError>
    requires live { run.now.host.end_reason ≡ None }
    requires clock { run.now.clock < 2 ^ 61 }
    requires base { run.now.base < 2 ^ 61 }
    ensures { IfOk result (λ dropped. dropped ≡ dropped_in_event run.now event.now) }
{
    let check = deciding_check(run, event)?;
    Ok(dropped_segment_if_check_drops(event.line, check))
}

/// The check that decides on the segment of an event; none where a check bars the event.
///
/// # Errors
/// `AllocError` where a growth is refused.
pub fn deciding_check(run: &RunState, event: &Event) -> Result<Option<SegmentCheck>, AllocError>
    requires live { run.now.host.end_reason ≡ None }
    requires clock { run.now.clock < 2 ^ 61 }
    requires base { run.now.base < 2 ^ 61 }
    ensures { IfOk result (λ check. check ≡ deciding_check run.now event.now) }
{
    if failed_precheck(run.base(), event).is_some() {
        return Ok(None);
    }
    match &event.action {
        Action::Inbound(packet) => failed_check_in_event(run, event, packet),
        Action::Outbound(_) | Action::Call(_) | Action::Command | Action::Code => Ok(None),
    }
}

/// The check that the packet of an event doesn't pass.
fn failed_check_in_event(
    run: &RunState,
    event: &Event,
    packet: &Packet,
) -> Result<Option<SegmentCheck>, AllocError>
    requires live { run.now.host.end_reason ≡ None }
    requires clock { run.now.clock < 2 ^ 61 }
    requires base { run.now.base < 2 ^ 61 }
    requires short { list_any is_long (written_times event.now.time) ≡ false }
    requires fits { is_packet_number_over_limit packet.now ≡ false }
    ensures { IfOk result (λ failed_check. failed_check ≡ failed_check_after_expiries packet.now (advanced (action_time_not_before_clock run.now event.now) run.now.host.state)) }
{
    let moment = action_time_not_before_clock(run, event);
    if has_expiry_by(run, moment) {
        return failed_check_after_expiries(run.host(), packet, moment);
    }
    failed_check_of_arriving_packet(run.host(), packet)
}

/// The same where expiries come before it.
fn failed_check_after_expiries(
    host: &Host,
    packet: &Packet,
    until: u64,
) -> Result<Option<SegmentCheck>, AllocError>
    requires live { host.now.end_reason ≡ None }
    requires early { until < 2 ^ 62 }
    requires fits { is_packet_number_over_limit packet.now ≡ false }
    ensures { IfOk result (λ failed_check. failed_check ≡ failed_check_after_expiries packet.now (advanced until host.now.state)) }
{
    let mut host = host.copy()?;
    match host.advance(until) {
        Ok(()) => failed_check_of_arriving_packet(&host, packet),
        Err(HostEnd::Halted(_)) => Ok(None),
        Err(HostEnd::OutOfMemory) => Err(AllocError),
    }
}

fn dropped_segment_if_check_drops(
    line: usize,
    failed_check: Option<SegmentCheck>,
) -> Option<DroppedSegment>
    ensures { result ≡ dropped_segment_if_check_drops line failed_check }
{
    match failed_check {
        Some(failed_check) if is_check_that_drops_segment(failed_check) => Some(DroppedSegment {
            line,
            failed_check,
        }),
        _ => None,
    }
}

/// Whether a check is one by which a segment counts for nothing.
fn is_check_that_drops_segment(failed_check: SegmentCheck) -> bool
    ensures { result ≡ is_check_that_drops_segment failed_check }
{
    match failed_check {
        SegmentCheck::StrayRst
        | SegmentCheck::OutsideWindow
        | SegmentCheck::ChallengedRst
        | SegmentCheck::WithoutAck
        | SegmentCheck::RefusedAck
        | SegmentCheck::EarlyAck
        | SegmentCheck::OldAck => true,
        SegmentCheck::NotRun | SegmentCheck::ExactRst | SegmentCheck::FirstAck => false,
    }
}

/// The last of the segments that were dropped in the last events.
#[tactic(auto, using(crate::proofs::DroppedLemmas::filtered_more))]
fn last_dropped_segments_of_last_events(
    alloc: Global,
    each: &[Option<DroppedSegment>],
) -> Result<Vec<DroppedSegment>, AllocError>
    ensures { IfOk result (λ reported. reported.items ≡ last_dropped_segments_of_last_events each.now) }
{
    let mut dropped = Vec::new(alloc);
    for event in &each[each.len().saturating_sub(MAX_EVENTS_BACK)..] {
        push_if_some(&mut dropped, *event)?;
    }
    let first = dropped.len().saturating_sub(MAX_REPORTED);
    Vec::from_slice(alloc, &dropped[first..])
}

/// Keeps the segment of an event, if there is one.
fn push_if_some(
    list: &mut Vec<DroppedSegment>,
    dropped: Option<DroppedSegment>,
) -> Result<(), AllocError>
    ensures { OnOk result (list.new.items ≡ list.old.items ++ filter_map (λ it. it) (dropped ∷ [])) }
{
    if let Some(segment) = dropped {
        list.push(segment)?;
    }
    Ok(())
}
