//! Runs that are taken up in a state which an earlier one kept, to find where they stop and who let their packets go.
ghost use Rattle.std.specs.Prelude.{◌≡◌, ◌≤◌, [], true, option_map, IfOk, IfSome};
ghost use Rattle.pd_reparse.specs.Reading.{script_part};
ghost use Rattle.pd_run.specs.Laws.{unmatched};
ghost use Rattle.pd_run.specs.StopPoints.{stop_in};
ghost use Rattle.pd_script.specs.Script.{script_of};
ghost use Rattle.pd_cause.specs.Inner.{AreOriginsOf, IsResumed, IsTraced, knows_all_origins, unmatched_at};

use crate::causes::run_in_stop_reason_or_before_event;
use crate::dropped::MAX_EVENTS_BACK;
use crate::laws::law_outbox_is_first_in_first_out;
use crate::origins::{
    Origin, Trigger, count_packets_matched_by, note_triggers_if_packet_or_result_differs,
    origins_of_oldest_unmatched, step_and_note_packet_triggers,
};
use pd_reparse::{ParsedEvent, Reading, SharedList};
use pd_run::{
    Kind, Plain, RunState, StepEnd, StopPoint, Verdict, law_clock_base_and_queue_bounded_per_event,
    law_verdicts_have_reasons, preview_stop_reason_if_on_line,
};
use pd_settings::Settings;
use pd_track::Track;
use std::alloc::{AllocError, Global};

/// A run after so many events.
#[derive(Drop)]
pub struct ResumedRun {
    /// How many events it has passed.
    pub passed: usize,
    /// Its state after them.
    pub run: RunState,
}

/// Where a run stops, and the triggers of the packets that were put out last before that.
#[derive(Drop)]
pub struct TracedStop {
    /// Where it stops.
    pub stop: StopPoint,
    /// Their triggers, the stop's among them.
    pub triggers: Vec<Trigger>,
}

impl TracedStop {
    /// Whether it is known of each packet that nobody has taken at the stop.
    fn knows_all_origins(&self) -> bool
        ensures { result ≡ knows_all_origins self.now.stop self.now.triggers.items }
    {
        run_in_stop_reason_or_before_event(&self.stop)
            .host()
            .outbox()
            .len()
            <= self.triggers.len()
    }

    /// The origins of the oldest unmatched packets at the stop.
    ///
    /// # Errors
    /// `AllocError` where a growth is refused.
    pub fn origins_of_unmatched(&self, alloc: Global) -> Result<Vec<Origin>, AllocError>
        requires { knows_all_origins self.now.stop self.now.triggers.items ≡ true }
        ensures { IfOk result (λ origins. AreOriginsOf (unmatched_at self.now.stop) self.now.triggers.items origins.items) }
    {
        let run = run_in_stop_reason_or_before_event(&self.stop);
        origins_of_oldest_unmatched(alloc, run.host().outbox(), self.triggers.as_slice())
    }
}

/// The last state that a track kept before the events of a line from which on the unmatched packets are taken: mostly at
/// most three events before the first of that line. Nothing where it kept none.
///
/// # Errors
/// `AllocError` where a growth is refused.
pub fn find_resume_point_for_origins(
    track: &Track,
    line: usize,
) -> Result<Option<ResumedRun>, AllocError>
    ensures { IfOk result (λ resumed. IfSome resumed (λ t. IsResumed track.now.settings (script_of track.now.text) t.passed t.run)) }
{
    find_resume_point_at_checkpoint(track, last_checkpoint_number_for_origins(track, line))
}

/// The last state that a track kept before those events ahead of a line that are looked at for segments that were dropped, where
/// a packet differs or is missing there. Nothing where it kept none.
///
/// # Errors
/// `AllocError` where a growth is refused.
pub fn find_resume_point_for_dropped(
    track: &Track,
    verdict: Verdict,
    line: usize,
) -> Result<Option<ResumedRun>, AllocError>
    ensures { IfOk result (λ resumed. IfSome resumed (λ t. IsResumed track.now.settings (script_of track.now.text) t.passed t.run)) }
{
    match verdict {
        Verdict::Fail(_, kind) if is_packet_failure_kind(kind) => {
            find_resume_point_at_checkpoint(track, last_checkpoint_number_for_dropped(track, line))
        }
        _ => Ok(None),
    }
}

/// Whether a packet fails so.
fn is_packet_failure_kind(kind: Kind) -> bool {
    !matches!(kind, Kind::Result | Kind::Backwards)
}

/// After how many fourth events that state was kept; 0 where none was.
fn last_checkpoint_number_for_dropped(track: &Track, line: usize) -> usize
    ensures { result ≤ 1024 }
{
    let earlier = count_events_before_line(track.reading().events(), line).min(4096);
    let last = earlier.saturating_sub(MAX_EVENTS_BACK) / 4;
    for back in 0..last {
        if track.checkpoint(last - back - 1).is_some() {
            return last - back;
        }
    }
    0
}

/// The state that a track kept after so many fourth events, if it kept one.
fn find_resume_point_at_checkpoint(
    track: &Track,
    checkpoints: usize,
) -> Result<Option<ResumedRun>, AllocError>
    requires { checkpoints ≤ 1024 }
    ensures { IfOk result (λ resumed. IfSome resumed (λ t. IsResumed track.now.settings (script_of track.now.text) t.passed t.run)) }
{
    law_clock_base_and_queue_bounded_per_event();
    law_verdicts_have_reasons();
    if checkpoints == 0 {
        return Ok(None);
    }
    let Some(checkpoint) = track.checkpoint(checkpoints - 1) else {
        return Ok(None);
    };
    let mut run = checkpoint.state().copy()?;
    run.set_settings(track.settings());
    Ok(Some(ResumedRun {
        passed: 4 * checkpoints,
        run,
    }))
}

/// After how many fourth events the last state was kept where so many packets are unmatched, at most, as the events take that come
/// after it and before a line; 0 where none was. So all that are unmatched on that line were put out after it.
fn last_checkpoint_number_for_origins(track: &Track, line: usize) -> usize
    ensures { result ≤ 1024 }
{
    let events = track.reading().events();
    let earlier = count_events_before_line(events, line).min(4096);
    let last = earlier / 4;
    let mut until = earlier;
    let mut matched = 0usize;
    for back in 0..last {
        let checkpoints = last - back;
        matched = matched.saturating_add(count_packets_matched_by_events(
            events,
            4 * checkpoints,
            until,
        ));
        until = 4 * checkpoints;
        if let Some(checkpoint) = track.checkpoint(checkpoints - 1) {
            if checkpoint.state().host().outbox().len() <= matched {
                return checkpoints;
            }
        }
    }
    0
}

/// How many packets the events from one on, and before another, take.
fn count_packets_matched_by_events(
    events: &SharedList<ParsedEvent>,
    from: usize,
    until: usize,
) -> usize {
    let mut matched = 0usize;
    for place in from..until {
        if let Some(parsed_event) = events.get(place) {
            matched = matched.saturating_add(count_packets_matched_by(&parsed_event.event));
        }
    }
    matched
}

/// How many events begin before a line.
fn count_events_before_line(events: &SharedList<ParsedEvent>, line: usize) -> usize {
    let (blocks, rest) = events.blocks_and_rest();
    let mut count = count_before_line_among(rest, line);
    for block in blocks {
        count = count.saturating_add(count_before_line_among(block.as_slice(), line));
    }
    count
}

/// The same of events that are together.
fn count_before_line_among(events: &[ParsedEvent], line: usize) -> usize {
    events
        .iter()
        .filter(|parsed_event| parsed_event.event.line < line)
        .count()
}

/// Where the run of a script that was read stops on a line, of those on which events begin: at the first event there that has a
/// reason. With it come the triggers of the unmatched packets there. The run begins where it is taken up, if that gives all of
/// them, else at its first event. Nothing where no event stops the run there.
///
/// # Errors
/// `AllocError` where a growth is refused.
pub fn trace_stop_resumed_or_from_start(
    alloc: Global,
    reading: &Reading,
    settings: &Settings,
    resumed: Option<ResumedRun>,
    line: usize,
) -> Result<Option<TracedStop>, AllocError>
    requires { IfSome resumed (λ t. IsResumed settings.now (script_part reading.now) t.passed t.run) }
    ensures stop { IfOk result (λ found. option_map (λ t. t.stop) found ≡ stop_in line settings.now (script_part reading.now)) }
    ensures triggers { IfOk result (λ found. IfSome found (λ t. IsTraced settings.now (script_part reading.now) t.stop t.triggers.items)) }
    ensures whole { IfOk result (λ found. IfSome found (λ t. knows_all_origins t.stop t.triggers.items ≡ true)) }
{
    if let Some(resumed) = resumed {
        match trace_stop_from_resumed(alloc, reading, settings, resumed, line)? {
            None => return Ok(None),
            Some(found) if found.knows_all_origins() => return Ok(Some(found)),
            Some(_) => {}
        }
    }
    trace_stop_from_start(alloc, reading, settings, line)
}

/// The same from the first event on.
fn trace_stop_from_start(
    alloc: Global,
    reading: &Reading,
    settings: &Settings,
    line: usize,
) -> Result<Option<TracedStop>, AllocError>
    ensures stop { IfOk result (λ found. option_map (λ t. t.stop) found ≡ stop_in line settings.now (script_part reading.now)) }
    ensures triggers { IfOk result (λ found. IfSome found (λ t. IsTraced settings.now (script_part reading.now) t.stop t.triggers.items)) }
    ensures whole { IfOk result (λ found. IfSome found (λ t. knows_all_origins t.stop t.triggers.items ≡ true)) }
{
    law_clock_base_and_queue_bounded_per_event();
    match RunState::new(alloc, reading.header(), settings) {
        Ok(run) => trace_stop_from_resumed(
            alloc,
            reading,
            settings,
            ResumedRun { passed: 0, run },
            line,
        ),
        Err(_) => Ok(None),
    }
}

/// Where a run that is taken up stops on a line.
fn trace_stop_from_resumed(
    alloc: Global,
    reading: &Reading,
    settings: &Settings,
    resumed: ResumedRun,
    line: usize,
) -> Result<Option<TracedStop>, AllocError>
    requires { IsResumed settings.now (script_part reading.now) resumed.passed resumed.run }
    ensures stop { IfOk result (λ found. option_map (λ t. t.stop) found ≡ stop_in line settings.now (script_part reading.now)) }
    ensures triggers { IfOk result (λ found. IfSome found (λ t. IsTraced settings.now (script_part reading.now) t.stop t.triggers.items)) }
    ensures whole { unmatched resumed.run ≡ [] → resumed.passed ≡ 0 → IfOk result (λ found. IfSome found (λ t. knows_all_origins t.stop t.triggers.items ≡ true)) }
{
    law_clock_base_and_queue_bounded_per_event();
    law_verdicts_have_reasons();
    law_outbox_is_first_in_first_out();
    let events = reading.events();
    let mut stepper = Plain::new();
    let mut triggers = Vec::new(alloc);
    let mut run = resumed.run;
    for passed in resumed.passed..events.len() {
        let event = &events.at(passed).event;
        if let Some(stop_reason) = preview_stop_reason_if_on_line(&run, event, line)? {
            let stop = StopPoint {
                passed,
                before: run,
                stop_reason,
            };
            note_triggers_if_packet_or_result_differs(&mut triggers, event, &stop)?;
            return Ok(Some(TracedStop { stop, triggers }));
        }
        match step_and_note_packet_triggers(
            &mut stepper,
            &mut run,
            event,
            settings,
            &mut triggers,
        )? {
            StepEnd::Go => {}
            StepEnd::Stop(_) => return Ok(None),
        }
    }
    Ok(None)
}
