//! Why recording a script stops, as the cause that a block reports.
use pd_cause::{Cause, Failed, cause_of_event_stop, explain_by_rerun_unless_pass};
use pd_host::Halt;
use pd_record::{RecordingStop, find_recorder_state_stopped_on_line};
use pd_refusal::place_of_event_after_passed;
use pd_reparse::{ParsedEvent, Reading, read};
use pd_run::{Precheck, StopPoint, StopReason, Verdict, run_all};
use pd_script::parse;
use pd_settings::Settings;
use pd_text::Lines;
use std::alloc::{AllocError, Global};

/// The cause of a verdict with which recording a text stops; nothing for a verdict that recording it doesn't come to.
///
/// # Errors
/// `AllocError` where a growth is refused.
pub fn cause_of_verdict(
    alloc: Global,
    lines: &Lines,
    settings: &Settings,
    verdict: Verdict,
) -> Result<Option<Cause>, AllocError> {
    let (line, stop_reason) = match verdict {
        Verdict::Pass(_) | Verdict::Syntax(_) => return cause_by_running_whole_text(
            alloc, lines, settings,
        ),
        Verdict::Unsupported(line) => (line, StopReason::Halted(Halt::Unsupported)),
        Verdict::Limit(line) => (line, StopReason::Halted(Halt::Limit)),
        Verdict::Fail(line, _) => (line, StopReason::FailedPrecheck(Precheck::Backwards)),
    };
    let parsed = parse(alloc, lines)?;
    let events = parsed.events.as_slice();
    match find_recorder_state_stopped_on_line(alloc, &parsed.header, events, settings, line)? {
        Some(stop) => cause_of_stop(alloc, lines, stop, stop_reason),
        None => cause_by_running_whole_text(alloc, lines, settings),
    }
}

/// The cause where a text is no script, or its header isn't run: recording stops then as a run does.
fn cause_by_running_whole_text(
    alloc: Global,
    lines: &Lines,
    settings: &Settings,
) -> Result<Option<Cause>, AllocError> {
    let verdict = run_all(alloc, lines, settings)?;
    match explain_by_rerun_unless_pass(alloc, lines, settings, verdict)? {
        Some(explanation) => Ok(Some(explanation.cause)),
        None => Ok(None),
    }
}

/// The cause where recording stops at an event. Its time counts from the base of the script's times, which may lie past what was
/// recorded last.
fn cause_of_stop(
    alloc: Global,
    lines: &Lines,
    stop: RecordingStop,
    stop_reason: StopReason,
) -> Result<Option<Cause>, AllocError> {
    let RecordingStop { passed, run, base } = stop;
    let stopped = StopPoint {
        passed,
        before: run,
        stop_reason,
    };
    cause_of_stop_point(alloc, lines, &stopped, base)
}

/// The same where an event of a text stopped the run so.
fn cause_of_stop_point(
    alloc: Global,
    lines: &Lines,
    stopped: &StopPoint,
    base: u64,
) -> Result<Option<Cause>, AllocError> {
    let reading = read(alloc, lines)?;
    match reading.events().get(stopped.passed) {
        Some(parsed_event) => cause_of_event(alloc, lines, &reading, parsed_event, stopped, base),
        None => Ok(None),
    }
}

/// The same where this event of what the text was read as stopped it.
fn cause_of_event(
    alloc: Global,
    lines: &Lines,
    reading: &Reading,
    parsed_event: &ParsedEvent,
    stopped: &StopPoint,
    base: u64,
) -> Result<Option<Cause>, AllocError> {
    let place = place_of_event_after_passed(reading, stopped.passed);
    let cause = cause_of_event_stop(alloc, lines, place, parsed_event, stopped)?;
    Ok(Some(with_base_if_backwards(cause, base)))
}

/// A cause; a time that is too early counts from this moment, in microseconds since the start of the run.
fn with_base_if_backwards(cause: Cause, base: u64) -> Cause {
    let mut cause = cause;
    if let Cause::Failed(failure) = &mut cause {
        set_base_if_backwards(&mut failure.failed, base);
    }
    cause
}

/// Puts this moment in the place of that from which a time that lies too early counts.
fn set_base_if_backwards(failed: &mut Failed, base: u64) {
    if let Failed::Backwards(time_backwards) = failed {
        time_backwards.base = base;
    }
}
