//! Where a run stops, and why.
ghost use Rattle.std.specs.Prelude.{◌≡◌, ◌<◌, ◌≤◌, ◌^◌, None, IfOk, length};
ghost use Rattle.pd_host.specs.Host.{IsShort, fresh_host};
ghost use Rattle.pd_run.specs.StopPoints.{preview_stop_reason_if_on_line, stop_from, stop_in};

use crate::laws::law_sender_deadline_ahead_and_queue_bounded;
use crate::run_state::RunState;
use crate::stepper::StepEnd;
use crate::stop_reason::StopReason;
use pd_script::{Event, Parsed};
use pd_settings::Settings;
use std::alloc::{AllocError, Global};

/// Where a run stops.
#[derive(Drop)]
pub struct StopPoint {
    /// How many events passed before.
    pub passed: usize,
    /// The run as the event found it.
    pub before: RunState,
    /// Why it stops there.
    pub stop_reason: StopReason,
}

/// Where the run of a script that was read stops on a line, of those on which events begin: at the first event there that has a
/// reason. Nothing where no event stops the run there.
///
/// # Errors
/// `AllocError` where a growth is refused.
pub fn run_to_stop_on_line(
    alloc: Global,
    parsed: &Parsed,
    settings: &Settings,
    line: usize,
) -> Result<Option<StopPoint>, AllocError>
    requires few { length parsed.now.events ≤ 4096 }
    ensures { IfOk result (λ stop. stop ≡ stop_in line settings.now parsed.now) }
{
    match RunState::new(alloc, &parsed.header, settings) {
        Ok(start) => run_events_to_stop_on_line(parsed.events.as_slice(), settings, start, line),
        Err(_) => Ok(None),
    }
}

/// Why an event on the line stops a run.
///
/// # Errors
/// `AllocError` where a growth is refused.
pub fn preview_stop_reason_if_on_line(
    run: &RunState,
    event: &Event,
    line: usize,
) -> Result<Option<StopReason>, AllocError>
    requires live { run.now.host.end_reason ≡ None }
    requires clock { run.now.clock < 2 ^ 61 }
    requires base { run.now.base < 2 ^ 61 }
    requires short { IsShort run.now.host.state }
    ensures { IfOk result (λ reason. reason ≡ preview_stop_reason_if_on_line line run.now event.now) }
{
    if event.line == line {
        run.preview_stop_reason_at_event(event)
    } else {
        Ok(None)
    }
}

fn run_events_to_stop_on_line(
    events: &[Event],
    settings: &Settings,
    start: RunState,
    line: usize,
) -> Result<Option<StopPoint>, AllocError>
    requires few { length events.now ≤ 4096 }
    requires fresh { start.host ≡ fresh_host settings.now }
    requires clock { start.clock ≡ 0 }
    requires base { start.base ≡ 0 }
    ensures { IfOk result (λ stop. stop ≡ stop_from line 0 events.now start) }
{
    law_sender_deadline_ahead_and_queue_bounded();
    let mut state = start;
    let mut passed = 0;
    for event in events {
        if let Some(stop_reason) = preview_stop_reason_if_on_line(&state, event, line)? {
            let before = state;
            return Ok(Some(StopPoint {
                passed,
                before,
                stop_reason,
            }));
        }
        match state.step(event)? {
            StepEnd::Go => passed += 1,
            StepEnd::Stop(_) => return Ok(None),
        }
    }
    Ok(None)
}
