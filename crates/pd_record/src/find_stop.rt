//! Where recording a script stops, for those who explain it.
ghost use Rattle.std.specs.Prelude.{◌≡◌, ◌≤◌, IfOk, length};
ghost use Rattle.pd_record.specs.Stops.{recording_stop, snapshot_recorder_if_event_on_line, stop_from};
ghost use Rattle.pd_record.specs.Inner.{Sound};

use crate::record_error::RecordError;
use crate::recorder::Recorder;
use pd_run::RunState;
use pd_script::{Event, Header};
use pd_settings::Settings;
use std::alloc::{AllocError, Global};

/// How recording stands at an event of a script.
#[derive(Drop)]
pub struct RecordingStop {
    /// How many events come before it.
    pub passed: usize,
    /// The run of what was recorded before it.
    pub run: RunState,
    /// The moment from which its time counts, in microseconds since the start of the run.
    pub base: u64,
}

/// Where recording a script that was read stops on a line, of those on which events begin: at the first event there that isn't
/// recorded. Nothing where recording doesn't begin, or doesn't stop at an event of the line.
///
/// # Errors
/// `AllocError` where a growth is refused.
pub fn find_recorder_state_stopped_on_line(
    alloc: Global,
    header: &Header,
    events: &[Event],
    settings: &Settings,
    line: usize,
) -> Result<Option<RecordingStop>, AllocError>
    requires few { length events.now ≤ 4096 }
    ensures { IfOk result (λ stop. stop ≡ recording_stop line header.now.items events.now settings.now) }
{
    match Recorder::new(alloc, header, settings, false) {
        Ok(start) => record_to_stop_on_line(alloc, start, events, line),
        Err(RecordError::OutOfMemory) => Err(AllocError),
        Err(_) => Ok(None),
    }
}

fn record_to_stop_on_line(
    alloc: Global,
    start: Recorder,
    events: &[Event],
    line: usize,
) -> Result<Option<RecordingStop>, AllocError>
    requires few { length events.now ≤ 4096 }
    requires sound { Sound start }
    requires base { start.base ≡ 0 }
    ensures { IfOk result (λ stop. stop ≡ stop_from line 0 events.now start) }
{
    let mut recorder = start;
    let mut passed = 0;
    for event in events {
        let stop = snapshot_recorder_if_event_on_line(&recorder, event, passed, line)?;
        match recorder.record_script_event(alloc, event) {
            Ok(_) => passed += 1,
            Err(RecordError::OutOfMemory) => return Err(AllocError),
            Err(_) => return Ok(stop),
        }
    }
    Ok(None)
}

/// How recording stands at an event on a line, after so many others.
fn snapshot_recorder_if_event_on_line(
    recorder: &Recorder,
    event: &Event,
    passed: usize,
    line: usize,
) -> Result<Option<RecordingStop>, AllocError>
    ensures { IfOk result (λ stop. stop ≡ snapshot_recorder_if_event_on_line line passed recorder.now event.now) }
{
    if event.line != line {
        return Ok(None);
    }
    Ok(Some(RecordingStop {
        passed,
        run: recorder.copy_run()?,
        base: recorder.base(),
    }))
}
