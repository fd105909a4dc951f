//! Records scripts.
ghost use Rattle.std.specs.Prelude.{◌≡◌, false, IfErr, IfOk, length, Ok, Some};
ghost use Rattle.pd_script.specs.Script.{script_of};
ghost use Rattle.pd_record.specs.Recording.{events_of, recording_of};
ghost use Rattle.pd_record.specs.Answered.{IsRecording, IsSettled, Refuses};
ghost use Rattle.pd_layout.specs.Canonical.{IsCanonical};
ghost use Rattle.pd_layout.specs.ReadAs.{IsReadAs};
ghost use Rattle.pd_record.specs.Inner.{IsWritten};
ghost use Rattle.pd_record.specs.PlacedScripts.{IsRead};
ghost use Rattle.pd_record.specs.declared.record_error.RecordError.TheVariants.{OutOfMemory};

use crate::compose::compose_recording;
use crate::placed_script::{Script, read_placed_script_if_valid};
use crate::record_error::RecordError;
use crate::recorded_script::{RecordedScript, events_of, record_script};
use crate::recording_text::Recording;
use crate::unchanged::is_own_recording_without_trace;
use pd_host::{law_each_send_appends_one_packet, law_expiries_append_in_order_without_settings};
use pd_layout::is_canonical_text_of_header_and_events;
use pd_run::{law_clock_base_and_queue_bounded_per_event, law_verdicts_have_reasons, run_all};
use pd_settings::Settings;
use pd_text::Lines;
use std::alloc::Global;

/// Records a script under settings, for a trace with how the sender stands after each event. The recording is read again before
/// it is answered, unless it is the text itself.
///
/// # Errors
/// `Stopped` where the text is no script, or its run doesn't begin or stops at an event for another reason than what the event
/// expects; `TooManyEvents`, `TooLongGap` and `TooLarge` where the recording would be over these limits; `OutOfMemory`; and
/// `Differs` where the text isn't read as what was recorded or isn't laid out as recordings are, which is a fault of this
/// program.
pub fn record_script_text(
    alloc: Global,
    lines: &Lines,
    settings: &Settings,
    with_trace: bool,
) -> Result<Recording, RecordError>
    ensures recorded { IfOk result (λ recording. IsRecording lines.now settings.now recording.lines recording.events) }

    // Recording it gives the same events, and the same lines: those of a text like it stay as they are.
    ensures again { IfOk result (λ recording. IsRecording recording.lines settings.now recording.lines recording.events) }
    ensures settled { IfOk result (λ recording. IsSettled recording.lines settings.now) }
    ensures stays { IsSettled lines.now settings.now → with_trace ≡ false → IfOk result (λ recording. recording.lines ≡ lines.now) }
    ensures spared { IsSettled lines.now settings.now → with_trace ≡ false → IfErr result (λ refusal. refusal ≡ OutOfMemory) }
    ensures refused { IfErr result (Refuses (recording_of lines.now settings.now)) }
{
    law_clock_base_and_queue_bounded_per_event();
    law_expiries_append_in_order_without_settings();
    law_each_send_appends_one_packet();
    law_verdicts_have_reasons();
    let Some(script) = read_placed_script_if_valid(alloc, lines)? else {
        let verdict = run_all(alloc, lines, settings)?;
        return Err(RecordError::Stopped(verdict));
    };
    let recorded_script = record_script(
        alloc,
        &script.header,
        script.events.as_slice(),
        settings,
        with_trace,
    )?;
    // A text that is its own recording keeps its lines.
    if is_own_recording_without_trace(alloc, lines, &script, &recorded_script, with_trace)? {
        copy_lines_as_recording(alloc, lines, &script, &recorded_script)
    } else {
        compose_and_reread(alloc, lines, &script, recorded_script)
    }
}

/// The recording that is its text itself.
fn copy_lines_as_recording(
    alloc: Global,
    lines: &Lines,
    script: &Script,
    recorded_script: &RecordedScript,
) -> Result<Recording, RecordError>
    ensures same { IfOk result (λ recording. (recording.lines ≡ lines.now) × (recording.events ≡ length script.now.events.items)) }
    ensures spared { IfErr result (λ refusal. refusal ≡ OutOfMemory) }
    ensures refused { IfErr result (Refuses (Ok recorded_script.now)) }
{
    Ok(Recording {
        lines: lines.copy()?,
        events: script.events.len(),
        trace_entries: Vec::new(alloc),
    })
}

/// The recording that is written anew, and read again. Then it passes, since each recorded event was a step of the recorder's
/// run.
fn compose_and_reread(
    alloc: Global,
    lines: &Lines,
    script: &Script,
    recorded_script: RecordedScript,
) -> Result<Recording, RecordError>
    ensures written { IfOk result (IsWritten script.now.header.items (events_of recorded_script)) }
    ensures refused { IfErr result (Refuses (Ok recorded_script)) }
{
    let recording = compose_recording_narrowing_errors(alloc, lines, script, &recorded_script)?;
    let events = events_of(alloc, recorded_script)?;
    if recording.events == events.len()
        && is_canonical_text_of_header_and_events(
            alloc,
            &recording.lines,
            &script.header,
            events.as_slice(),
        )?
    {
        Ok(recording)
    } else {
        Err(RecordError::Differs)
    }
}

/// The recording, in lines.
fn compose_recording_narrowing_errors(
    alloc: Global,
    lines: &Lines,
    script: &Script,
    recorded_script: &RecordedScript,
) -> Result<Recording, RecordError>
    ensures { IfErr result (Refuses (Ok recorded_script.now)) }
{
    match compose_recording(alloc, lines, script, recorded_script) {
        Ok(recording) => Ok(recording),
        Err(RecordError::TooLarge) => Err(RecordError::TooLarge),
        Err(_) => Err(RecordError::OutOfMemory),
    }
}
