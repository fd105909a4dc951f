//! The recording of a whole script.
ghost use Rattle.std.specs.Prelude.{◌≡◌, ◌≤◌, ◌++◌, ◌∷◌, [], length, IfOk, OnOk};
ghost use Rattle.pd_record.specs.Recording.{event_in, events_in, events_of, events_of_all, events_recorded, records, recorded_script_of};
ghost use Rattle.pd_record.specs.Inner.{Finds, Gives, Sound};

use crate::record_error::RecordError;
use crate::recorded::{EventRecording, OwnEvent, RecordedEvent, TraceSnapshot};
use crate::recorder::Recorder;
use pd_script::{Event, Header};
use pd_settings::Settings;
use std::alloc::{AllocError, Global};
use std::marker::Model;

/// The recording of a script.
#[derive(Drop)]
pub struct RecordedScript {
    /// The recording of each of its events.
    pub per_event: Vec<EventRecording>,
    /// The packets recorded at its end.
    pub rest: Vec<RecordedEvent>,
    /// How many events are recorded in all.
    pub count: usize,
    /// The sender's state after each of them, in order, where a trace has it.
    pub senders: Option<Vec<TraceSnapshot>>,
}

impl Model for RecordedScript {
    ghost use Rattle.pd_record.specs.Recording.{RecordedScriptView};

    ghost Value = { RecordedScriptView };

    ghost view = { λ t. record { per_event = t.per_event.items; rest = t.rest.items } };
}

/// Records the events of a script.
///
/// # Errors
/// `Stopped` where the script's run doesn't begin, or stops at an event for another reason than what the event expects;
/// `TooManyEvents`, `TooLongGap` and `OutOfMemory`.
pub fn record_script(
    alloc: Global,
    header: &Header,
    events: &[Event],
    settings: &Settings,
    with_trace: bool,
) -> Result<RecordedScript, RecordError>
    requires few { length events.now ≤ 4096 }
    ensures { Finds (recorded_script_of header.now.items events.now settings.now) result }
{
    let mut recorder = Recorder::new(alloc, header, settings, with_trace)?;
    let per_event = record_events(alloc, &mut recorder, events)?;
    let now = recorder.clock();
    let rest = recorder.record_departures_until_as_unmet(alloc, 0, now)?;
    Ok(RecordedScript {
        per_event,
        rest,
        count: recorder.count(),
        senders: recorder.into_sender_snapshots_if_traced(),
    })
}

/// Records events in their order.
fn record_events(
    alloc: Global,
    recorder: &mut Recorder,
    events: &[Event],
) -> Result<Vec<EventRecording>, RecordError>
    requires few { length events.now ≤ 4096 }
    requires sound { Sound recorder.old }
    requires base { recorder.old.base ≡ 0 }
    ensures per_event { Gives (λ per_event. per_event.items) (records events.now [] recorder.old) result recorder.new }
    ensures sound { OnOk result (Sound recorder.new) }
{
    let mut per_event = Vec::new(alloc);
    for event in events {
        let event_recording = recorder.record_script_event(alloc, event)?;
        append_recording_to_list(&mut per_event, event_recording)?;
    }
    Ok(per_event)
}

fn append_recording_to_list(
    list: &mut Vec<EventRecording>,
    event_recording: EventRecording,
) -> Result<(), AllocError>
    ensures { OnOk result (list.new.items ≡ list.old.items ++ event_recording ∷ []) }
{
    list.push(event_recording)?;
    Ok(())
}

/// All recorded events, in their order.
///
/// # Errors
/// `AllocError` where a growth is refused.
pub fn events_of(alloc: Global, recorded_script: RecordedScript) -> Result<Vec<Event>, AllocError>
    ensures { IfOk result (λ events. events.items ≡ events_of recorded_script) }
{
    let mut events = Vec::new(alloc);
    for event_recording in recorded_script.per_event {
        push_each_recorded_event(&mut events, event_recording.before)?;
        push_own_event_if_any(&mut events, event_recording.own)?;
    }
    push_each_recorded_event(&mut events, recorded_script.rest)?;
    Ok(events)
}

fn push_each_recorded_event(
    events: &mut Vec<Event>,
    list: Vec<RecordedEvent>,
) -> Result<(), AllocError>
    ensures { OnOk result (events.new.items ≡ events.old.items ++ events_in list.items) }
{
    for recorded in list {
        events.push(recorded.event)?;
    }
    Ok(())
}

fn push_own_event_if_any(events: &mut Vec<Event>, own: Option<OwnEvent>) -> Result<(), AllocError>
    ensures { OnOk result (events.new.items ≡ events.old.items ++ event_in own) }
{
    match own {
        Some(own) => {
            events.push(own.recorded.event)?;
            Ok(())
        }
        None => Ok(()),
    }
}
