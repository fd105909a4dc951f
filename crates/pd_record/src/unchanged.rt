//! Texts that are recordings already: their recordings have their own events, and they are laid out as recordings are.
ghost use Rattle.std.specs.Prelude.{◌≡◌, ◌++◌, ◌∷◌, ◌↔◌, [], false, Some, IfOk, IsTrue};
ghost use Rattle.pd_layout.specs.Canonical.{IsCanonical};
ghost use Rattle.pd_layout.specs.ReadAs.{AreSameEvents};
ghost use Rattle.pd_script.specs.Script.{script_of};
ghost use Rattle.pd_record.specs.Inner.{GoesAfter};
ghost use Rattle.pd_record.specs.Recording.{event_in, events_in, events_of, events_recorded};
ghost use Rattle.pd_record.specs.PlacedScripts.{IsRead};

use crate::placed_script::Script;
use crate::recorded::{EventRecording, OwnEvent, RecordedEvent};
use crate::recorded_script::RecordedScript;
use pd_layout::{is_canonical, is_same_event_but_for_line};
use pd_script::Event;
use pd_text::Lines;
use std::alloc::{AllocError, Global};

/// Whether no trace is asked for, what was recorded of a script are its own events, and its text is laid out as recordings are.
///
/// # Errors
/// `AllocError` where a growth is refused.
pub fn is_own_recording_without_trace(
    alloc: Global,
    lines: &Lines,
    script: &Script,
    recorded_script: &RecordedScript,
    with_trace: bool,
) -> Result<bool, AllocError>
    requires { IsRead (script_of lines.now) (Some script.now) }
    ensures { IfOk result (λ kept. IsTrue kept ↔ (with_trace ≡ false) × AreSameEvents script.now.events.items (events_of recorded_script.now) × IsCanonical lines.now) }
{
    let events = script.events.as_slice();
    if !with_trace && are_events_as_recorded(events, recorded_script) {
        is_canonical(alloc, lines, script.header.as_slice(), events)
    } else {
        Ok(false)
    }
}

/// Whether just these events were recorded, but for their lines.
fn are_events_as_recorded(events: &[Event], recorded_script: &RecordedScript) -> bool
    ensures { IsTrue result ↔ AreSameEvents events.now (events_of recorded_script.now) }
{
    let mut left = events;
    for event_recording in recorded_script.per_event.as_slice() {
        match strip_event_recording_prefix(left, event_recording) {
            Some(after) => left = after,
            None => return false,
        }
    }
    match strip_recorded_events_prefix(left, recorded_script.rest.as_slice()) {
        Some(after) => after.is_empty(),
        None => false,
    }
}

/// The events after those that were recorded of one event of a script; nothing where they don't begin with these.
fn strip_event_recording_prefix<'a>(
    events: &'a [Event],
    event_recording: &EventRecording,
) -> Option<&'a [Event]>
    ensures { GoesAfter events.now (events_recorded event_recording.now) result }
{
    let after = strip_recorded_events_prefix(events, event_recording.before.as_slice())?;
    strip_own_event_prefix_if_any(after, &event_recording.own)
}

/// The events after what is in the place of an event.
fn strip_own_event_prefix_if_any<'a>(
    events: &'a [Event],
    own: &Option<OwnEvent>,
) -> Option<&'a [Event]>
    ensures { GoesAfter events.now (event_in own.now) result }
{
    match own {
        Some(own) => strip_event_prefix(events, &own.recorded.event),
        None => Some(events),
    }
}

/// The events after some that were recorded.
fn strip_recorded_events_prefix<'a>(
    events: &'a [Event],
    list: &[RecordedEvent],
) -> Option<&'a [Event]>
    ensures { GoesAfter events.now (events_in list.now) result }
{
    let mut left = events;
    for recorded in list {
        match strip_event_prefix(left, &recorded.event) {
            Some(after) => left = after,
            None => return None,
        }
    }
    Some(left)
}

/// The events after one.
fn strip_event_prefix<'a>(events: &'a [Event], event: &Event) -> Option<&'a [Event]>
    ensures { GoesAfter events.now (event.now ∷ []) result }
{
    match events {
        [first, others @ ..] => if is_same_event_but_for_line(first, event) {
            Some(others)
        } else {
            None
        },
        [] => None,
    }
}
