//! Puts what was recorded of a script into lines, with its comments.
use crate::placed_script::Script;
use crate::record_error::RecordError;
use crate::recorded::{EventRecording, RecordedEvent};
use crate::recorded_script::RecordedScript;
use crate::recording_text::Recording;
use crate::writer::Writer;
use pd_layout::{Layout, LayoutReader};
use pd_lex::Place;
use pd_text::Lines;
use std::alloc::Global;

/// Puts what was recorded of a script into lines.
///
/// # Errors
/// `TooLarge` where there are too many lines or octets, and `OutOfMemory`.
pub fn compose_recording(
    alloc: Global,
    lines: &Lines,
    script: &Script,
    recorded_script: &RecordedScript,
) -> Result<Recording, RecordError> {
    let mut layouts = LayoutReader::new(alloc, lines, Place::first())?;
    let senders = match &recorded_script.senders {
        Some(list) => list.as_slice(),
        None => &[],
    };
    let mut writer = Writer::new(alloc, lines, senders);
    for _ in script.header.as_slice() {
        writer.put_header_item_with_comments(&layouts.read_header_item(alloc)?)?;
    }
    for (after, event_recording) in script.places.iter().zip(recorded_script.per_event.iter()) {
        let layout = layouts.read_event(alloc, *after)?;
        write_packets_before_event_and_event(&mut writer, &layout, event_recording)?;
    }
    write_packets(&mut writer, recorded_script.rest.as_slice())?;
    writer.put_comment_and_blank_lines(&layouts.into_remaining_trivia())?;
    writer.into_recording(recorded_script.count)
}

/// Puts what was recorded of an event into lines.
fn write_packets_before_event_and_event(
    writer: &mut Writer,
    layout: &Layout,
    event_recording: &EventRecording,
) -> Result<(), RecordError> {
    write_packets(writer, event_recording.before.as_slice())?;
    match &event_recording.own {
        Some(own) => writer.put_own_event_line_with_comments(layout, own),
        None => writer.put_comments_of_unrecorded_event(layout),
    }
}

/// Puts packets into lines.
fn write_packets(writer: &mut Writer, packets: &[RecordedEvent]) -> Result<(), RecordError> {
    for packet in packets {
        writer.put_packet_line_with_trace_entry(packet)?;
    }
    Ok(())
}
