//! Puts a recording into lines.
use crate::record_error::RecordError;
use crate::recorded::{OwnEvent, RecordedAnswer, RecordedEvent, TraceSnapshot};
use crate::recording_text::{Recording, TraceEntry, TraceOrigin};
use pd_layout::{Layout, TextSpan, TriviaPart, is_single_trace_line, put_text_span};
use pd_print::{Direction, put_answer, put_event, put_time};
use pd_script::{Action, Time};
use pd_text::{LineList, Lines, MAX_OCTETS};
use std::alloc::{AllocError, Global};

/// Writes the lines of a recording.
#[derive(Drop)]
pub struct Writer<'a> {
    alloc: Global,
    /// The text that is recorded.
    source: &'a Lines,
    /// The lines so far.
    list: LineList,
    /// The octets of the line or lines that are being written.
    line: Vec<u8>,
    /// The sender's state after each event, where a trace has it.
    senders: &'a [TraceSnapshot],
    /// The trace of each event so far.
    trace_entries: Vec<TraceEntry>,
    /// At which line of the trace the last input begins.
    input: usize,
    /// How many packets that it let go are still to be written.
    left_of_input: usize,
}

impl<'a> Writer<'a> {
    /// Before the first line of the recording of a text; for a trace with how the sender stood after each event.
    pub fn new(alloc: Global, source: &'a Lines, senders: &'a [TraceSnapshot]) -> Writer<'a> {
        Writer {
            alloc,
            source,
            senders,
            list: LineList::new(alloc),
            line: Vec::new(alloc),
            trace_entries: Vec::new(alloc),
            input: 0,
            left_of_input: 0,
        }
    }

    /// Writes comments and blank lines, on lines of their own.
    ///
    /// # Errors
    /// `TooLarge` and `OutOfMemory`.
    pub fn put_comment_and_blank_lines(
        &mut self,
        pieces: &[TriviaPart],
    ) -> Result<(), RecordError> {
        for piece in pieces {
            if let TriviaPart::Comment(text_span) = piece {
                self.put_comment_indented_if_like_trace(*text_span)?;
            }
            self.end_line_checking_octet_limit()?;
        }
        Ok(())
    }

    /// Writes a header item.
    ///
    /// # Errors
    /// `TooLarge` and `OutOfMemory`.
    pub fn put_header_item_with_comments(&mut self, layout: &Layout) -> Result<(), RecordError> {
        self.put_comment_and_blank_lines(&layout.leading)?;
        put_text_span(&mut self.line, self.source, layout.parts.event)?;
        self.put_comments_at_line_end(&layout.trailing)?;
        self.end_line_checking_octet_limit()
    }

    /// Writes the comments of an event that records nothing.
    ///
    /// # Errors
    /// `TooLarge` and `OutOfMemory`.
    pub fn put_comments_of_unrecorded_event(&mut self, layout: &Layout) -> Result<(), RecordError> {
        self.put_comment_and_blank_lines(&layout.leading)?;
        self.put_comment_and_blank_lines(&layout.trailing)
    }

    /// Writes what is recorded in the place of an event.
    ///
    /// # Errors
    /// `TooLarge` and `OutOfMemory`.
    pub fn put_own_event_line_with_comments(
        &mut self,
        layout: &Layout,
        own: &OwnEvent,
    ) -> Result<(), RecordError> {
        self.put_comment_and_blank_lines(&layout.leading)?;
        match own.recorded_answer {
            None => self.append_packet_event_to_line(&own.recorded)?,
            Some(recorded_answer) => self.put_call_with_answer_and_note_if_expected(
                layout,
                own.recorded.event.time,
                recorded_answer,
            )?,
        }
        self.put_comments_at_line_end(&layout.trailing)?;
        self.end_line_and_push_trace_entry(&own.recorded)
    }

    /// Writes a packet that left before an input.
    ///
    /// # Errors
    /// `TooLarge` and `OutOfMemory`.
    pub fn put_packet_line_with_trace_entry(
        &mut self,
        recorded: &RecordedEvent,
    ) -> Result<(), RecordError> {
        self.append_packet_event_to_line(recorded)?;
        self.end_line_and_push_trace_entry(recorded)
    }

    /// The recording, which has so many events.
    ///
    /// # Errors
    /// `TooLarge` where it has too many lines or octets.
    pub fn into_recording(self, events: usize) -> Result<Recording, RecordError> {
        let Writer {
            list,
            trace_entries,
            ..
        } = self;
        match Lines::new(list) {
            Ok(lines) => Ok(Recording {
                lines,
                events,
                trace_entries,
            }),
            Err(_) => Err(RecordError::TooLarge),
        }
    }

    /// Adds an event in which a packet arrives or leaves.
    fn append_packet_event_to_line(&mut self, recorded: &RecordedEvent) -> Result<(), RecordError> {
        let time = recorded.event.time;
        match &recorded.event.action {
            Action::Inbound(packet) => put_event(&mut self.line, time, Direction::Inbound, packet)?,
            Action::Outbound(packet) => put_event(
                &mut self.line,
                time,
                Direction::Outbound,
                packet,
            )?,
            Action::Call(_) | Action::Command | Action::Code => {}
        }
        Ok(())
    }

    /// Adds a call: its time, its octets up to `=`, what the sender answers, and its note if that is the written result. If not,
    /// the comments of the note come before the call.
    fn put_call_with_answer_and_note_if_expected(
        &mut self,
        layout: &Layout,
        time: Time,
        recorded_answer: RecordedAnswer,
    ) -> Result<(), RecordError> {
        if !recorded_answer.is_expected {
            self.put_comment_and_blank_lines(&layout.in_note)?;
        }
        put_time(&mut self.line, time)?;
        self.line.extend_from_slice(b" ")?;
        put_text_span(&mut self.line, self.source, layout.parts.call)?;
        self.line.extend_from_slice(b" ")?;
        put_answer(&mut self.line, recorded_answer.answer)?;
        if let Some(note) = layout.parts.note {
            if recorded_answer.is_expected {
                self.line.extend_from_slice(b" ")?;
                put_text_span(&mut self.line, self.source, note)?;
            }
        }
        Ok(())
    }

    /// Adds the comments that stay on the line of an event.
    fn put_comments_at_line_end(&mut self, trailing: &[TriviaPart]) -> Result<(), RecordError> {
        for piece in trailing {
            if let TriviaPart::Comment(text_span) = piece {
                self.line.extend_from_slice(b" ")?;
                put_text_span(&mut self.line, self.source, *text_span)?;
            }
        }
        Ok(())
    }

    /// Adds a comment that is alone; one that looks like a line of a trace keeps a blank before it.
    fn put_comment_indented_if_like_trace(
        &mut self,
        text_span: TextSpan,
    ) -> Result<(), RecordError> {
        let mut comment = Vec::new(self.alloc);
        put_text_span(&mut comment, self.source, text_span)?;
        if is_single_trace_line(&comment) {
            self.line.extend_from_slice(b" ")?;
        }
        self.line.extend_from_slice(&comment)?;
        Ok(())
    }

    /// Ends the line of an event.
    fn end_line_and_push_trace_entry(
        &mut self,
        recorded: &RecordedEvent,
    ) -> Result<(), RecordError> {
        let traced = self.list.len().saturating_add(self.trace_entries.len());
        self.end_line_checking_octet_limit()?;
        self.push_trace_entry_if_traced(recorded, traced)?;
        Ok(())
    }

    /// Marks the event whose line was ended, where a trace has it; the trace has so many lines before it.
    fn push_trace_entry_if_traced(
        &mut self,
        recorded: &RecordedEvent,
        traced: usize,
    ) -> Result<(), AllocError> {
        let Some(sender) = self.senders.get(self.trace_entries.len()) else {
            return Ok(());
        };
        let origin = self.packet_origin_or_note_input(
            &recorded.event.action,
            traced,
            sender.unmatched,
        );
        self.trace_entries.push(TraceEntry {
            lines: self.list.len(),
            at: recorded.at,
            sender: *sender,
            origin,
        })?;
        Ok(())
    }

    /// The input or timer that let a packet go. Before an input acts all packets that left are recorded, so those that are
    /// unmatched after it are its own.
    fn packet_origin_or_note_input(
        &mut self,
        action: &Action,
        traced: usize,
        unmatched: usize,
    ) -> Option<TraceOrigin> {
        match action {
            Action::Outbound(_) if self.left_of_input == 0 => Some(TraceOrigin::Timer),
            Action::Outbound(_) => {
                self.left_of_input -= 1;
                Some(TraceOrigin::Line(self.input))
            }
            Action::Inbound(_) | Action::Call(_) | Action::Command | Action::Code => {
                self.input = traced.saturating_add(1);
                self.left_of_input = unmatched;
                None
            }
        }
    }

    /// Ends a line.
    fn end_line_checking_octet_limit(&mut self) -> Result<(), RecordError> {
        push_lines_split_at_newlines(&mut self.list, self.line.as_slice())?;
        self.line.clear();
        if self.list.octet_count_without_newlines() > MAX_OCTETS {
            return Err(RecordError::TooLarge);
        }
        Ok(())
    }
}

/// Adds a line, or several that newlines part.
fn push_lines_split_at_newlines(list: &mut LineList, octets: &[u8]) -> Result<(), AllocError> {
    for line in octets.split(|octet| *octet == b'\n') {
        list.push_or_ignore_if_newline_inside(line)?;
    }
    Ok(())
}
