//! The text of an awaited packet, to be written elsewhere at another time.
use crate::event_line::EventLine;
use crate::replacements::FieldEdits;
use crate::tokens::{Columns, octets_from};
use pd_print::render_time;
use pd_script::{Packet, Time};
use std::alloc::{AllocError, Global};

/// An awaited packet as a line has it, with the comment that ends that line.
#[derive(Drop)]
pub struct EventText {
    /// The awaited packet.
    pub packet: Packet,
    /// Its time.
    line_time: Time,
    /// The octets, with the blanks before it where it is the first of its line.
    octets: Vec<u8>,
    /// Where the time stands in them.
    time: Columns,
    /// Where the event ends.
    end: usize,
    /// The column of what follows the time, if lines beside it have one.
    column_after_time: Option<usize>,
}

impl EventText {
    /// The text of an event that awaits this packet.
    ///
    /// # Errors
    /// `AllocError` where a growth is refused.
    pub fn from_event_line_and_its_packet(
        own: &EventLine<'_>,
        packet: &Packet,
    ) -> Result<EventText, AllocError> {
        let from = own.start_column_including_indent_if_first();
        let time = own.tokens.time_columns();
        Ok(EventText {
            packet: packet.copy()?,
            line_time: own.event.time,
            octets: Vec::from_slice(
                own.alloc,
                octets_from(own.line_through_event_or_trailing_comment(), from),
            )?,
            time: Columns {
                from: time.from.saturating_sub(from),
                to: time.to.saturating_sub(from),
            },
            end: own.columns().to.saturating_sub(from),
            column_after_time: own.column_after_time_if_neighbours_align(),
        })
    }

    /// The kind of its time: that of the line.
    pub fn original_line_time(&self) -> Time {
        self.line_time
    }

    /// The same at another time.
    ///
    /// # Errors
    /// `AllocError` where a growth is refused.
    pub fn octets_with_time_replaced(
        &self,
        alloc: Global,
        time: Time,
    ) -> Result<Vec<u8>, AllocError> {
        let mut field_edits = FieldEdits::new(
            alloc,
            self.octets.as_slice(),
            self.column_after_time,
        );
        field_edits.replace_field(self.time, render_time(alloc, time)?.as_slice())?;
        field_edits.finish(self.end)
    }
}
