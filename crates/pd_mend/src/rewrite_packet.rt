//! Writes the fields of an awaited packet anew.
use crate::differences::Differences;
use crate::event_line::EventLine;
use crate::packet_columns::{PacketColumns, find_columns_of_packet_fields};
use crate::replacements::FieldEdits;
use crate::tokens::{Columns, octets_from};
use itoa::Buffer;
use pd_print::{PacketParts, render_packet_parts, render_time, script_packet_of_segment};
use pd_script::Time;
use pd_seg::Segment;
use std::alloc::AllocError;

/// The fields of a packet that are written anew.
#[derive(Clone, Copy)]
pub struct PacketRewrite<'a> {
    /// The packet that was sent.
    pub segment: &'a Segment,
    /// The fields that it has otherwise.
    pub fields: Differences,
    /// The time, if it is written anew.
    pub time: Option<Time>,
}

/// The first octets of the line of an awaited packet, up to some place, with fields that are written anew; nothing where they
/// aren't found.
///
/// # Errors
/// `AllocError` where a growth is refused.
pub fn rewrite_packet_fields(
    own: &EventLine<'_>,
    octets: &[u8],
    change: &PacketRewrite<'_>,
) -> Result<Option<Vec<u8>>, AllocError> {
    let Some(field_columns) = find_columns_of_packet_fields(&own.tokens, octets) else {
        return Ok(None);
    };
    let column_after_time = own.column_after_time_if_neighbours_align();
    let mut field_edits = FieldEdits::new(own.alloc, octets, column_after_time);
    if let Some(time) = change.time {
        field_edits.replace_field(field_columns.time, render_time(own.alloc, time)?.as_slice())?;
    }
    let actual = script_packet_of_segment(own.alloc, change.segment)?;
    let parts = render_packet_parts(own.alloc, &actual)?;
    replace_flags_and_sequence_that_differ(&mut field_edits, &field_columns, change, &parts)?;
    replace_ack_and_window_that_differ(&mut field_edits, &field_columns, change)?;
    if change.fields.options {
        replace_options(&mut field_edits, &field_columns, parts.options.as_slice())?;
    }
    Ok(Some(field_edits.finish(own.columns().to)?))
}

/// Writes the flags and the sequence numbers anew.
fn replace_flags_and_sequence_that_differ(
    field_edits: &mut FieldEdits<'_>,
    field_columns: &PacketColumns,
    change: &PacketRewrite<'_>,
    parts: &PacketParts,
) -> Result<(), AllocError> {
    let segment = change.segment;
    if change.fields.flags {
        field_edits.replace_field(field_columns.flags, parts.flags.as_slice())?;
    }
    if change.fields.start {
        replace_number(field_edits, field_columns.start, segment.start)?;
    }
    if change.fields.end {
        replace_number(field_edits, field_columns.end, segment.end)?;
    }
    if change.fields.length {
        replace_number(field_edits, field_columns.length, segment.data_len())?;
    }
    Ok(())
}

/// Writes the acknowledgment number and the window anew, where they are written.
fn replace_ack_and_window_that_differ(
    field_edits: &mut FieldEdits<'_>,
    field_columns: &PacketColumns,
    change: &PacketRewrite<'_>,
) -> Result<(), AllocError> {
    if let Some(columns) = field_columns.ack {
        if change.fields.ack {
            replace_number(field_edits, columns, change.segment.ack)?;
        }
    }
    if let Some(columns) = field_columns.win {
        if change.fields.win {
            replace_number(field_edits, columns, u32::from(change.segment.win))?;
        }
    }
    Ok(())
}

fn replace_number(
    field_edits: &mut FieldEdits<'_>,
    columns: Columns,
    number: u32,
) -> Result<(), AllocError> {
    let mut digits = Buffer::new();
    field_edits.replace_field(columns, digits.format(number).as_bytes())
}

/// Writes the options anew, which begin with a blank where there are any.
fn replace_options(
    field_edits: &mut FieldEdits<'_>,
    field_columns: &PacketColumns,
    options: &[u8],
) -> Result<(), AllocError> {
    let from = field_columns.before_options;
    match field_columns.options {
        Some(columns) if options.is_empty() => field_edits.replace_field(
            Columns {
                from,
                to: columns.to,
            },
            b"",
        ),
        Some(columns) => field_edits.replace_field(columns, octets_from(options, 1)),
        None => field_edits.replace_field(Columns { from, to: from }, options),
    }
}

/// The line of an event with its time written anew.
///
/// # Errors
/// `AllocError` where a growth is refused.
pub fn event_line_with_time(own: &EventLine<'_>, time: Time) -> Result<Vec<u8>, AllocError> {
    let column_after_time = own.column_after_time_if_neighbours_align();
    let mut field_edits = FieldEdits::new(own.alloc, own.octets, column_after_time);
    field_edits.replace_field(
        own.tokens.time_columns(),
        render_time(own.alloc, time)?.as_slice(),
    )?;
    field_edits.finish(own.columns().to)
}
