//! Whether texts are laid out as recordings are.
ghost use Rattle.std.specs.Prelude.{◌≡◌, ◌-◌, ◌≤◌, ◌<◌, IfOk, IfSome, length};
ghost use Rattle.std.specs.List.{position};
ghost use Rattle.pd_layout.specs.Canonical.{action_line, after_octets, lines_between, first_event_or_end_line_index, events_canonical, first_line, gap, is_canonical, index_of_first_blank_or_end, item_line, first_item_event_or_end_line_index, items_canonical};
ghost use Rattle.pd_lex.specs.Octets.{is_blank};
ghost use Rattle.pd_print.specs.Packets.{event_text};
ghost use Rattle.pd_layout.specs.Internal.{lines_of};

use crate::canonical_calls::{has_prefix_and_gap, is_line_canonical_call_and_gap};
use crate::comments::{are_empty_or_closed_comment_lines, are_rest_and_later_lines_only_comments};
use crate::line_cursor::LineCursor;
use pd_print::{Direction, put_event};
use pd_script::{Action, Event, HeaderItem, Packet, Time};
use pd_text::Lines;
use std::alloc::{AllocError, Global};

/// Whether a text with these header items and events is laid out as recordings are.
///
/// # Errors
/// `AllocError` where a growth is refused.
pub fn is_canonical(
    alloc: Global,
    lines: &Lines,
    items: &[HeaderItem],
    events: &[Event],
) -> Result<bool, AllocError>
    ensures { IfOk result (λ canonical. canonical ≡ is_canonical lines.now items.now events.now) }
{
    let first = first_item_event_or_end_line_index(lines, items, events);
    if are_empty_or_closed_comment_lines(false, LineCursor::new(lines, 0, first))
        && are_header_items_canonical(lines, items, events)
    {
        are_events_canonical(alloc, lines, events)
    } else {
        Ok(false)
    }
}

/// Where the first of some header items begins, with these events after them, counted from 0.
fn first_item_event_or_end_line_index(
    lines: &Lines,
    items: &[HeaderItem],
    events: &[Event],
) -> usize
    ensures { result ≡ first_item_event_or_end_line_index lines.now events.now items.now }
{
    match items {
        [item, ..] => item.line.saturating_sub(1),
        [] => first_event_or_end_line_index(lines, events),
    }
}

/// Where the first of some events begins, counted from 0; without one the text's end.
fn first_event_or_end_line_index(lines: &Lines, events: &[Event]) -> usize
    ensures { result ≡ first_event_or_end_line_index lines.now events.now }
{
    match events {
        [event, ..] => event.line.saturating_sub(1),
        [] => lines.len(),
    }
}

/// Whether header items are laid out, with these events after them.
fn are_header_items_canonical(lines: &Lines, items: &[HeaderItem], events: &[Event]) -> bool
    ensures { result ≡ items_canonical lines.now events.now items.now }
{
    let mut left = items;
    while let [item, others @ ..] = left {
        let until = first_item_event_or_end_line_index(lines, others, events);
        if !are_lines_header_item_and_gap(LineCursor::new(
            lines,
            item.line.saturating_sub(1),
            until,
        )) {
            return false;
        }
        left = others;
    }
    true
}

/// Whether lines are a header item and a gap.
fn are_lines_header_item_and_gap(lines: LineCursor<'_>) -> bool
    ensures { result ≡ first_line item_line (lines_of lines.entry) }
{
    match lines.split_first() {
        Some((line, after)) => are_rest_and_later_lines_only_comments(
            &line[index_of_first_blank_or_end(line)..],
            after,
        ),
        None => false,
    }
}

/// Where a header item ends in its line: at the first blank.
fn index_of_first_blank_or_end(line: &[u8]) -> usize
    ensures end { result ≡ index_of_first_blank_or_end line.now }
    ensures within { result ≤ length line.now }
{
    match find_first_blank_octet(line) {
        Some(at) => at,
        None => line.len(),
    }
}

/// Where the first blank stands.
fn find_first_blank_octet(line: &[u8]) -> Option<usize>
    ensures place { result ≡ position is_blank line.now }
    ensures within { IfSome result (λ at. at < length line.now) }
{
    line.iter()
        .position(|octet| is_space_tab_cr_or_newline(*octet))
}

fn is_space_tab_cr_or_newline(octet: u8) -> bool
    ensures { result ≡ is_blank octet }
{
    matches!(octet, b' ' | b'\t' | b'\r' | b'\n')
}

/// Whether events are laid out.
fn are_events_canonical(alloc: Global, lines: &Lines, events: &[Event]) -> Result<bool, AllocError>
    ensures { IfOk result (λ canonical. canonical ≡ events_canonical lines.now events.now) }
{
    let mut text = Vec::new(alloc);
    let mut left = events;
    while let [event, others @ ..] = left {
        let until = first_event_or_end_line_index(lines, others);
        if !is_event_and_gap_canonical(&mut text, event, lines, until)? {
            return Ok(false);
        }
        left = others;
    }
    Ok(true)
}

/// Whether the lines of an event up to another line are an event and a gap; its octets are written into a buffer.
fn is_event_and_gap_canonical(
    text: &mut Vec<u8>,
    event: &Event,
    lines: &Lines,
    until: usize,
) -> Result<bool, AllocError>
    ensures { IfOk result (λ canonical. canonical ≡ first_line (action_line lines.now event.now.line until event.now.time event.now.action) (lines_between lines.now (event.now.line - 1) until)) }
{
    let lines_between = LineCursor::new(lines, event.line.saturating_sub(1), until);
    let Some((line, after)) = lines_between.split_first() else {
        return Ok(false);
    };
    match &event.action {
        Action::Inbound(packet) => is_line_canonical_packet_and_gap(
            text,
            event.time,
            Direction::Inbound,
            packet,
            line,
            after,
        ),
        Action::Outbound(packet) => is_line_canonical_packet_and_gap(
            text,
            event.time,
            Direction::Outbound,
            packet,
            line,
            after,
        ),
        Action::Call(call) => is_line_canonical_call_and_gap(
            text,
            lines,
            until,
            event,
            call.result,
            line,
        ),
        Action::Command | Action::Code => Ok(false),
    }
}

/// Whether a line is, with lines after it, a packet that arrives or leaves at a time, in its one form, and a gap.
fn is_line_canonical_packet_and_gap(
    text: &mut Vec<u8>,
    time: Time,
    direction: Direction,
    packet: &Packet,
    line: &[u8],
    lines: LineCursor<'_>,
) -> Result<bool, AllocError>
    ensures { IfOk result (λ canonical. canonical ≡ after_octets (event_text time direction packet.now) (gap (lines_of lines.entry)) line.now) }
{
    text.clear();
    put_event(text, time, direction, packet)?;
    Ok(has_prefix_and_gap(text.as_slice(), line, lines))
}
