//! Packets as rows have them: a time, the flags, the numbers, and how many options there are and which.
use crate::output::OutputText;
use crate::read_back::is_read_back;
use crate::rows::{NO_MEMORY, RowReader};
use pd_print::render_sent_segment_event;
use pd_script::Time;
use pd_seg::{Flags, SackSpans, SegOption, SegOptions, Segment, SendRule, Sent, Span};
use std::alloc::Global;

/// Writes a packet, reads it back and copies it. The text is the rest of the row; where the row has none, it is printed.
pub fn run_packet(alloc: Global, row: &mut RowReader<'_>, output: &mut OutputText) {
    let time = read_time(row);
    let sent = Sent {
        segment: read_segment(alloc, row),
        at: 200_000,
        rule: SendRule::NewData,
    };
    row.check("its copy", is_copied(&sent));
    match render_sent_segment_event(alloc, time, &sent.segment) {
        Ok(text) => {
            let text = text.as_slice();
            row.check("what is read back", is_read_back(alloc, text, time, &sent));
            compare_or_print_octets(text, row, output);
        }
        Err(_) => row.note(NO_MEMORY),
    }
}

/// Compares what is written with the rest of the row, or says it.
fn compare_or_print_octets(text: &[u8], row: &mut RowReader<'_>, output: &mut OutputText) {
    let wanted = row.take_all_words_left();
    if wanted.is_empty() {
        output.octets(text);
        output.push_str("\n");
    } else {
        row.check("its octets", wanted.as_bytes() == text);
    }
}

/// Whether a packet that was put out is copied whole.
fn is_copied(sent: &Sent) -> bool {
    match sent.copy() {
        Ok(copy) => copy.is_same(sent),
        Err(_) => false,
    }
}

fn read_time(row: &mut RowReader<'_>) -> Time {
    match row.word() {
        "at" => Time::Absolute(row.number()),
        "between" => Time::AbsoluteRange(row.number(), row.number()),
        "after" => Time::Relative(row.number()),
        "within" => Time::RelativeRange(row.number(), row.number()),
        _ => Time::Any,
    }
}

fn read_segment(alloc: Global, row: &mut RowReader<'_>) -> Segment {
    Segment {
        flags: read_flags(row.word()),
        start: row.octet_number_or_count(),
        end: row.octet_number_or_count(),
        ack: row.octet_number_or_count(),
        win: row.short(),
        options: read_options(alloc, row),
    }
}

fn read_flags(letters: &str) -> Flags {
    Flags {
        syn: letters.contains("S"),
        fin: letters.contains("F"),
        rst: letters.contains("R"),
        psh: letters.contains("P"),
        ack: letters.contains("."),
    }
}

fn read_options(alloc: Global, row: &mut RowReader<'_>) -> SegOptions {
    let mut options = SegOptions::new(alloc);
    for _option in 0..row.number() {
        let option = read_option(alloc, row);
        if options.push(option).is_err() {
            row.note(NO_MEMORY);
        }
    }
    options
}

fn read_option(alloc: Global, row: &mut RowReader<'_>) -> SegOption {
    match row.word() {
        "mss" => SegOption::Mss(row.short()),
        "wscale" => SegOption::Wscale(row.word().parse::<u8>().unwrap_or(0)),
        "sackOK" => SegOption::SackOk,
        "TS" => SegOption::Timestamp(row.octet_number_or_count(), row.octet_number_or_count()),
        "sack" => SegOption::Sack(read_blocks(alloc, row)),
        "nop" => SegOption::Nop,
        _ => SegOption::Eol,
    }
}

/// Reads how many blocks there are, and their edges.
fn read_blocks(alloc: Global, row: &mut RowReader<'_>) -> SackSpans {
    let mut blocks = SackSpans::new(alloc);
    for _block in 0..row.number() {
        let block = Span {
            start: row.octet_number_or_count(),
            end: row.octet_number_or_count(),
        };
        if blocks.push(block).is_err() {
            row.note(NO_MEMORY);
        }
    }
    blocks
}
