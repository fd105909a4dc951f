//! Printed events, as they are read back.
use crate::lines::one_line;
use pd_match::{Expect, check_packet};
use pd_script::{Action, Event, Packet, Parsed, Time, parse};
use pd_seg::Sent;
use std::alloc::Global;

/// Whether a text of this one line is a script with just one event: this segment leaves at this time, all of it written.
pub fn is_read_back(alloc: Global, text: &[u8], time: Time, sent: &Sent) -> bool {
    let Ok(lines) = one_line(alloc, text) else {
        return false;
    };
    match parse(alloc, &lines) {
        Ok(parsed) => is_script(&parsed, time, sent),
        Err(_) => false,
    }
}

/// Whether a script has just one event: this one.
fn is_script(parsed: &Parsed, time: Time, sent: &Sent) -> bool {
    match (
        parsed.fault,
        parsed.header.as_slice(),
        parsed.events.as_slice(),
    ) {
        (None, [], [event]) => is_event(event, time, sent),
        _ => false,
    }
}

fn is_event(event: &Event, time: Time, sent: &Sent) -> bool {
    match &event.action {
        Action::Outbound(packet) => {
            event.line == 1
                && event.blocking_end.is_none()
                && is_time(event.time, time)
                && is_segment(packet, sent)
        }
        _ => false,
    }
}

/// Whether all of the segment is written, and nothing else.
fn is_segment(packet: &Packet, sent: &Sent) -> bool {
    let expect = Expect {
        packet,
        time_range: None,
    };
    check_packet(&expect, sent, 0).is_none()
        && !packet.flags.other
        && packet.ack == Some(sent.segment.ack)
        && packet.win == Some(u32::from(sent.segment.win))
}

fn is_time(read: Time, written: Time) -> bool {
    match (read, written) {
        (Time::Any, Time::Any) => true,
        (Time::Absolute(one), Time::Absolute(other))
        | (Time::Relative(one), Time::Relative(other)) => one == other,
        (Time::AbsoluteRange(first, last), Time::AbsoluteRange(from, to))
        | (Time::RelativeRange(first, last), Time::RelativeRange(from, to)) => {
            first == from && last == to
        }
        _ => false,
    }
}
