//! Where a packet has left, between the events of a script.

use crate::event_line::EventLine;
use crate::failure_site::FailureSite;
use crate::mend::{Mend, MendEffect, Target};
use crate::rewrite_packet::event_line_with_time;
use crate::times::{
    event_line_with_time_prefix_of_other, shortened_by_span_if_relative, single_moment_of,
};
use crate::tokens::{Columns, octets_in_columns};
use crate::try_mend::run_to_never_sent_packet_before_event;
use pd_run::{StopPoint, StopReason};
use pd_script::{Action, Event, Time};
use pd_seg::Sent;
use pd_text::{LineList, Lines};
use std::alloc::AllocError;

/// The end of a comment that may go over lines.
const COMMENT_END: &[u8] = b"*/";

/// Before an input.
#[derive(Drop)]
pub struct InputGap<'a> {
    /// The input.
    input: EventLine<'a>,
    /// The first line after the event before it.
    first: usize,
    /// The moment from which times count there.
    pub base: u64,
}

/// The gap in which a packet has left that no event before the site's has taken: that before the first input which acted later. Nothing
/// where there is none between the last packet that was taken and the site, or no line can be put there.
///
/// # Errors
/// `AllocError` where a growth is refused.
pub fn find_gap_before_input_where_packet_left<'a>(
    site: &FailureSite<'a>,
    sent: &Sent,
) -> Result<Option<InputGap<'a>>, AllocError> {
    let passed = site.stop.passed;
    let events = site.parsed.events.as_slice();
    let first = first_of_inputs_right_before_event(events, passed);
    if first >= passed {
        return Ok(None);
    }
    let Some(stop) = run_to_never_sent_packet_before_event(site, first)? else {
        return Ok(None);
    };
    let mut base = stop.before.base();
    let mut clock = stop.before.clock();
    for number in first..passed {
        let Some(event) = events.get(number) else {
            break;
        };
        let moment = single_moment_of(base, event.time).unwrap_or(base);
        clock = moment.max(clock);
        if sent.at < clock || (sent.at == clock && is_in_outbox_before_input(site, number, sent)?) {
            return InputGap::before_event_if_first_on_line(site, number, base);
        }
        base = moment;
    }
    Ok(None)
}

/// The number of the first of the inputs that come right before an event.
fn first_of_inputs_right_before_event(events: &[Event], passed: usize) -> usize {
    let mut first = 0usize;
    let mut number = 0usize;
    for event in events {
        if number >= passed {
            break;
        }
        number = number.saturating_add(1);
        if let Action::Outbound(_) = event.action {
            first = number;
        }
    }
    first
}

/// Whether a packet has left before an input that acts at the same moment.
fn is_in_outbox_before_input(
    site: &FailureSite<'_>,
    number: usize,
    sent: &Sent,
) -> Result<bool, AllocError> {
    let Some(stop) = run_to_never_sent_packet_before_event(site, number)? else {
        return Ok(false);
    };
    let StopPoint { stop_reason, .. } = stop;
    match stop_reason {
        StopReason::Differs(_, oldest, _) => Ok(oldest.at <= sent.at),
        _ => Ok(false),
    }
}

impl<'a> InputGap<'a> {
    /// The gap before an event of a site's script; nothing where that isn't the first on its line.
    fn before_event_if_first_on_line(
        site: &FailureSite<'a>,
        number: usize,
        base: u64,
    ) -> Result<Option<InputGap<'a>>, AllocError> {
        let Some(input) = EventLine::find_nth_event_if_on_one_line(
            site.alloc,
            site.lines,
            site.parsed,
            number,
        )?
        else {
            return Ok(None);
        };
        if !input.is_first_on_line() {
            return Ok(None);
        }
        let first = match line_number_if_event_on_one_line(site, number.saturating_sub(1))? {
            Some(last) if last < input.line => {
                insertion_line_outside_block_comment(site.lines, last.saturating_add(1), input.line)
            }
            _ => input.line,
        };
        Ok(Some(InputGap { input, first, base }))
    }

    /// A packet that left in the gap gets its line there. The time of the input counts from that packet then.
    ///
    /// # Errors
    /// `AllocError` where a growth is refused.
    pub fn mend_inserting_line_in_gap_retiming_input(
        &self,
        text: &[u8],
        at: u64,
        effect: MendEffect,
    ) -> Result<Mend, AllocError> {
        let input = &self.input;
        let mut lines = LineList::new(input.alloc);
        lines.push_or_ignore_if_newline_inside(text)?;
        let target = match input.event.time {
            Time::Relative(_) if at > self.base => {
                let time = shortened_by_span_if_relative(
                    input.event.time,
                    at.saturating_sub(self.base),
                );
                let own = event_line_with_time_prefix_of_other(
                    input,
                    event_line_with_time(input, time)?.as_slice(),
                )?;
                lines.push_or_ignore_if_newline_inside(own.as_slice())?;
                Target::Retimed(input.line)
            }
            _ => Target::Before(self.first),
        };
        Ok(Mend {
            target,
            lines,
            effect,
        })
    }
}

/// The line of an event, if all of it is there.
fn line_number_if_event_on_one_line(
    site: &FailureSite<'_>,
    number: usize,
) -> Result<Option<usize>, AllocError> {
    match EventLine::find_nth_event_if_on_one_line(site.alloc, site.lines, site.parsed, number)? {
        Some(own) => Ok(Some(own.line)),
        None => Ok(None),
    }
}

/// The first line after an event, or where a comment ends after it the line of the next event: no line goes into a comment.
///
/// The lines are counted from 1.
pub fn insertion_line_outside_block_comment(lines: &Lines, after: usize, next: usize) -> usize {
    for line in after..next {
        if has_comment_end(lines.line(line).unwrap_or(&[])) {
            return next;
        }
    }
    after
}

/// Whether a comment of the long form ends on a line.
fn has_comment_end(octets: &[u8]) -> bool {
    for from in 0..octets.len() {
        let columns = Columns {
            from,
            to: from.saturating_add(2),
        };
        if octets_in_columns(octets, columns) == COMMENT_END {
            return true;
        }
    }
    false
}
