//! The mends of a packet that isn't sent in time.
use crate::differences::Differences;
use crate::expected_ahead::awaited_packets_and_next_input_moment;
use crate::failure_site::FailureSite;
use crate::line_mends::{Removal, mend_replacing_event_line_by_one};
use crate::mend::{Mend, mend_rewriting_fields_that_differ};
use crate::try_mend::{NEVER, stop_point_if_text_run_stops_on_line};
use pd_run::{RunState, StopPoint, StopReason};
use pd_seg::Sent;
use pd_text::Lines;
use std::alloc::AllocError;

/// Whether the packet that is sent next is the awaited one, and late.
#[derive(Clone, Copy, PartialEq, Eq)]
enum Lateness {
    /// It is, unless the script gets further without the awaited one.
    Late,
    /// It has the awaited fields, but comes after the next input: only if the script gets further so.
    Unclear,
    /// It is another one.
    NotSent,
}

/// No packet was sent in time. The one that the timer sends next may be it, and late; else it isn't sent.
///
/// # Errors
/// `AllocError` where a growth is refused.
pub fn mend_missing_packet_as_late_or_unsent(
    site: &FailureSite<'_>,
    removal: Removal,
) -> Result<Option<Mend>, AllocError> {
    let gone = site.mend_retiming_follower_else_removing(removal)?;
    match find_packet_sent_next_however_late(site)? {
        Some((sent, run)) => choose_late_mend_or_given_removal(site, gone, &sent, &run),
        None => Ok(Some(gone)),
    }
}

/// The awaited packet isn't sent, unless it is this one, which is sent next: then it may be late.
fn choose_late_mend_or_given_removal(
    site: &FailureSite<'_>,
    gone: Mend,
    sent: &Sent,
    run: &RunState,
) -> Result<Option<Mend>, AllocError> {
    let lateness = judge_lateness_of_next_sent_packet(site, sent, run)?;
    if lateness == Lateness::NotSent {
        return Ok(Some(gone));
    }
    match mend_rewriting_fields_that_differ(site, sent, run)? {
        Some(late) => Ok(Some(choose_mend_by_lateness_and_progress(site, lateness, gone, late)?)),
        None => Ok(None),
    }
}

/// That mend of two which the lateness of the packet and how far the script gets speak for.
fn choose_mend_by_lateness_and_progress(
    site: &FailureSite<'_>,
    lateness: Lateness,
    gone: Mend,
    late: Mend,
) -> Result<Mend, AllocError> {
    let is_late = if lateness == Lateness::Late {
        !site.gets_further_with_first_mend(&gone, &late)?
    } else {
        site.gets_further_with_first_mend(&late, &gone)?
    };
    Ok(if is_late { late } else { gone })
}

/// The packet that is sent next, however late, with the run that took it: a run that awaits another packet meets it.
fn find_packet_sent_next_however_late(
    site: &FailureSite<'_>,
) -> Result<Option<(Sent, RunState)>, AllocError> {
    match text_with_never_sent_packet_awaited(site)? {
        Some(lines) => find_packet_differing_on_event_line(site, &lines),
        None => Ok(None),
    }
}

/// The text with a packet that never is sent in the place of the awaited one.
fn text_with_never_sent_packet_awaited(
    site: &FailureSite<'_>,
) -> Result<Option<Lines>, AllocError> {
    let mut line = Vec::from_slice(site.alloc, site.own.octets_before())?;
    line.extend_from_slice(NEVER)?;
    line.extend_from_slice(site.own.octets_after())?;
    site.with_event_line_replaced(
        mend_replacing_event_line_by_one(site.alloc, line.as_slice())?.lines,
    )
}

/// The packet that isn't the one that a text awaits on the line of the event, and the run that took it.
fn find_packet_differing_on_event_line(
    site: &FailureSite<'_>,
    lines: &Lines,
) -> Result<Option<(Sent, RunState)>, AllocError> {
    let Some(stop) = stop_point_if_text_run_stops_on_line(
        site.alloc,
        lines,
        site.settings,
        site.line,
    )?
    else {
        return Ok(None);
    };
    let StopPoint { stop_reason, .. } = stop;
    match stop_reason {
        StopReason::Differs(_, sent, run) => Ok(Some((sent, run))),
        _ => Ok(None),
    }
}

/// Whether the packet that is sent next is the awaited one. It isn't where a later line before the next input awaits just it. Else
/// it is where it comes before that input and in its place, or is the same but for its time.
fn judge_lateness_of_next_sent_packet(
    site: &FailureSite<'_>,
    sent: &Sent,
    run: &RunState,
) -> Result<Lateness, AllocError> {
    let ahead = awaited_packets_and_next_input_moment(
        site.alloc,
        site.events_from_failed_one_on(),
        run.base(),
    )?;
    let mut is_same = false;
    let mut is_own_moment = false;
    for (number, awaited) in ahead.packets.iter().enumerate() {
        let agrees = Differences::between_expected_and_sent_except_time(
            site.alloc,
            awaited.packet,
            sent,
        )?.count()
            == 0;
        if number == 0 {
            is_same = agrees;
            is_own_moment = match awaited.time_range {
                Some((first, _)) => first > run.base(),
                None => true,
            };
        } else if agrees && awaited.is_in_time(sent.at, run.tolerance()) {
            return Ok(Lateness::NotSent);
        }
    }
    let is_before = match ahead.input {
        Some(input) => sent.at <= input,
        None => true,
    };
    if (is_same && (is_own_moment || is_before)) || (is_own_moment && is_before) {
        Ok(Lateness::Late)
    } else if is_same {
        Ok(Lateness::Unclear)
    } else {
        Ok(Lateness::NotSent)
    }
}
