//! The packets that a script leaves which passes: whether there are any, and the edit that gives one a line.
ghost use Rattle.std.specs.Prelude.{◌≡◌, IfOk, ◌⊎◌, ◌≤◌, IfSome, length};
ghost use Rattle.pd_mend.specs.Inner.{has_no_leftovers_or_awaits_none};
ghost use Rattle.pd_mend.specs.Mending.{takes_all_sent_packets_or_awaits_none, IsRetiming};

use crate::event_line::EventLine;
use crate::failure_site::FailureSite;
use crate::input_gap::{
    find_gap_before_input_where_packet_left, insertion_line_outside_block_comment,
};
use crate::line_mends::moved_or_styled_line_text_for_sent;
use crate::mend::{Mend, MendEffect, Target};
use crate::mend_state::MendState;
use crate::times::edit_if_last_line_is_line_retimed;
use crate::try_mend::{NEVER, text_with_line_for_never_sent_packet};
use pd_cause::{Leftovers, find_leftovers_if_passes};
use pd_run::{StopReason, run_to_stop_on_line};
use pd_script::{Action, Parsed, parse};
use pd_seg::Sent;
use pd_settings::Settings;
use pd_text::{LineEdit, LineList, Lines};
use std::alloc::{AllocError, Global};

/// Whether the events of a text that passes take all packets which its run puts out, or none of them awaits one.
///
/// # Errors
/// `AllocError` where a growth is refused.
pub fn takes_all_sent_packets_or_awaits_none(
    alloc: Global,
    text: &Lines,
    settings: &Settings,
) -> Result<bool, AllocError>
    ensures { IfOk result (λ taken. taken ≡ takes_all_sent_packets_or_awaits_none settings.now text.now) }
{
    let found = find_leftovers_if_passes(alloc, text, settings)?;
    Ok(has_no_leftovers_or_awaits_none(&found))
}

/// Whether leftovers name no packet that might have been awaited.
fn has_no_leftovers_or_awaits_none(found: &Option<Leftovers>) -> bool
    ensures { result ≡ has_no_leftovers_or_awaits_none found.now }
{
    match found {
        Some(leftovers) => !leftovers.awaits,
        None => true,
    }
}

/// The edit by which the oldest packet that is unmatched at the end of a text's run gets a line. Where there is no room for
/// one, the edit is one for which there is none either.
///
/// # Errors
/// `AllocError` where a growth is refused.
pub fn edit_placing_oldest_leftover_where_it_left(
    alloc: Global,
    text: &Lines,
    settings: &Settings,
    mend_state: &mut MendState,
) -> Result<Option<LineEdit>, AllocError>
    ensures { IfOk result (λ found. IfSome found (λ edit. (edit.remove ≡ 0) ⊎ IsRetiming text.now edit)) }
{
    let line = line_after_last_event_or_text_end(alloc, text, &parse(alloc, text)?)?;
    if let Some(lines) = text_with_line_for_never_sent_packet(alloc, text, line)? {
        if let Some(mend) = find_and_note_mend_for_oldest_leftover(
            alloc, &lines, settings, line, mend_state,
        )? {
            return Ok(edit_if_mend_inserts_or_retimes(text, mend));
        }
    }
    let mut insert = LineList::new(alloc);
    insert.push_or_ignore_if_newline_inside(NEVER)?;
    Ok(Some(LineEdit {
        from: line,
        remove: 0,
        insert,
    }))
}

/// The edit of a mend that puts lines in; nothing where it is another one.
pub fn edit_if_mend_inserts_or_retimes(text: &Lines, mend: Mend) -> Option<LineEdit>
    ensures { IfSome result (λ edit. (edit.remove ≡ 0) ⊎ IsRetiming text.now edit) }
{
    match mend.target {
        Target::Before(from) => Some(LineEdit {
            from,
            remove: 0,
            insert: mend.lines,
        }),
        Target::Retimed(from) => edit_if_last_line_is_line_retimed(text, from, mend.lines),
        Target::Own | Target::Follower => None,
    }
}

/// The line after the last event of a text, where no comment that goes over lines is in the way.
fn line_after_last_event_or_text_end(
    alloc: Global,
    text: &Lines,
    parsed: &Parsed,
) -> Result<usize, AllocError> {
    let end = text.len().saturating_add(1);
    let number = parsed.events.len().saturating_sub(1);
    match EventLine::find_nth_event_if_on_one_line(alloc, text, parsed, number)? {
        Some(last) => Ok(insertion_line_outside_block_comment(
            text,
            last.line.saturating_add(1),
            end,
        )),
        None => Ok(end),
    }
}

/// The mend by which the oldest unmatched packet gets a line where a text awaits, at its end, one that is never sent.
fn find_and_note_mend_for_oldest_leftover(
    alloc: Global,
    lines: &Lines,
    settings: &Settings,
    line: usize,
    mend_state: &mut MendState,
) -> Result<Option<Mend>, AllocError> {
    let parsed = parse(alloc, lines)?;
    let Some(stop) = run_to_stop_on_line(alloc, &parsed, settings, line)? else {
        return Ok(None);
    };
    let Some(site) = FailureSite::from_stop_if_whole_event_on_line(
        alloc, lines, settings, &parsed, &stop, line,
    )?
    else {
        return Ok(None);
    };
    let StopReason::Differs(_, sent, run) = &stop.stop_reason else {
        return Ok(None);
    };
    let found = mend_inserting_in_style_of_last_expected(&site, sent, run.tolerance(), mend_state)?;
    if let Some(mend) = &found {
        mend_state.note_mend(&site, mend)?;
    }
    Ok(found)
}

/// The same at the event that awaits that packet.
fn mend_inserting_in_style_of_last_expected(
    site: &FailureSite<'_>,
    sent: &Sent,
    tolerance: u64,
    mend_state: &MendState,
) -> Result<Option<Mend>, AllocError> {
    match find_last_outbound_event_before_site(site)? {
        Some(style) => mend_inserting_in_style_of_event(site, &style, sent, tolerance, mend_state),
        None => mend_inserting_in_style_of_event(site, &site.own, sent, tolerance, mend_state),
    }
}

/// The same in the style of an event.
fn mend_inserting_in_style_of_event(
    site: &FailureSite<'_>,
    style: &EventLine<'_>,
    sent: &Sent,
    tolerance: u64,
    mend_state: &MendState,
) -> Result<Option<Mend>, AllocError> {
    if let Some(gap) = find_gap_before_input_where_packet_left(site, sent)? {
        if let Some(text) = moved_or_styled_line_text_for_sent(
            style,
            &mend_state.moved_lines,
            sent,
            gap.base,
            tolerance,
        )? {
            let effect = MendEffect::Inserted(sent.copy()?);
            return Ok(Some(gap.mend_inserting_line_in_gap_retiming_input(
                text.octets.as_slice(),
                sent.at,
                effect,
            )?));
        }
    }
    let base = site.stop.before.base();
    let Some(text) = moved_or_styled_line_text_for_sent(
        style,
        &mend_state.moved_lines,
        sent,
        base,
        tolerance,
    )?
    else {
        return Ok(None);
    };
    let mut lines = LineList::new(site.alloc);
    lines.push_or_ignore_if_newline_inside(text.octets.as_slice())?;
    Ok(Some(Mend {
        target: Target::Before(site.line),
        lines,
        effect: MendEffect::Inserted(sent.copy()?),
    }))
}

/// The last event before a site that awaits a packet, if it is whole on its line.
fn find_last_outbound_event_before_site<'a>(
    site: &FailureSite<'a>,
) -> Result<Option<EventLine<'a>>, AllocError> {
    let mut number = 0usize;
    let mut last = None;
    for event in site.parsed.events.as_slice() {
        if number >= site.stop.passed {
            break;
        }
        if let Action::Outbound(_) = event.action {
            last = Some(number);
        }
        number = number.saturating_add(1);
    }
    match last {
        Some(number) => EventLine::find_nth_event_if_on_one_line(
            site.alloc,
            site.lines,
            site.parsed,
            number,
        ),
        None => Ok(None),
    }
}
