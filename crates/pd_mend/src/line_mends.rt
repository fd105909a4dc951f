//! The lines in the place of one.
use crate::differences::Differences;
use crate::event_line::EventLine;
use crate::failure_site::FailureSite;
use crate::mend::{Mend, MendEffect, Target};
use crate::moved_lines::MovedLines;
use crate::rewrite_packet::{PacketRewrite, event_line_with_time, rewrite_packet_fields};
use crate::times::{
    relative_time_lengthened_by_span, shortened_by_span_if_relative, single_moment_of,
    time_like_other_or_any_before_base,
};
use crate::tokens::{Columns, octets_from, octets_in_columns};
use pd_print::render_time;
use pd_run::RunState;
use pd_script::{Action, Options, Time};
use pd_seg::Sent;
use pd_text::LineList;
use std::alloc::{AllocError, Global};

/// The blanks and comments before a packet that wasn't sent.
const NOT_SENT: &[u8] = b"// not sent: ";

/// How much is left of the line of a packet that is taken out.
#[derive(Clone, Copy)]
pub enum Removal {
    /// Nothing.
    Gone,
    /// A comment that it wasn't sent.
    NotSent,
    /// A comment that it left at this moment, in another line's place.
    LeftAt(u64),
}

/// A mend that writes one line in the place of the event's.
///
/// # Errors
/// `AllocError` where a growth is refused.
pub fn mend_replacing_event_line_by_one(alloc: Global, octets: &[u8]) -> Result<Mend, AllocError> {
    let mut lines = LineList::new(alloc);
    lines.push_or_ignore_if_newline_inside(octets)?;
    Ok(Mend {
        target: Target::Own,
        lines,
        effect: MendEffect::Kept,
    })
}

/// The text of a packet that no line asked for: that of the line which moves here, else in the style of an event.
///
/// # Errors
/// `AllocError` where a growth is refused.
pub fn moved_or_styled_line_text_for_sent(
    style: &EventLine<'_>,
    moved_lines: &MovedLines,
    sent: &Sent,
    base: u64,
    tolerance: u64,
) -> Result<Option<NewText>, AllocError> {
    if let Some(text) = moved_lines.text_of_line_moving_to_sent(sent) {
        let time = time_like_other_or_any_before_base(
            text.original_line_time(),
            base,
            sent.at,
            tolerance,
        );
        let octets = text.octets_with_time_replaced(style.alloc, time)?;
        return Ok(Some(NewText { octets, time }));
    }
    let Action::Outbound(packet) = &style.event.action else {
        return Ok(None);
    };
    let time = time_like_other_or_any_before_base(style.event.time, base, sent.at, tolerance);
    let change = PacketRewrite {
        segment: &sent.segment,
        fields: Differences {
            options: !matches!(packet.options, Options::Any)
                || packet.flags.syn != sent.segment.flags.syn,
            ..Differences::all()
        },
        time: Some(time),
    };
    match rewrite_packet_fields(style, style.line_through_event(), &change)? {
        Some(line) => {
            let octets = Vec::from_slice(
                style.alloc,
                octets_from(
                    line.as_slice(),
                    style.start_column_including_indent_if_first(),
                ),
            )?;
            Ok(Some(NewText { octets, time }))
        }
        None => Ok(None),
    }
}

/// A packet as a line of its own.
#[derive(Drop)]
pub struct NewText {
    pub octets: Vec<u8>,
    /// The time that is written.
    pub time: Time,
}

/// A packet that no line asked for gets a line before the event's, in its style. The event's time counts from that packet then.
///
/// # Errors
/// `AllocError` where a growth is refused.
pub fn mend_inserting_packet_before_retimed_event(
    site: &FailureSite<'_>,
    sent: &Sent,
    run: &RunState,
    moved_lines: &MovedLines,
) -> Result<Option<Mend>, AllocError> {
    let base = run.base();
    let Some(extra) = moved_or_styled_line_text_for_sent(
        &site.own,
        moved_lines,
        sent,
        base,
        run.tolerance(),
    )?
    else {
        return Ok(None);
    };
    let mut lines = LineList::new(site.alloc);
    let from = push_preceding_text_returning_event_start(&mut lines, site)?;
    lines.push_or_ignore_if_newline_inside(extra.octets.as_slice())?;
    match single_moment_of(base, extra.time) {
        Some(at) if at > base => {
            let own = event_line_with_time(
                &site.own,
                shortened_by_span_if_relative(site.own.event.time, at - base),
            )?;
            lines.push_or_ignore_if_newline_inside(octets_from(own.as_slice(), from))?;
        }
        _ => lines.push_or_ignore_if_newline_inside(octets_from(site.octets(), from))?,
    }
    Ok(Some(Mend {
        target: Target::Own,
        lines,
        effect: MendEffect::Inserted(sent.copy()?),
    }))
}

/// Puts what is before the event on a line of its own, unless these are blanks; where the event's own line begins then.
fn push_preceding_text_returning_event_start(
    lines: &mut LineList,
    site: &FailureSite<'_>,
) -> Result<usize, AllocError> {
    if !site.own.is_first_on_line() {
        lines.push_or_ignore_if_newline_inside(site.own.octets_before().trim_ascii_end())?;
    }
    Ok(site.own.start_column_including_indent_if_first())
}

/// The event's packet wasn't sent here, and of its line this is left. All else on it stays.
///
/// # Errors
/// `AllocError` where a growth is refused.
pub fn mend_removing_event_or_commenting_it_out(
    site: &FailureSite<'_>,
    removal: Removal,
) -> Result<Mend, AllocError> {
    let mut lines = LineList::new(site.alloc);
    let from = push_preceding_text_returning_event_start(&mut lines, site)?;
    if let Some(comment) = comment_left_of_removed_event_unless_gone(site, from, removal)? {
        lines.push_or_ignore_if_newline_inside(comment.as_slice())?;
    }
    if !site.own.is_last_besides_comment() {
        lines.push_or_ignore_if_newline_inside(site.own.octets_after().trim_ascii_start())?;
    }
    Ok(Mend {
        target: Target::Own,
        lines,
        effect: MendEffect::Removed,
    })
}

/// The comment that is left of an event whose own line begins at an octet.
fn comment_left_of_removed_event_unless_gone(
    site: &FailureSite<'_>,
    from: usize,
    removal: Removal,
) -> Result<Option<Vec<u8>>, AllocError> {
    let columns = site.columns();
    let indent = Columns {
        from,
        to: columns.from,
    };
    let mut comment = Vec::from_slice(site.alloc, octets_in_columns(site.octets(), indent))?;
    match removal {
        Removal::Gone => return Ok(None),
        Removal::NotSent => comment.extend_from_slice(NOT_SENT)?,
        Removal::LeftAt(at) => {
            comment.extend_from_slice(b"// left at ")?;
            comment.extend_from_slice(render_time(site.alloc, Time::Absolute(at))?.as_slice())?;
            comment.extend_from_slice(b": ")?;
        }
    }
    comment.extend_from_slice(octets_from(
        site.own.line_through_event_or_trailing_comment(),
        columns.from,
    ))?;
    Ok(Some(comment))
}

impl FailureSite<'_> {
    /// The event's packet wasn't sent here. Where the time of the next event counts from the event's, it is moved first, so that it
    /// stays the same moment.
    ///
    /// # Errors
    /// `AllocError` where a growth is refused.
    pub fn mend_retiming_follower_else_removing(
        &self,
        removal: Removal,
    ) -> Result<Mend, AllocError> {
        match self.mend_retiming_relative_follower_if_needed()? {
            Some(mend) => Ok(mend),
            None => mend_removing_event_or_commenting_it_out(self, removal),
        }
    }

    /// The line of the next event, its time counted from the base of this one; nothing where that changes nothing.
    fn mend_retiming_relative_follower_if_needed(&self) -> Result<Option<Mend>, AllocError> {
        let base = self.stop.before.base();
        let Some(at) = single_moment_of(base, self.own.event.time) else {
            return Ok(None);
        };
        let number = self.stop.passed.saturating_add(1);
        let Some(follower) = EventLine::find_nth_event_if_on_one_line(
            self.alloc,
            self.lines,
            self.parsed,
            number,
        )?
        else {
            return Ok(None);
        };
        let Some(time) = relative_time_lengthened_by_span(
            follower.event.time,
            at.saturating_sub(base),
        ) else {
            return Ok(None);
        };
        if at <= base || follower.line != follower.event.line {
            return Ok(None);
        }
        let line = event_line_with_time(&follower, time)?;
        Ok(Some(Mend {
            target: Target::Follower,
            ..mend_replacing_event_line_by_one(self.alloc, line.as_slice())?
        }))
    }
}
