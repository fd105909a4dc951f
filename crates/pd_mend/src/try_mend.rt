//! Runs of a script as it stands with a mend, or with a packet that is never sent.
ghost use Rattle.std.specs.Prelude.{◌≤◌, length};

use crate::event_line::EventLine;
use crate::failure_site::FailureSite;
use crate::mend::{Mend, Target};
use crate::mender::line_of_verdict_or_zero;
use pd_run::{StopPoint, Verdict, run_all, run_to_stop_on_line};
use pd_script::{Parsed, parse};
use pd_settings::Settings;
use pd_text::{LineEdit, LineList, Lines, TextFault};
use std::alloc::{AllocError, Global};

/// A packet that is awaited at any time and never is sent.
pub const NEVER: &[u8] = b"* > FSRP. 0:0(0)";

/// The text with one more line, which awaits a packet that is never sent; nothing where it would be over the limits of one.
///
/// # Errors
/// `AllocError` where a growth is refused.
pub fn text_with_line_for_never_sent_packet(
    alloc: Global,
    lines: &Lines,
    line: usize,
) -> Result<Option<Lines>, AllocError> {
    let mut insert = LineList::new(alloc);
    insert.push_or_ignore_if_newline_inside(NEVER)?;
    let edit = LineEdit {
        from: line,
        remove: 0,
        insert,
    };
    apply_edit_if_fits(lines, &edit)
}

/// Where the run of a text stops on a line.
///
/// # Errors
/// `AllocError` where a growth is refused.
pub fn stop_point_if_text_run_stops_on_line(
    alloc: Global,
    lines: &Lines,
    settings: &Settings,
    line: usize,
) -> Result<Option<StopPoint>, AllocError> {
    let parsed = parse(alloc, lines)?;
    run_to_stop_on_line(alloc, &parsed, settings, line)
}

/// The run of a site's text at an event that is the first on its line, where a packet is awaited before it that is never sent.
///
/// # Errors
/// `AllocError` where a growth is refused.
pub fn run_to_never_sent_packet_before_event(
    site: &FailureSite<'_>,
    number: usize,
) -> Result<Option<StopPoint>, AllocError> {
    let Some(event) = EventLine::find_nth_event_if_on_one_line(
        site.alloc,
        site.lines,
        site.parsed,
        number,
    )?
    else {
        return Ok(None);
    };
    if !event.is_first_on_line() {
        return Ok(None);
    }
    match text_with_line_for_never_sent_packet(site.alloc, site.lines, event.line)? {
        Some(lines) => stop_point_if_text_run_stops_on_line(
            site.alloc,
            &lines,
            site.settings,
            event.line,
        ),
        None => Ok(None),
    }
}

/// The text after an edit; nothing where it would be over the limits of one.
fn apply_edit_if_fits(lines: &Lines, edit: &LineEdit) -> Result<Option<Lines>, AllocError> {
    match lines.apply(edit) {
        Ok(lines) => Ok(Some(lines)),
        Err(TextFault::OutOfMemory) => Err(AllocError),
        Err(_) => Ok(None),
    }
}

impl FailureSite<'_> {
    /// The text with lines in the place of the event's; nothing where it would be over the limits of one.
    ///
    /// # Errors
    /// `AllocError` where a growth is refused.
    pub fn with_event_line_replaced(&self, insert: LineList) -> Result<Option<Lines>, AllocError> {
        let edit = LineEdit {
            from: self.line,
            remove: 1,
            insert,
        };
        apply_edit_if_fits(self.lines, &edit)
    }

    /// Whether the script gets further with one mend of the event's line than with another one; unknown of any other line.
    ///
    /// # Errors
    /// `AllocError` where a growth is refused.
    pub fn gets_further_with_first_mend(
        &self,
        mend: &Mend,
        other: &Mend,
    ) -> Result<bool, AllocError> {
        match (mend.target, other.target) {
            (Target::Own, Target::Own) => Ok(
                self.count_events_left_by_running_with_mend(mend)?
                    < self.count_events_left_by_running_with_mend(other)?,
            ),
            _ => Ok(false),
        }
    }

    /// How many events are left where the run of the text stops with a mend of the event's line.
    fn count_events_left_by_running_with_mend(&self, mend: &Mend) -> Result<usize, AllocError> {
        match self.with_event_line_replaced(mend.lines.copy()?)? {
            Some(lines) => self.count_events_left_by_running_text(&lines),
            None => Ok(usize::MAX),
        }
    }

    /// How many events are left where the run of a text stops.
    fn count_events_left_by_running_text(&self, lines: &Lines) -> Result<usize, AllocError> {
        match run_all(self.alloc, lines, self.settings)? {
            Verdict::Pass(_) => Ok(0),
            verdict => self.count_events_left_at_failure_on_line(
                &parse(self.alloc, lines)?,
                line_of_verdict_or_zero(verdict),
            ),
        }
    }

    /// How many events are left where the run of a script stops at a line.
    fn count_events_left_at_failure_on_line(
        &self,
        parsed: &Parsed,
        line: usize,
    ) -> Result<usize, AllocError>
        requires { length parsed.now.events ≤ 4096 }
    {
        match run_to_stop_on_line(self.alloc, parsed, self.settings, line)? {
            Some(stop) => Ok(parsed.events.len().saturating_sub(stop.passed)),
            None => Ok(usize::MAX),
        }
    }
}
