//! One mend of a text after the other.
ghost use Rattle.std.specs.Prelude.{◌≡◌, ◌⊎◌, IfOk, IfErr, IfSome};
ghost use Rattle.pd_run.specs.Run.{verdict_of};
ghost use Rattle.pd_script.specs.Script.{script_of};
ghost use Rattle.pd_mend.specs.Mending.{IsPlaced, IsUnfinished, line_after, IsFollowed};
ghost use Rattle.pd_mend.specs.Inner.{IsChange, IsNext, IsUnmade};

use crate::failure_site::FailureSite;
use crate::leftovers::{
    edit_if_mend_inserts_or_retimes, edit_placing_oldest_leftover_where_it_left,
};
use crate::line_map::LineMap;
use crate::mend::{Mend, Target, find_mend_by_stop_reason};
use crate::mend_error::MendError;
use crate::mend_state::MendState;
use crate::moved_lines::MovedLines;
use pd_run::{StopPoint, Verdict, run_to_stop_on_line};
use pd_script::{Event, Parsed, parse};
use pd_settings::Settings;
use pd_text::{LineEdit, LineList, Lines, TextFault};
use std::alloc::{AllocError, Global};

/// Mends a text, one line after the other.
#[derive(Drop)]
pub struct Mender {
    /// Where the lines come from.
    line_map: LineMap,
    /// The effects of the mends before.
    mend_state: MendState,
}

impl Mender {
    /// Before the first mend of a text of so many lines, some of which are known to move. With `drop` a packet that doesn't come is
    /// taken away.
    ///
    /// # Errors
    /// `AllocError` where a growth is refused.
    pub fn new(
        alloc: Global,
        count: usize,
        drop: bool,
        moved_lines: MovedLines,
    ) -> Result<Mender, AllocError> {
        Ok(Mender {
            line_map: LineMap::new(alloc, count)?,
            mend_state: MendState::new(alloc, drop, moved_lines),
        })
    }

    /// The line of the text as it was given from which a line comes.
    pub fn given_line_of(&self, line: usize) -> usize {
        self.line_map.origin_line_or_line_itself(line)
    }

    /// The lines that turned out to move.
    ///
    /// # Errors
    /// `AllocError` where a growth is refused.
    pub fn into_lines_found_to_move(self, alloc: Global) -> Result<MovedLines, AllocError> {
        let Mender { mend_state, .. } = self;
        mend_state.into_lines_found_to_move(alloc)
    }

    /// The text after one more mend; nothing where none helps against its verdict.
    ///
    /// # Errors
    /// `TooLarge` where it would be over the limits of a text, and `OutOfMemory`.
    pub fn mend_next_failure_or_leftover(
        &mut self,
        alloc: Global,
        text: &Lines,
        settings: &Settings,
        verdict: Verdict,
    ) -> Result<Option<Lines>, MendError>
        requires verdict { verdict ≡ verdict_of text.now settings.now }
        requires unfinished { IsUnfinished settings.now text.now }
        ensures next { IfOk result (λ next. IfSome next (IsNext settings.now text.now)) }
        ensures refused { IfErr result (IsUnmade settings.now text.now) }
    {
        let Some(next_edit) = self.edit_for_failure_or_leftover_by_verdict(
            alloc, text, settings, verdict,
        )?
        else {
            return Ok(None);
        };
        match text.apply(&next_edit) {
            Ok(next) => {
                self.update_line_map_by_edit(alloc, &next_edit)?;
                Ok(Some(next))
            }
            Err(TextFault::TooLarge) => Err(MendError::TooLarge),
            Err(TextFault::OutOfMemory) => Err(MendError::OutOfMemory),
            Err(TextFault::BadRange) => Ok(None),
        }
    }

    /// The edit of the next mend of a text: where its run fails, or where it passes and leaves packets.
    fn edit_for_failure_or_leftover_by_verdict(
        &mut self,
        alloc: Global,
        text: &Lines,
        settings: &Settings,
        verdict: Verdict,
    ) -> Result<Option<LineEdit>, AllocError>
        requires { verdict ≡ verdict_of text.now settings.now }
        ensures { IfOk result (λ found. IfSome found (IsPlaced settings.now text.now)) }
    {
        match verdict {
            Verdict::Fail(line, _) => self.find_edit_for_failure_at_line(
                alloc, text, settings, line,
            ),
            Verdict::Pass(_) => edit_placing_oldest_leftover_where_it_left(
                alloc,
                text,
                settings,
                &mut self.mend_state,
            ),
            _ => Ok(None),
        }
    }

    /// The edit of the next mend of a text whose run fails at a line.
    fn find_edit_for_failure_at_line(
        &mut self,
        alloc: Global,
        text: &Lines,
        settings: &Settings,
        line: usize,
    ) -> Result<Option<LineEdit>, AllocError>
        ensures { IfOk result (λ found. IfSome found (IsChange text.now (script_of text.now).events line)) }
    {
        let parsed = parse(alloc, text)?;
        match run_to_stop_on_line(alloc, &parsed, settings, line)? {
            Some(stop) => self.find_edit_for_event_stopped_at_line(
                alloc, text, settings, &parsed, &stop, line,
            ),
            None => Ok(None),
        }
    }

    /// The same where the run of the text, which was read, stops so.
    fn find_edit_for_event_stopped_at_line(
        &mut self,
        alloc: Global,
        text: &Lines,
        settings: &Settings,
        parsed: &Parsed,
        stop: &StopPoint,
        line: usize,
    ) -> Result<Option<LineEdit>, AllocError>
        ensures { IfOk result (λ found. IfSome found (IsChange text.now parsed.now.events line)) }
    {
        match FailureSite::from_stop_if_whole_event_on_line(
            alloc, text, settings, parsed, stop, line,
        )? {
            Some(site) => self.find_failed_event_edit_noting_mend(&site),
            None => Ok(None),
        }
    }

    /// The same at the event that stops it.
    fn find_failed_event_edit_noting_mend(
        &mut self,
        site: &FailureSite<'_>,
    ) -> Result<Option<LineEdit>, AllocError>
        ensures { IfOk result (λ found. IfSome found (IsChange site.now.lines.now site.now.parsed.now.events site.now.line)) }
    {
        let Some(mend) = find_mend_by_stop_reason(site, &self.mend_state)? else {
            return Ok(None);
        };
        self.mend_state.note_mend(site, &mend)?;
        let events = site.parsed.events.as_slice();
        Ok(edit_of_mend_if_text_changes(events, site.stop.passed, site.line, site.lines, mend))
    }

    /// Notes where the lines of an edit come from.
    fn update_line_map_by_edit(
        &mut self,
        alloc: Global,
        next_edit: &LineEdit,
    ) -> Result<(), AllocError> {
        self.line_map = self.line_map.after_edit(
            alloc,
            next_edit.from,
            next_edit.remove,
            next_edit.insert.len(),
        )?;
        Ok(())
    }
}

/// The edit that makes a mend; nothing where the text would stay as it is.
fn edit_of_mend_if_text_changes(
    events: &[Event],
    passed: usize,
    line: usize,
    text: &Lines,
    mend: Mend,
) -> Option<LineEdit>
    ensures { IfSome result (IsChange text.now events.now line) }
{
    match mend.target {
        Target::Own => edit_replacing_line_if_different(text, line, mend.lines),
        Target::Follower => edit_replacing_line_if_different(
            text,
            find_follower_line_if_event_on_line(events, passed, line)?,
            mend.lines,
        ),
        Target::Before(_) | Target::Retimed(_) => edit_if_mend_inserts_or_retimes(text, mend),
    }
}

/// The edit that writes lines in the place of one; nothing where that is the same.
fn edit_replacing_line_if_different(text: &Lines, from: usize, insert: LineList) -> Option<LineEdit>
    ensures from { IfSome result (λ next_edit. next_edit.from ≡ from) }
    ensures one { IfSome result (λ next_edit. next_edit.remove ≡ 1) }
{
    if insert.len() == 1 && insert.get(0) == text.line(from) {
        return None;
    }
    Some(LineEdit {
        from,
        remove: 1,
        insert,
    })
}

/// The line that a verdict names; 0 where it names none.
pub fn line_of_verdict_or_zero(verdict: Verdict) -> usize {
    match verdict {
        Verdict::Pass(_) => 0,
        Verdict::Fail(line, _)
        | Verdict::Syntax(line)
        | Verdict::Unsupported(line)
        | Verdict::Limit(line) => line,
    }
}

/// The line of the event after so many others.
fn find_line_of_nth_event(events: &[Event], passed: usize) -> Option<usize>
    ensures { result ≡ line_after events.now passed }
{
    match events.get(passed) {
        Some(event) => Some(event.line),
        None => None,
    }
}

/// The line of the event that follows the one after so many others, if that one is on this line.
#[tactic(auto, using(crate::proofs::Followers::followed))]
fn find_follower_line_if_event_on_line(
    events: &[Event],
    passed: usize,
    line: usize,
) -> Option<usize>
    ensures { IfSome result (IsFollowed events.now line) }
{
    if passed >= events.len() {
        return None;
    }
    match find_line_of_nth_event(events, passed) {
        Some(own) if own == line => find_line_of_nth_event(events, passed + 1),
        _ => None,
    }
}
