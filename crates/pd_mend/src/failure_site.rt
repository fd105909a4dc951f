//! Where a run stopped, as it stands in its text.
ghost use Rattle.std.specs.Prelude.{◌≡◌, IfOk, IfSome};

use crate::event_line::EventLine;
use crate::tokens::Columns;
use pd_run::StopPoint;
use pd_script::{Event, Parsed};
use pd_settings::Settings;
use pd_text::Lines;
use std::alloc::{AllocError, Global};

/// An event at which a run stopped, as it stands on its line.
#[derive(Drop)]
pub struct FailureSite<'a> {
    pub alloc: Global,
    /// The text that is run.
    pub lines: &'a Lines,
    /// The settings of the run.
    pub settings: &'a Settings,
    /// The script as which the text was read.
    pub parsed: &'a Parsed,
    /// Where the run stops, and why.
    pub stop: &'a StopPoint,
    /// The line on which the event begins, counted from 1.
    pub line: usize,
    /// The event that stops it.
    pub own: EventLine<'a>,
}

impl<'a> FailureSite<'a> {
    /// The event that stops the run of a text at a line; nothing where not all of it is on that line.
    ///
    /// # Errors
    /// `AllocError` where a growth is refused.
    pub fn from_stop_if_whole_event_on_line(
        alloc: Global,
        lines: &'a Lines,
        settings: &'a Settings,
        parsed: &'a Parsed,
        stop: &'a StopPoint,
        line: usize,
    ) -> Result<Option<FailureSite<'a>>, AllocError>
        ensures { IfOk result (λ found. IfSome found (λ site. (site.lines.now ≡ lines.now) × (site.parsed.now ≡ parsed.now) × (site.line ≡ line))) }
    {
        match EventLine::find_nth_event_if_on_one_line(alloc, lines, parsed, stop.passed)? {
            Some(own) if own.line == line => Ok(Some(FailureSite {
                alloc,
                lines,
                settings,
                parsed,
                stop,
                line,
                own,
            })),
            _ => Ok(None),
        }
    }

    /// Where the event stands on its line.
    pub fn columns(&self) -> Columns {
        self.own.columns()
    }

    /// The octets of its line.
    pub fn octets(&self) -> &'a [u8] {
        self.own.octets
    }

    /// The events from this one on.
    pub fn events_from_failed_one_on(&self) -> &'a [Event] {
        let events = self.parsed.events.as_slice();
        match events.get(self.stop.passed) {
            Some(_) => &events[self.stop.passed..],
            None => &[],
        }
    }
}
