//! The reading of a text: its script, which line decides each event, and the line of the fault if it is refused.
ghost use Rattle.std.specs.Prelude.{◌≡◌, ◌≤◌, ◌<◌, length, take, IfOk};
ghost use Rattle.pd_lex.specs.declared.token.Place.{Place};
ghost use Rattle.pd_reparse.specs.Reading.{last_place};

use crate::parsed_event::ParsedEvent;
use crate::shared_list::SharedList;
use pd_lex::Place;
use pd_script::Header;
use std::alloc::AllocError;
use std::marker::Model;

/// The reading of a text: its header, its events, each with its reach, and the line of the
/// fault, if the text is refused.
#[derive(Drop)]
pub struct Reading {
    /// The part before the events.
    header: Header,
    /// The events in order, each with what decided it; at most 4,096.
    events: SharedList<ParsedEvent>,
    /// The line at which no script goes on, if the text is refused.
    fault: Option<usize>,
}

impl Model for Reading {
    ghost use Rattle.std.specs.Prelude.{◌≤◌, length};
    ghost use Rattle.pd_reparse.specs.Reading.{ReadingView};

    ghost Value = { ReadingView };

    ghost view = { λ r. record { header = r.header; events = r.events; fault = r.fault } };

    ghost invariant = { λ r. length r.events ≤ 4096 };
}

impl Reading {
    /// The reading of these parts, whose events others may share; a script has at most 4,096 events.
    ///
    /// # Errors
    /// `AllocError` where a growth is refused.
    pub fn new(
        header: Header,
        events: SharedList<ParsedEvent>,
        fault: Option<usize>,
    ) -> Result<Reading, AllocError>
        requires { length events ≤ 4096 }
        ensures { IfOk result (λ reading. reading ≡ record { header = header; events = events; fault = fault }) }
    {
        let mut events = events;
        events.pack_into_blocks()?;
        Ok(Reading {
            header,
            events,
            fault,
        })
    }

    /// Its header.
    pub fn header(&self) -> &Header
        ensures { result.now ≡ self.now.header }
    {
        &self.header
    }

    /// Its events, at most 4,096.
    pub fn events(&self) -> &SharedList<ParsedEvent>
        ensures value { result.now ≡ self.now.events }
        ensures few { length result.now ≤ 4096 }
    {
        &self.events
    }

    /// The line at which no script goes on, if the text is refused.
    pub fn fault(&self) -> Option<usize>
        ensures { result ≡ self.now.fault }
    {
        self.fault
    }
}

/// The part that is kept where the first lines stay.
impl Reading {
    /// The first events.
    ///
    /// # Errors
    /// `AllocError` where memory for what isn't shared is refused.
    pub fn first_events(&self, count: usize) -> Result<SharedList<ParsedEvent>, AllocError>
        requires { count ≤ length self.now.events }
        ensures { IfOk result (λ events. events ≡ take count self.now.events) }
    {
        self.events.share_first(count)
    }

    /// The place after the first events, one at least.
    pub fn place_after_first_events(&self, count: usize) -> Place
        requires some { 0 < count }
        requires within { count ≤ length self.now.events }
        ensures { (start : Place) → last_place start (take count self.now.events) ≡ result }
    {
        self.events.at(count - 1).after
    }
}
