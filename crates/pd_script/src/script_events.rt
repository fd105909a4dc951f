//! The events of a script.
ghost use Rattle.std.specs.Prelude.{◌≡◌, [], ◌∷◌, ◌++◌, length, IfOk, OnOk};

use crate::calls::Call;
use crate::packets::Packet;
use crate::timing::{BlockingEnd, Time};
use std::alloc::{AllocError, Global};
use std::marker::Model;

/// An event: what happens, and when.
#[derive(Drop)]
pub struct Event {
    /// The line of its first token, counted from 1.
    pub line: usize,
    /// When it happens.
    pub time: Time,
    /// The end of a blocking call, if one is written.
    pub blocking_end: Option<BlockingEnd>,
    /// Its kind, with the parts of that kind.
    pub action: Action,
}

/// The kinds of events, with their parts.
#[derive(Drop)]
pub enum Action {
    /// `<`: a packet arrives.
    Inbound(Packet),
    /// `>`: a packet is expected to leave.
    Outbound(Packet),
    /// A system call is made.
    Call(Call),
    /// A shell command in backquotes.
    Command,
    /// Code between `%{` and `}%`.
    Code,
}

/// Events in order.
#[derive(Drop)]
pub struct Events {
    /// The events in order.
    events: Vec<Event>,
}

impl Event {
    /// An event in whose place others are read.
    pub fn placeholder() -> Event {
        Event {
            line: 0,
            time: Time::Any,
            blocking_end: None,
            action: Action::Command,
        }
    }

    /// The same event once more.
    ///
    /// # Errors
    /// `AllocError` where a growth is refused.
    pub fn copy(&self) -> Result<Event, AllocError>
        ensures { IfOk result (λ copy. copy ≡ self.now) }
    {
        Ok(Event {
            line: self.line,
            time: self.time,
            blocking_end: self.blocking_end,
            action: self.action.copy()?,
        })
    }
}

impl Action {
    /// The same action once more.
    ///
    /// # Errors
    /// `AllocError` where a growth is refused.
    pub fn copy(&self) -> Result<Action, AllocError>
        ensures { IfOk result (λ copy. copy ≡ self.now) }
    {
        Ok(match self {
            Action::Inbound(packet) => Action::Inbound(packet.copy()?),
            Action::Outbound(packet) => Action::Outbound(packet.copy()?),
            Action::Call(call) => Action::Call(call.copy()?),
            Action::Command => Action::Command,
            Action::Code => Action::Code,
        })
    }
}

impl Model for Events {
    ghost use Rattle.std.specs.Prelude.{List};
    ghost use Rattle.pd_script.specs.declared.script_events.Event.{Event};

    ghost Value = { List Event };

    ghost view = { λ l. l.events.items };
}

impl Events {
    /// No events.
    pub fn new(alloc: Global) -> Events
        ensures { result ≡ [] }
    {
        Events {
            events: Vec::new(alloc),
        }
    }

    /// Puts an event after the others.
    ///
    /// # Errors
    /// `AllocError` where a growth is refused.
    pub fn push(&mut self, event: Event) -> Result<(), AllocError>
        ensures { OnOk result (self.new ≡ self.old ++ event ∷ []) }
    {
        self.events.push(event)?;
        Ok(())
    }

    /// How many they are.
    pub fn len(&self) -> usize
        ensures { result ≡ length self.now }
    {
        self.events.len()
    }

    /// The events in order.
    pub fn as_slice(&self) -> &[Event]
        ensures { result.now ≡ self.now }
    {
        self.events.as_slice()
    }
}
