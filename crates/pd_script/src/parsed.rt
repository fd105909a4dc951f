//! A whole script, read.
use crate::script_events::Events;
use crate::script_header::Header;

/// The script that a text was read as.
#[derive(Drop)]
pub struct Parsed {
    /// The part before the events.
    pub header: Header,
    /// The events in order.
    pub events: Events,
    /// The line at which no script goes on, if the text is refused.
    pub fault: Option<usize>,
}

/// The events that were read, and the line of the fault.
#[derive(Drop)]
pub struct EventsAndFault {
    /// The events in order.
    pub events: Events,
    /// The line at which no script goes on, if the text is refused.
    pub fault: Option<usize>,
}
