//! Scripts with the places of their events.
ghost use Rattle.std.specs.Prelude.{◌≡◌, ◌≤◌, ◌++◌, ◌∷◌, [], length, IfOk, IfSome, OnOk};
ghost use Rattle.pd_script.specs.Script.{found_in, script_of};
ghost use Rattle.pd_record.specs.PlacedScripts.{IsFound, IsRead};

use pd_lex::Place;
use pd_script::{Event, EventReader, Header, MAX_EVENTS, NextEventStatus, read_header};
use pd_text::Lines;
use std::alloc::{AllocError, Global};

/// A script with the places of its events.
#[derive(Drop)]
pub struct Script {
    /// The header, before the events.
    pub header: Header,
    /// The events in order, at most 4,096.
    pub events: Vec<Event>,
    /// The place of the token after each event; after the last one the start of the line after the text.
    pub places: Vec<Place>,
}

/// Reads the script of a text; nothing where the text is none.
///
/// # Errors
/// `AllocError` where a growth is refused.
#[tactic(auto, unfolding(pd_script::specs::Script::script_of, pd_script::specs::Script::script_in))]
pub fn read_placed_script_if_valid(
    alloc: Global,
    lines: &Lines,
) -> Result<Option<Script>, AllocError>
    ensures read { IfOk result (IsRead (script_of lines.now)) }
    ensures few { IfOk result (λ read. IfSome read (λ script. length script.events.items ≤ 4096)) }
{
    let header = read_header(alloc, lines)?;
    let mut reader = EventReader::at(lines, header.end());
    let mut places = Vec::new(alloc);
    match read_events_and_places_or_none(alloc, &mut reader, &mut places)? {
        Some(events) => Ok(Some(Script {
            header,
            events,
            places,
        })),
        None => Ok(None),
    }
}

/// Reads the events that are left, and the place of the token after each; nothing where no script goes on to the end.
fn read_events_and_places_or_none(
    alloc: Global,
    reader: &mut EventReader,
    places: &mut Vec<Place>,
) -> Result<Option<Vec<Event>>, AllocError>
    ensures found { IfOk result (IsFound (found_in 4096 reader.old)) }
    ensures few { IfOk result (λ found. IfSome found (λ events. length events.items ≤ 4096)) }
{
    let mut events = Vec::new(alloc);
    'events: for i in 0..MAX_EVENTS {
        let mut event = Event::placeholder();
        match reader.read_next_event_into(alloc, &mut event)? {
            NextEventStatus::After(after, lookahead_line) => {
                if i + 1 == MAX_EVENTS && lookahead_line.is_some() {
                    return Ok(None);
                }
                push_event_onto_list(&mut events, event)?;
                places.push(after)?;
            }
            NextEventStatus::End => return Ok(Some(events)),
            NextEventStatus::Fault(_) => return Ok(None),
        }
    }
    // The end of the text follows the last event that a script may have.
    Ok(Some(events))
}

fn push_event_onto_list(events: &mut Vec<Event>, event: Event) -> Result<(), AllocError>
    ensures { OnOk result (events.new.items ≡ events.old.items ++ event ∷ []) }
{
    events.push(event)?;
    Ok(())
}
