//! Reading a whole script; of a text that is none, what stands before its fault, and the line of the fault.
ghost use Rattle.std.specs.Prelude.{◌≡◌, ◌≤◌, length, IfOk};
ghost use Rattle.pd_lex.specs.Places.{first_place};
ghost use Rattle.pd_lex.specs.Lexing.{items};
ghost use Rattle.pd_script.specs.Header.{HasEnd};
ghost use Rattle.pd_script.specs.Faults.{IsScriptOf};
ghost use Rattle.pd_script.specs.Range.{HasLines};
ghost use Rattle.pd_script.specs.Script.{found_in, script_of};

use crate::cursor::Cursor;
use crate::event_reader::NextEventStatus;
use crate::header_reader::read_header;
use crate::parsed::{EventsAndFault, Parsed};
use crate::script_events::{Event, Events};
use pd_lex::{law_first_lines_fix_tokens_in_order, law_tokens_are_exactly_longest_pieces};
use pd_text::Lines;
use std::alloc::{AllocError, Global};

/// The greatest number of events of a script.
pub const MAX_EVENTS: usize = 4_096;

impl<'a> Cursor<'a> {
    /// Takes all events. After the last that a script may have, another one is the fault, and what
    /// it follows isn't kept.
    fn take_events_and_fault_if_any(&mut self, alloc: Global) -> Result<EventsAndFault, AllocError>
        ensures { IfOk result (λ found. found ≡ found_in 4096 self.old) }
    {
        let mut events = Events::new(alloc);
        'events: for i in 0..MAX_EVENTS {
            let mut event = Event::placeholder();
            match self.read_event_into_giving_status(alloc, &mut event)? {
                NextEventStatus::After(_, lookahead_line) => {
                    if i + 1 == MAX_EVENTS && lookahead_line.is_some() {
                        return Ok(EventsAndFault {
                            events,
                            fault: lookahead_line,
                        });
                    }
                    events.push(event)?;
                }
                NextEventStatus::End => return Ok(EventsAndFault {
                    events,
                    fault: None,
                }),
                NextEventStatus::Fault(line) => {
                    let fault = Some(line);
                    return Ok(EventsAndFault { events, fault });
                }
            }
        }
        let fault = self.line_of_next_token_if_any();
        Ok(EventsAndFault { events, fault })
    }
}

/// Reads the script of a text, in packetdrill's grammar.
///
/// A text that is no script is read up to its fault, the line of the first token at which no
/// script goes on: with the header before it, and the events before it whose next token stands
/// before it too. A script has at most 4,096 events.
///
/// # Errors
/// `AllocError` where a growth is refused.
pub fn parse(alloc: Global, lines: &Lines) -> Result<Parsed, AllocError>
    ensures script { IfOk result (λ parsed. parsed ≡ script_of lines.now) }

    // The items that were read are spelled so, or the fault is the first item at which no script goes on.
    ensures read { IfOk result (IsScriptOf lines.now) }
    ensures limit { IfOk result (λ parsed. length parsed.events ≤ 4096) }
    ensures lines { IfOk result (λ parsed. HasLines lines.now parsed) }

    // The header ends after the last of its items.
    ensures end { IfOk result (λ parsed. HasEnd (items lines.now first_place) parsed.header) }
{
    // The laws of tokens do no work: the contracts on items and their lines rest on them.
    law_tokens_are_exactly_longest_pieces();
    law_first_lines_fix_tokens_in_order();
    let parsed = read_header_events_and_fault(alloc, lines)?;
    lines.law_invariant();
    Ok(parsed)
}

#[tactic(auto, unfolding(crate::specs::Script::script_of, crate::specs::Script::script_in))]
fn read_header_events_and_fault(alloc: Global, lines: &Lines) -> Result<Parsed, AllocError>
    ensures { IfOk result (λ parsed. parsed ≡ script_of lines.now) }
{
    let header = read_header(alloc, lines)?;
    let EventsAndFault { events, fault } = Cursor::at(
        lines,
        header.end(),
    ).take_events_and_fault_if_any(alloc)?;
    Ok(Parsed {
        header,
        events,
        fault,
    })
}
