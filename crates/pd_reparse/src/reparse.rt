//! Reading a text, whole or from the first event that an edit can have changed.
ghost use Rattle.std.specs.Prelude.{◌≡◌, ◌+◌, ◌-◌, ◌<◌, length, IfOk};
ghost use Rattle.pd_lex.specs.Lexing.{items};
ghost use Rattle.pd_reparse.specs.Reading.{IsReadingOfFirst, ReachesRise, reading_of, kept_of};
ghost use Rattle.pd_reparse.specs.Steps.{IsReadOn, IsStep};

use crate::parsed_event::{ParsedEvent, count_events_decided_within_first_lines};
use crate::reading::Reading;
use crate::reread_result::Reread;
use crate::shared_list::SharedList;
use pd_lex::{Place, law_first_lines_fix_tokens_in_order};
use pd_script::{
    EventReader, Header, MAX_EVENTS, NextEventStatus, law_lexing_from_event_start_gives_same_items,
    read_header,
};
use pd_text::Lines;
use std::alloc::{AllocError, Global};

/// The next item among the events of a text.
#[derive(Clone, Copy)]
pub enum ReadStep {
    /// An event that is kept, in a place of its own.
    Goes,
    /// The end of the text, or the line of the fault.
    Stops(Option<usize>),
}

/// Reads a text.
///
/// # Errors
/// `AllocError` where a growth is refused.
#[tactic(auto, unfolding(crate::specs::Reading::reading_of, crate::specs::Reading::reading_in))]
pub fn read(alloc: Global, lines: &Lines) -> Result<Reading, AllocError>
    ensures { IfOk result (λ reading. reading ≡ reading_of lines.now) }
{
    let header = read_header(alloc, lines)?;
    let place = header.end();
    complete_reading_from_place(alloc, lines, header, SharedList::new(alloc), place)
}

/// Reads a text again whose first `same` lines are those of the text that was read before: the
/// events that these lines decide are kept, and reading goes on after them. The limit on events
/// holds for all of them.
///
/// # Errors
/// `AllocError` where a growth is refused.
pub fn reread(
    alloc: Global,
    old: &Reading,
    lines: &Lines,
    same: usize,
) -> Result<Reread, AllocError>
    requires { IsReadingOfFirst same lines.now old.now }
    ensures reading { IfOk result (λ again. again.reading ≡ reading_of lines.now) }
    ensures kept { IfOk result (λ again. again.kept ≡ kept_of same old.now) }
{
    // The laws of tokens do no work: what is kept rests on them.
    law_first_lines_fix_tokens_in_order();
    law_lexing_from_event_start_gives_same_items();
    let kept = count_events_kept_by_same_first_lines(old, same);
    if kept == 0 {
        let reading = read(alloc, lines)?;
        return Ok(Reread { reading, kept });
    }
    lines.law_invariant();
    let header = old.header().copy()?;
    let events = old.first_events(kept)?;
    let place = old.place_after_first_events(kept);
    let reading = complete_reading_from_place(alloc, lines, header, events, place)?;
    Ok(Reread { reading, kept })
}

/// How many events of a text's reading its first `same` lines decide.
#[tactic(auto, unfolding(crate::specs::Reading::kept_of))]
fn count_events_kept_by_same_first_lines(old: &Reading, same: usize) -> usize
    requires { ReachesRise old.now.events }
    ensures { result ≡ kept_of same old.now }
{
    count_events_decided_within_first_lines(old.events(), same)
}

/// Reads the events from a place on, after a header and events that are known.
fn complete_reading_from_place(
    alloc: Global,
    lines: &Lines,
    header: Header,
    front: SharedList<ParsedEvent>,
    place: Place,
) -> Result<Reading, AllocError>
    requires { length front < 4096 }
    ensures { IfOk result (λ reading. IsReadOn reading header front (4096 - length front) (items lines.now place)) }
{
    let mut events = front;
    events.reserve(count_lines_from(lines, place))?;
    let mut reader = EventReader::at(lines, place);
    'events: for i in events.len()..MAX_EVENTS {
        let mut parsed_event = ParsedEvent::placeholder();
        match read_event_or_stop_at_end_fault_or_limit(
            alloc,
            &mut reader,
            MAX_EVENTS - i - 1,
            &mut parsed_event,
        )? {
            ReadStep::Goes => events.push(parsed_event)?,
            ReadStep::Stops(fault) => return Ok(Reading::new(header, events, fault)?),
        }
    }
    // The end of the text follows the last event that a script may have.
    Ok(Reading::new(header, events, None)?)
}

/// How many lines there are from a place on.
fn count_lines_from(lines: &Lines, place: Place) -> usize
    ensures { result ≡ length lines.now + 1 - place.line }
{
    (lines.len() + 1).saturating_sub(place.line)
}

/// Reads the next event in the place of another, where so many more may follow it.
fn read_event_or_stop_at_end_fault_or_limit(
    alloc: Global,
    reader: &mut EventReader,
    more: usize,
    parsed_event: &mut ParsedEvent,
) -> Result<ReadStep, AllocError>
    ensures { IfOk result (IsStep reader.new reader.old more parsed_event.new) }
{
    match reader.read_next_event_into(alloc, &mut parsed_event.event)? {
        NextEventStatus::After(after, lookahead_line) => {
            if more == 0 && lookahead_line.is_some() {
                return Ok(ReadStep::Stops(lookahead_line));
            }
            parsed_event.lookahead_line = lookahead_line;
            parsed_event.after = after;
            Ok(ReadStep::Goes)
        }
        NextEventStatus::End => Ok(ReadStep::Stops(None)),
        NextEventStatus::Fault(line) => Ok(ReadStep::Stops(Some(line))),
    }
}
