//! The token at which no script goes on, and what could be there.
mod blanks;
mod candidates;
mod foreign_syntax;
mod last_event;
mod probe;

use self::candidates::list_candidates_that_can_follow;
pub use self::foreign_syntax::ForeignSyntax;
use self::last_event::LastEvent;
use crate::parts::{rest_of_line_at, shown_line_at};
use pd_lex::Place;
use pd_text::Lines;
use std::alloc::{AllocError, Global};

/// Where no script goes on, and what could be there.
#[derive(Drop)]
pub struct Refusal {
    /// The line that is shown, counted from 1.
    pub line: usize,
    /// Its octets as they are shown, all of them.
    pub text: Vec<u8>,
    /// In which column of `text` the refused token begins, or something is missing, counted from 0; nothing at the end of the
    /// text.
    pub mark: Option<usize>,
    /// The foreign syntax that stands there, where it has a name.
    pub foreign_syntax: Option<ForeignSyntax>,
    /// The candidates for that place, in words.
    pub expected: Vec<Vec<u8>>,
}

impl Refusal {
    /// The foreign syntax that stands there, in words, where it has a name.
    pub fn foreign_syntax_in_words(&self) -> Option<&'static str> {
        match self.foreign_syntax {
            Some(foreign_syntax) => Some(foreign_syntax.words()),
            None => None,
        }
    }
}

/// The token of a line at which no script goes on, of a text that the grammar refuses at that line.
///
/// # Errors
/// `AllocError` where a growth is refused.
pub fn find_refused_token_and_expected(
    alloc: Global,
    lines: &Lines,
    line: usize,
) -> Result<Refusal, AllocError> {
    let last_event = LastEvent::read(alloc, lines, line)?;
    let accepted = last_event.count_accepted_tokens(alloc)?;
    let refused = last_event.place_of_refused(lines, line, accepted);
    let marked = last_event.place_to_mark(alloc, refused, accepted)?;
    let place_shown = shown_line_at(alloc, lines, marked.unwrap_or(Place::line_start(line)))?;
    let expected = list_candidates_that_can_follow(
        alloc,
        last_event.prior_events_and_first_tokens(accepted),
        last_event.expected_packet_length(accepted),
    )?;
    Ok(Refusal {
        line: place_shown.line,
        text: place_shown.text,
        mark: marked.map(|_| place_shown.column),
        foreign_syntax: foreign_syntax_at_refusal(
            lines,
            refused,
            last_event.symbol_before(accepted),
        ),
        expected,
    })
}

/// The foreign syntax where no script goes on, after a token with this octet, if that is a symbol.
fn foreign_syntax_at_refusal(
    lines: &Lines,
    refused: Option<Place>,
    after: u8,
) -> Option<ForeignSyntax> {
    match refused {
        Some(place) => ForeignSyntax::at_start_of(rest_of_line_at(lines, place), after),
        None => None,
    }
}
