//! A reader that keeps all ways to read a script at once, token by token.
use crate::grammar::{GRAMMAR, GrammarPart, Nonterminal};
use crate::parsed_lines::ParsedLines;
use crate::spelling::PieceKind;
use crate::token_checks::TokenChecks;
use crate::token_reader::{ReferenceToken, TokenReader};
use std::alloc::Global;
use std::mem::swap;

/// The greatest number of events of a script.
const MAX_EVENTS: usize = 4_096;

/// More parts are never written out before one token.
const MAX_PARTS: usize = 1_000;

/// The rest of no way.
const NONE: usize = usize::MAX;

/// Where the parts of a way are in the grammar that have to come yet.
#[derive(Clone, Copy)]
struct Continuation {
    at: usize,
    /// Which of the machine's rests has to come after them.
    after: usize,
}

/// One way to read what has come.
#[derive(Clone, Copy)]
struct Alternative {
    rest: Continuation,
    token_checks: TokenChecks,
}

/// Where a way to write what has this name begins in the grammar.
#[derive(Clone, Copy)]
struct Production {
    name: Nonterminal,
    at: usize,
}

#[derive(Drop)]
pub struct ReferenceParser {
    productions: Vec<Production>,
    /// The rests of ways that are around others.
    continuations: Vec<Continuation>,
    /// The ways that have to be written out.
    open: Vec<Alternative>,
    /// The ways that the next token leaves.
    left: Vec<Alternative>,
    /// Whether nothing more has to come in some way.
    is_whole: bool,
    /// How many events have begun with the last token.
    events_begun: usize,
    /// The reading so far.
    pub reading: ParsedLines,
    /// Whether no memory was found, or there were too many parts before one token.
    pub is_short: bool,
}

impl ReferenceParser {
    pub fn new(alloc: Global) -> ReferenceParser {
        let mut reference_parser = ReferenceParser {
            productions: Vec::new(alloc),
            continuations: Vec::new(alloc),
            open: Vec::new(alloc),
            left: Vec::new(alloc),
            is_whole: false,
            events_begun: 0,
            reading: ParsedLines::new(alloc),
            is_short: false,
        };
        reference_parser.find_all_productions();
        reference_parser
    }

    fn find_all_productions(&mut self) {
        for at in 0..GRAMMAR.len() {
            if let GrammarPart::Alternative(name) = part_at(at) {
                self.is_short |= self
                    .productions
                    .push(Production { name, at: at + 1 })
                    .is_err();
            }
        }
    }

    /// Reads a text. Each part can be written where it is asked for, so items begin a script as long as a way is left.
    pub fn read(&mut self, text: &[u8]) {
        self.begin();
        let mut items = TokenReader {
            rest: text,
            line: 1,
        };
        for _item in 0..=text.len() {
            let token = items.next();
            self.step_all(token);
            if token.text.is_empty() && items.rest.is_empty() && self.is_whole {
                return;
            }
            if self.left.is_empty() {
                self.refuse(token.line);
                return;
            }
            self.note_line_of_item_or_event(token.line);
            swap(&mut self.open, &mut self.left);
        }
    }

    /// The one way to begin: a whole script has to come.
    fn begin(&mut self) {
        self.reading.clear();
        self.continuations.clear();
        self.open.clear();
        self.left.clear();
        let token_checks = TokenChecks {
            events: 0,
            first: 0,
            length: 0,
            pairs: 0,
        };
        self.push_open_way(Continuation { at: 1, after: NONE }, token_checks);
    }

    /// Adds a way that has to be written out.
    fn push_open_way(&mut self, rest: Continuation, token_checks: TokenChecks) {
        self.is_short |= self.open.push(Alternative { rest, token_checks }).is_err();
    }

    /// Writes out all ways, each up to one token to come next, or nothing more, and goes on with this token in each way that
    /// it fits.
    fn step_all(&mut self, token: ReferenceToken<'_>) {
        self.events_begun = 0;
        self.is_whole = false;
        for _part in 0..MAX_PARTS {
            match self.open.pop() {
                Some(way) => self.step_one(way, token),
                None => return,
            }
        }
        self.is_short = true;
    }

    /// Writes out the next part of a way, or goes on with this token; at its end the rest that is around it goes on.
    fn step_one(&mut self, way: Alternative, token: ReferenceToken<'_>) {
        let Alternative { rest, token_checks } = way;
        let following = Continuation {
            at: rest.at.saturating_add(1),
            after: rest.after,
        };
        let around = self.continuations.get(rest.after).copied();
        match (part_at(rest.at), around) {
            (GrammarPart::Of(name), _) => self.push_ways_to_write_name(
                name,
                following,
                token_checks,
            ),
            (GrammarPart::Alternative(_), Some(rest)) => self.push_open_way(rest, token_checks),
            (GrammarPart::Alternative(_), None) => self.is_whole = true,
            (part, _) => self.take(part, token, following, token_checks),
        }
    }

    /// Goes on after this part, if the token is what it asks for.
    fn take(
        &mut self,
        part: GrammarPart,
        token: ReferenceToken<'_>,
        rest: Continuation,
        token_checks: TokenChecks,
    ) {
        let mut token_checks = token_checks;
        if !token.text.is_empty() && token_checks.take(part, token) {
            self.events_begun = self.events_begun.max(token_checks.events);
            self.is_short |= self.left.push(Alternative { rest, token_checks }).is_err();
        }
    }

    /// Adds each way to write what has this name, with this rest to come after it.
    fn push_ways_to_write_name(
        &mut self,
        name: Nonterminal,
        rest: Continuation,
        token_checks: TokenChecks,
    ) {
        let mut token_checks = token_checks;
        if name.is(Nonterminal::Event) {
            token_checks.events = token_checks.events.saturating_add(1);
        }
        if token_checks.events > MAX_EVENTS {
            return;
        }
        let after = self.number_of_stored_continuation(rest);
        for rule in self.productions.as_slice() {
            if rule.name.is(name) {
                let rest = Continuation { at: rule.at, after };
                self.is_short |= self.open.push(Alternative { rest, token_checks }).is_err();
            }
        }
    }

    /// The number of a rest; where it has no parts, of what has to come after it.
    fn number_of_stored_continuation(&mut self, rest: Continuation) -> usize {
        if let GrammarPart::Alternative(_) = part_at(rest.at) {
            return rest.after;
        }
        self.is_short |= self.continuations.push(rest).is_err();
        self.continuations.len().saturating_sub(1)
    }

    /// Notes the line of a token, if it is of the header or the first of an event.
    fn note_line_of_item_or_event(&mut self, line: usize) {
        if self.events_begun == 0 {
            self.reading.header = self.reading.header.saturating_add(1);
        }
        if self.events_begun == 0 || self.events_begun > self.reading.events() {
            self.reading.add(line);
        }
    }

    /// Refuses the text in this line, in the event that began last or right after it.
    fn refuse(&mut self, line: usize) {
        if self.reading.events() > 0 {
            let _ = self.reading.lines.pop();
        }
        self.reading.fault = Some(line);
    }
}

/// A part of the grammar; after the last the beginning of a way, as after any other way.
fn part_at(at: usize) -> GrammarPart {
    GRAMMAR
        .get(at)
        .copied()
        .unwrap_or(GrammarPart::Alternative(Nonterminal::Script))
}
