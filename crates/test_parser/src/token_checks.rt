//! Whether a token is what the grammar asks for, with the numbers that later tokens are compared with.
use crate::grammar::{Bound, GrammarPart};
use crate::spelling::{OctetSet, PieceKind};
use crate::token_reader::ReferenceToken;

/// The greatest number of pairs of brackets inside one another.
const MAX_PAIRS: usize = 16;

/// The facts of earlier tokens that later ones are compared with.
#[derive(Clone, Copy)]
pub struct TokenChecks {
    /// How many events have begun.
    pub events: usize,
    /// The first number of a range, and its length.
    pub first: u64,
    pub length: u64,
    /// How many pairs of brackets are open, without a call's own.
    pub pairs: usize,
}

impl TokenChecks {
    /// Takes a token, and returns whether this part asks for it.
    pub fn take(&mut self, part: GrammarPart, token: ReferenceToken<'_>) -> bool {
        match part {
            GrammarPart::Seconds(bound) => {
                let is_time = token.is_number_within_limit(PieceKind::Int)
                    || token.is_number_within_limit(PieceKind::Decimal);
                is_time && self.is_within_bound_noting_number(bound, token.microseconds())
            }
            GrammarPart::Number(bound) => {
                token.is_number_within_limit(PieceKind::Int)
                    && self.is_within_bound_noting_number(bound, token.whole())
            }
            GrammarPart::Opening(octet) => {
                self.pairs = self.pairs.saturating_add(1);
                token.is_symbol(&[octet]) && self.pairs <= MAX_PAIRS
            }
            GrammarPart::Closing(octet) => {
                self.pairs = self.pairs.saturating_sub(1);
                token.is_symbol(&[octet])
            }
            _ => part.is_met_by(token),
        }
    }

    /// Notes a number that later ones are compared with, and returns whether it fits those before it.
    fn is_within_bound_noting_number(&mut self, bound: Bound, number: u64) -> bool {
        match bound {
            Bound::Free => true,
            Bound::First => {
                self.first = number;
                true
            }
            Bound::Second => {
                self.length = number.saturating_sub(self.first);
                number >= self.first
            }
            Bound::Length => number == self.length,
        }
    }
}

impl GrammarPart {
    /// Whether a token is what this part asks for, whatever came before it.
    fn is_met_by(self, token: ReferenceToken<'_>) -> bool {
        match self {
            GrammarPart::ReferenceToken(kind) => token.kind.is(kind),
            GrammarPart::Symbol(octet) => token.is_symbol(&[octet]),
            GrammarPart::Named(name) => token.text == name,
            GrammarPart::Hexadecimal => token.is_number_within_limit(PieceKind::Hex),
            GrammarPart::Letters => OctetSet::Flag.front_len(token.text) == token.text.len(),
            GrammarPart::Plain => !token.is_symbol(b"()[]{}"),
            GrammarPart::Argued => !token.is_symbol(b"()[]{},"),
            _ => false,
        }
    }
}
