//! The items of a text: its tokens, up to its end or the first place where no token can be read.
use crate::octet_buffer::split_at_mark;
use crate::spelling::{PieceKind, SPELLINGS, SpellingPart};

/// The greatest number of a time, a packet or a result.
const MAX_NUMBER: u64 = 4_294_967_295;

/// A token as written, and the line of its first octet; where there is none, nothing in the line of the place.
#[derive(Clone, Copy)]
pub struct ReferenceToken<'a> {
    pub kind: PieceKind,
    pub text: &'a [u8],
    pub line: usize,
}

/// The rest of a text, and the line in which it begins.
#[derive(Clone, Copy)]
pub struct TokenReader<'a> {
    pub rest: &'a [u8],
    pub line: usize,
}

impl<'a> TokenReader<'a> {
    /// Takes the next token.
    pub fn next(&mut self) -> ReferenceToken<'a> {
        let mut piece = self.take_piece();
        for _gap in 0..=self.rest.len() {
            if !piece.kind.is_gap() {
                break;
            }
            piece = self.take_piece();
        }
        piece
    }

    /// Takes the longest piece that comes next, of any kind.
    fn take_piece(&mut self) -> ReferenceToken<'a> {
        let (kind, most) = self.longest();
        let (text, rest) = self.rest.split_at(most.min(self.rest.len()));
        let line = self.line;
        self.rest = rest;
        for octet in text {
            if *octet == b'\n' {
                self.line = self.line.saturating_add(1);
            }
        }
        ReferenceToken { kind, text, line }
    }

    /// The kind of the longest piece that comes next, and how many octets it has.
    fn longest(&self) -> (PieceKind, usize) {
        let mut longest = PieceKind::Nothing;
        let mut most = 0usize;
        let mut matched_len = Some(0usize);
        for step in &SPELLINGS {
            if let SpellingPart::Is(kind) = *step {
                let octets = matched_len.unwrap_or(0);
                if octets > most {
                    longest = kind;
                    most = octets;
                }
                matched_len = Some(0);
            } else if let Some(octets) = matched_len {
                matched_len = step.after(self.rest, octets);
            }
        }
        (longest, most)
    }
}

impl<'a> ReferenceToken<'a> {
    pub fn is_symbol(self, octets: &[u8]) -> bool {
        match self.text {
            [octet] => self.kind.is(PieceKind::Symbol) && octets.contains(octet),
            _ => false,
        }
    }

    /// Whether it is a number of this kind that isn't too large, of a Decimal in its whole part.
    pub fn is_number_within_limit(self, kind: PieceKind) -> bool {
        self.kind.is(kind) && self.whole() <= MAX_NUMBER
    }

    /// The value of an Int or a Hex, or of the digits of a Decimal before its point, as great as it can be.
    pub fn whole(self) -> u64 {
        match self.text {
            [b'0', b'x', digits @ ..] => saturating_value_of_digits(digits, 16),
            text => saturating_value_of_digits(split_at_mark(text, b'.').0, 10),
        }
    }

    /// The microseconds of an Int or a Decimal of seconds.
    pub fn microseconds(self) -> u64 {
        let (_, decimals) = split_at_mark(self.text, b'.');
        let mut value = self.whole();
        for place in 0..6 {
            let digit = decimals.get(place).copied().unwrap_or(b'0');
            value = saturating_with_digit(value, digit, 10);
        }
        value
    }
}

/// The value of digits.
pub fn saturating_value_of_digits(digits: &[u8], base: u64) -> u64 {
    let mut value = 0u64;
    for digit in digits {
        value = saturating_with_digit(value, *digit, base);
    }
    value
}

/// The value with one more digit.
fn saturating_with_digit(value: u64, digit: u8, base: u64) -> u64 {
    let digit = char::from(digit).to_digit(16).unwrap_or(0);
    value.saturating_mul(base).saturating_add(u64::from(digit))
}
