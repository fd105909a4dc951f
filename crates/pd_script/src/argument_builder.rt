//! Arguments as far as they are read: none, a number, a word, a number in square brackets, or anything else.
ghost use Rattle.std.specs.Prelude.{◌≡◌, false};

use crate::brackets::OpenPairs;
use crate::calls::Argument;
use crate::names::constant_by_name_or_unknown;
use crate::token_tests::{is_any_word, is_int_of_any_size, is_symbol};
use pd_lex::Token;

/// The tokens of an argument so far.
#[derive(Clone, Copy)]
pub enum ArgumentBuilder {
    /// None.
    Empty,
    /// One, which is an argument of its own.
    Single(Argument),
    /// `[`.
    Opened,
    /// `[` and a number.
    Numbered(u64),
    /// `[`, a number and `]`.
    Element(u64),
    /// Others.
    Mixed,
}

impl ArgumentBuilder {
    ghost use Rattle.pd_script.specs.Cursor.{shown};
    ghost use Rattle.pd_script.specs.ArgumentReading.{single_token_builder, extended_builder, built_argument, is_empty};

    #[inline(always)]
    fn from_first_token(token: &Token) -> ArgumentBuilder
        ensures { result ≡ single_token_builder (shown token.now) }
    {
        if is_int_of_any_size(token) {
            ArgumentBuilder::Single(Argument::Int(token.number))
        } else if is_any_word(token) {
            ArgumentBuilder::Single(Argument::Constant(constant_by_name_or_unknown(token.text)))
        } else if is_symbol(token, b'[') {
            ArgumentBuilder::Opened
        } else {
            ArgumentBuilder::Mixed
        }
    }

    /// Takes one token more; a mixed draft stays as it is.
    #[inline(always)]
    pub fn add_token(&mut self, token: &Token)
        ensures { self.new ≡ extended_builder self.old (shown token.now) }
    {
        match *self {
            ArgumentBuilder::Mixed => {}
            ArgumentBuilder::Empty => *self = ArgumentBuilder::from_first_token(token),
            _ => self.add_later_token(token),
        }
    }

    /// Takes one token more, not the first. It is apart, since most drafts are empty or mixed.
    #[cold]
    #[inline(never)]
    fn add_later_token(&mut self, token: &Token)
        requires { is_empty self.old ≡ false }
        ensures { self.new ≡ extended_builder self.old (shown token.now) }
    {
        *self = match *self {
            ArgumentBuilder::Opened if is_int_of_any_size(token) => ArgumentBuilder::Numbered(
                token.number,
            ),
            ArgumentBuilder::Numbered(n) if is_symbol(token, b']') => ArgumentBuilder::Element(n),
            _ => ArgumentBuilder::Mixed,
        };
    }

    /// The argument that the tokens make.
    pub fn argument(self) -> Argument
        ensures { result ≡ built_argument self }
    {
        match self {
            ArgumentBuilder::Single(argument) => argument,
            ArgumentBuilder::Element(n) => Argument::Element(n),
            _ => Argument::Other,
        }
    }

    /// Whether there are no tokens so far.
    pub fn is_empty(self) -> bool
        ensures { result ≡ is_empty self }
    {
        matches!(self, ArgumentBuilder::Empty)
    }
}

/// Within the brackets of a call: the pairs that are open there, and the tokens of the argument so far.
#[derive(Drop)]
pub struct BracketContext {
    /// The pairs that are open.
    pub pairs: OpenPairs,
    /// The tokens of the argument so far.
    pub builder: ArgumentBuilder,
}

impl BracketContext {
    ghost use Rattle.pd_script.specs.ArgumentReading.{at_start};

    /// Where an argument begins.
    pub fn at_start() -> BracketContext
        ensures { result ≡ at_start }
    {
        BracketContext {
            pairs: OpenPairs::new(),
            builder: ArgumentBuilder::Empty,
        }
    }
}
