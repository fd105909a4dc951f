//! The next token's kind, before it is taken.
ghost use Rattle.std.specs.Prelude.{◌≡◌};
ghost use Rattle.pd_script.specs.Items.{is_next_int_within_u32, is_named, is_next_hex_within_u32, is_num, is_dots, is_word, is_symbol, is_end, starts_event, next_is};

use crate::cursor::Cursor;
use crate::numbers::{
    MAX_NUMBER, TIME_LIMIT, saturated_hex_number, saturated_microseconds_of_seconds,
};
use pd_lex::{Lexed, TokenKind};

impl<'a> Cursor<'a> {
    /// Whether the text ends here.
    pub fn is_end(&self) -> bool
        ensures { result ≡ next_is is_end self.now }
    {
        matches!(self.peek(), Lexed::End)
    }

    /// Whether the symbol of this octet comes next.
    #[tactic(auto, using(crate::proofs::Symbols::one_octet), unfolding(pd_lex::specs::Lexing::lexeme_of))]
    pub fn is_symbol(&self, octet: u8) -> bool
        ensures { result ≡ next_is (is_symbol octet) self.now }
    {
        match self.peek() {
            Lexed::Token(token) => {
                matches!(token.kind, TokenKind::Symbol) && token.symbol == octet
            },
            _ => false,
        }
    }

    /// Whether an Int of at most 4,294,967,295 comes next.
    #[tactic(auto, unfolding(pd_lex::specs::Lexing::lexeme_of))]
    pub fn is_next_int_within_u32(&self) -> bool
        ensures { result ≡ next_is is_next_int_within_u32 self.now }
    {
        match self.peek() {
            Lexed::Token(token) => {
                matches!(token.kind, TokenKind::Int) && token.number <= MAX_NUMBER
            },
            _ => false,
        }
    }

    /// Whether a Hex of at most 4,294,967,295 comes next.
    #[tactic(auto, unfolding(pd_lex::specs::Lexing::lexeme_of))]
    pub fn is_next_hex_within_u32(&self) -> bool
        ensures { result ≡ next_is is_next_hex_within_u32 self.now }
    {
        match self.peek() {
            Lexed::Token(token) => {
                matches!(token.kind, TokenKind::Hex)
                    && saturated_hex_number(token.text) <= MAX_NUMBER
            },
            _ => false,
        }
    }

    /// Whether an Int or a Decimal below 4,294,967,296 seconds comes next.
    #[tactic(auto, unfolding(pd_lex::specs::Lexing::lexeme_of))]
    pub fn is_next_seconds_within_limit(&self) -> bool
        ensures { result ≡ next_is is_num self.now }
    {
        match self.peek() {
            Lexed::Token(token) => {
                matches!(token.kind, TokenKind::Int | TokenKind::Decimal)
                    && saturated_microseconds_of_seconds(token.text) < TIME_LIMIT
            },
            _ => false,
        }
    }

    /// Whether a word comes next.
    #[tactic(auto, unfolding(pd_lex::specs::Lexing::lexeme_of))]
    pub fn is_word(&self) -> bool
        ensures { result ≡ next_is is_word self.now }
    {
        match self.peek() {
            Lexed::Token(token) => matches!(token.kind, TokenKind::Word),
            _ => false,
        }
    }

    /// Whether this word comes next.
    #[tactic(auto, unfolding(pd_lex::specs::Lexing::lexeme_of))]
    pub fn is_this_word(&self, name: &[u8]) -> bool
        ensures { result ≡ next_is (is_named name.now) self.now }
    {
        match self.peek() {
            Lexed::Token(token) => matches!(token.kind, TokenKind::Word) && token.text == name,
            _ => false,
        }
    }

    /// Whether three points come next.
    #[tactic(auto, unfolding(pd_lex::specs::Lexing::lexeme_of))]
    pub fn is_dots(&self) -> bool
        ensures { result ≡ next_is is_dots self.now }
    {
        match self.peek() {
            Lexed::Token(token) => matches!(token.kind, TokenKind::Dots),
            _ => false,
        }
    }

    /// Whether an event begins here.
    pub fn starts_event(&self) -> bool
        ensures { result ≡ next_is starts_event self.now }
    {
        self.is_next_seconds_within_limit() || self.is_symbol(b'+') || self.is_symbol(b'*')
    }
}
