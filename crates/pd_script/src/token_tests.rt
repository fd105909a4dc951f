//! Tests of a token by itself.
ghost use Rattle.std.specs.Prelude.{◌≡◌};
ghost use Rattle.pd_script.specs.Items.{is_int_of_any_size, is_word, is_symbol};
ghost use Rattle.pd_script.specs.Cursor.{shown};

use pd_lex::{Token, TokenKind};

/// An Int of any size.
pub fn is_int_of_any_size(token: &Token) -> bool
    ensures { result ≡ is_int_of_any_size (shown token.now) }
{
    matches!(token.kind, TokenKind::Int)
}

/// A word.
pub fn is_any_word(token: &Token) -> bool
    ensures { result ≡ is_word (shown token.now) }
{
    matches!(token.kind, TokenKind::Word)
}

/// The symbol of this octet.
#[tactic(auto, using(crate::proofs::Symbols::one_octet))]
pub fn is_symbol(token: &Token, octet: u8) -> bool
    ensures { result ≡ is_symbol octet (shown token.now) }
{
    matches!(token.kind, TokenKind::Symbol) && token.symbol == octet
}
