//! Symbols outside of brackets.
ghost use Rattle.std.specs.Prelude.{◌≡◌, ◌==◌, ◌&&◌, ◌+◌, ◌^◌, ◌<◌};
ghost use Rattle.pd_layout.specs.Canonical.{depth_after_token, first_outside};
ghost use Rattle.pd_lex.specs.Lexing.{items};
ghost use Rattle.pd_script.specs.Cursor.{shown};
ghost use Rattle.pd_script.specs.Items.{is_symbol};

use pd_lex::{
    Lexed, Place, Token, TokenKind, advance_lookahead_from_place_in_its_line,
    next_token_and_octets_of_its_end_line,
};
use pd_text::Lines;

/// Where the first of the tokens from a place on stands that is the symbol of an octet and leaves no bracket open.
pub fn find_place_of_symbol_outside_brackets(lines: &Lines, from: Place, octet: u8) -> Option<Place>
    ensures { result ≡ first_outside (is_symbol octet) 0 (items lines.now from) }
{
    // A look at a line shows that a text has few octets, and so few brackets.
    let _first = lines.line(1);
    let mut lookahead = next_token_and_octets_of_its_end_line(lines, from);
    let mut depth = 0;
    'tokens: loop {
        let Lexed::Token(token) = lookahead.next else {
            return None;
        };
        depth = depth_after_token(depth, &token);
        if is_symbol_outside(depth, &token, octet) {
            return Some(token.from);
        }
        advance_lookahead_from_place_in_its_line(lines, token.to, &mut lookahead);
    }
}

/// How many brackets are open after a token.
fn depth_after_token(depth: usize, token: &Token<'_>) -> usize
    requires { depth + 1 < 2 ^ 64 }
    ensures { result ≡ depth_after_token depth (shown token.now) }
{
    if is_symbol_with_octet(token, b'(')
        || is_symbol_with_octet(token, b'[')
        || is_symbol_with_octet(token, b'{')
    {
        depth + 1
    } else if is_symbol_with_octet(token, b')')
        || is_symbol_with_octet(token, b']')
        || is_symbol_with_octet(token, b'}')
    {
        depth.saturating_sub(1)
    } else {
        depth
    }
}

/// Whether a token is the symbol of an octet and is outside of brackets, of which so many are open after it.
fn is_symbol_outside(depth: usize, token: &Token<'_>, octet: u8) -> bool
    ensures { result ≡ is_symbol octet (shown token.now) && depth == 0 }
{
    is_symbol_with_octet(token, octet) && depth == 0
}

/// The symbol of this octet.
fn is_symbol_with_octet(token: &Token<'_>, octet: u8) -> bool
    ensures { result ≡ is_symbol octet (shown token.now) }
{
    matches!(token.kind, TokenKind::Symbol) && token.symbol == octet
}
