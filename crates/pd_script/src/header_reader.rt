//! Reading the header of a script.
ghost use Rattle.std.specs.Prelude.{◌≡◌, false, IfOk, IfSome, IfNone};
ghost use Rattle.pd_lex.specs.Places.{first_place};
ghost use Rattle.pd_lex.specs.Lexing.{items};
ghost use Rattle.pd_script.specs.Items.{is_header, next_is};
ghost use Rattle.pd_script.specs.Cursor.{given, IsItemAt, shown};
ghost use Rattle.pd_script.specs.Header.{header_item, HasEnd};
ghost use Rattle.pd_script.specs.Script.{header_in, after_header};

use crate::script_header::{Header, HeaderItem, HeaderKind};
use pd_lex::{Lexed, Place, Token, TokenKind, next_token};
use pd_text::Lines;
use std::alloc::{AllocError, Global};

/// The header item that a token is.
fn header_item_of_token_if_any(token: &Token) -> Option<HeaderItem>
    ensures { result ≡ given is_header (λ t. header_item t) (shown token.now) }
{
    let kind = match token.kind {
        TokenKind::Opt => HeaderKind::tolerance_or_other_option(token.text),
        TokenKind::Cmd => HeaderKind::Command,
        _ => return None,
    };
    Some(HeaderItem {
        line: token.from.line,
        kind,
    })
}

/// The header item at a place of a text and the place after it, if one is there.
fn header_item_and_next_place_if_any(lines: &Lines, place: Place) -> Option<(HeaderItem, Place)>
    ensures some { IfSome result (λ found. IsItemAt lines.now place found.0 found.1) }
    ensures none { IfNone result (next_is is_header (items lines.now place) ≡ false) }
{
    lines.law_invariant();
    match next_token(lines, place) {
        Lexed::Token(token) => match header_item_of_token_if_any(&token) {
            Some(item) => Some((item, token.to)),
            None => None,
        },
        Lexed::End => None,
        Lexed::Bad(_) => None,
    }
}

/// Reads the header of a text: the options and commands that it begins with.
///
/// # Errors
/// `AllocError` where a growth is refused.
pub fn read_header(alloc: Global, lines: &Lines) -> Result<Header, AllocError>
    ensures header { IfOk result (λ header. header ≡ header_in (items lines.now first_place)) }
    ensures end { IfOk result (HasEnd (items lines.now first_place)) }
    ensures after { IfOk result (λ header. items lines.now header.end ≡ after_header (items lines.now first_place)) }
{
    let mut header = Header::new(alloc);
    'items: while let Some((item, after)) = header_item_and_next_place_if_any(lines, header.end()) {
        header.push(item, after)?;
    }
    Ok(header)
}
