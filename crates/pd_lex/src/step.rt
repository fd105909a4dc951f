//! One step over a text: the piece at a place.
ghost use Rattle.std.specs.Prelude.{◌≡◌, ◌+◌, length};
ghost use Rattle.pd_lex.specs.Places.{octets_from, IsPlace};
ghost use Rattle.pd_lex.specs.Pieces.{rest_after_closing};
ghost use Rattle.pd_lex.specs.Scanned.{IsClosed, IsClosing, IsLeftInLine, IsStep};

use crate::closing::rest_after_closing;
use crate::places::rest_of_line;
use crate::scan::{Opener, Piece, piece_at};
use crate::token::{Place, TokenKind};
use pd_text::Lines;

/// The piece at a place, and the place after it.
#[derive(Clone, Copy)]
pub enum LexStep<'a> {
    /// A blank or a comment.
    Gap(Place),
    /// A token, with its octets if its kind stays in its line.
    Token(TokenKind, &'a [u8], Place),
    /// Something that begins no token.
    Stray,
}

/// The place after the end of what was opened before a place, if it ends.
fn place_after_closing(lines: &Lines, opener: Opener, place: Place) -> Option<Place>
    requires { IsPlace lines.now place }
    ensures { IsClosed lines.now (rest_after_closing opener (octets_from lines.now place)) result }
{
    let mut at = place.at;
    for line in place.line..lines.len() + 1 {
        let rest = rest_of_line(lines, Place { line, at })?;
        if let Some(after) = rest_after_closing(opener, rest) {
            return Some(Place {
                line,
                at: at + (rest.len() - after.len()),
            });
        }
        at = 0;
    }
    None
}

/// The step over what was opened, to the place after its end.
fn gap_or_token_of_closed_piece<'a>(opener: Opener, after: Place) -> LexStep<'a>
    ensures { IsClosing opener after result }
{
    match opener {
        Opener::Comment => LexStep::Gap(after),
        Opener::Quote => LexStep::Token(TokenKind::Str, &[], after),
        Opener::Backquote => LexStep::Token(TokenKind::Cmd, &[], after),
        Opener::Brace => LexStep::Token(TokenKind::Code, &[], after),
    }
}

/// The step at a place within a line, of which this much is left.
pub fn step_at<'a>(lines: &'a Lines, place: Place, rest: &'a [u8]) -> LexStep<'a>
    requires { IsLeftInLine lines.now place rest.now }
    ensures { IsStep lines.now place result }
{
    let Place { line, at } = place;
    match piece_at(rest) {
        Piece::Blank(n) => LexStep::Gap(Place { line, at: at + n }),
        Piece::Whole(kind, n) => LexStep::Token(kind, &rest[..n], Place { line, at: at + n }),
        Piece::Open(opener) => {
            let inside = Place {
                line,
                at: at + opener.len(),
            };
            match place_after_closing(lines, opener, inside) {
                Some(after) => gap_or_token_of_closed_piece(opener, after),
                None => LexStep::Stray,
            }
        }
        Piece::Stray => LexStep::Stray,
    }
}
