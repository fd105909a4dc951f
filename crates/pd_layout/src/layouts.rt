//! How a script stands in its text: the octets of its parts, with the comments and blank lines around them.
use crate::event_parts::{EventParts, TextPart};
use crate::single_line::parts_if_event_is_plain_single_line;
use crate::spans::{TextSpan, is_place_before_other, place_after_last_line};
use crate::trivia::{TriviaPart, append_comments_and_blank_lines_of_gap};
use pd_lex::{Lexed, Place, Token, TokenKind, next_token};
use pd_text::{Lines, MAX_OCTETS};
use std::alloc::{AllocError, Global};
use std::mem::replace;

/// How a header item or an event stands in its text.
#[derive(Drop)]
pub struct Layout {
    /// The comments and blank lines before it and within it, those within a call and its note left out.
    pub leading: Vec<TriviaPart>,
    /// Where its parts stand.
    pub parts: EventParts,
    /// The comments and blank lines within the note of a call.
    pub in_note: Vec<TriviaPart>,
    /// The comments after it on its line.
    pub trailing: Vec<TriviaPart>,
}

impl Layout {
    /// With these parts, and no comment within the note or after it.
    fn from_leading_and_parts(
        alloc: Global,
        leading: Vec<TriviaPart>,
        parts: EventParts,
    ) -> Layout {
        Layout {
            leading,
            parts,
            in_note: Vec::new(alloc),
            trailing: Vec::new(alloc),
        }
    }

    /// Reads the next token, with what is before it.
    fn add_token_with_trivia_before_unless_in_call(
        &mut self,
        lines: &Lines,
        token: &Token<'_>,
    ) -> Result<(), AllocError> {
        let gap = TextSpan {
            from: self.parts.event.to,
            to: token.from,
        };
        match self.parts.part_of_last_token() {
            TextPart::Call => {}
            TextPart::Note => append_comments_and_blank_lines_of_gap(
                &mut self.in_note,
                lines,
                gap,
            )?,
            _ => append_comments_and_blank_lines_of_gap(&mut self.leading, lines, gap)?,
        }
        let text_span = TextSpan {
            from: token.from,
            to: token.to,
        };
        self.parts
            .extend_part_by_token(symbol_octet_or_letter_for_word(token), text_span);
        Ok(())
    }
}

/// Reads the parts of a text one after the other.
#[derive(Drop)]
pub struct LayoutReader<'a> {
    lines: &'a Lines,
    /// Where the next part begins.
    next: Place,
    /// The comments and blank lines before it.
    leading: Vec<TriviaPart>,
}

impl<'a> LayoutReader<'a> {
    /// Before the first part of a text from a place on.
    ///
    /// # Errors
    /// `AllocError` where a growth is refused.
    pub fn new(
        alloc: Global,
        lines: &'a Lines,
        place: Place,
    ) -> Result<LayoutReader<'a>, AllocError> {
        let gap = span_to_next_token_or_text_end(lines, place);
        let mut leading = Vec::new(alloc);
        append_comments_and_blank_lines_of_gap(&mut leading, lines, gap)?;
        Ok(LayoutReader {
            lines,
            next: gap.to,
            leading,
        })
    }

    /// Reads the next part, which is an event; the place is that of the token after it, or the end of the text.
    ///
    /// # Errors
    /// `AllocError` where a growth is refused.
    pub fn read_event(&mut self, alloc: Global, until: Place) -> Result<Layout, AllocError> {
        match parts_if_event_is_plain_single_line(self.lines, self.next, until) {
            Some(parts) => {
                self.next = until;
                let leading = replace(&mut self.leading, Vec::new(alloc));
                Ok(Layout::from_leading_and_parts(alloc, leading, parts))
            }
            None => self.read_layout_by_tokens_until(alloc, until),
        }
    }

    /// Reads the next part, which is a header item.
    ///
    /// # Errors
    /// `AllocError` where a growth is refused.
    pub fn read_header_item(&mut self, alloc: Global) -> Result<Layout, AllocError> {
        let after = match next_token(self.lines, self.next) {
            Lexed::Token(token) => span_to_next_token_or_text_end(self.lines, token.to).to,
            Lexed::End | Lexed::Bad(_) => self.next,
        };
        self.read_layout_by_tokens_until(alloc, after)
    }

    /// Reads the tokens of the next part, which are before a place, that of the token after them.
    fn read_layout_by_tokens_until(
        &mut self,
        alloc: Global,
        until: Place,
    ) -> Result<Layout, AllocError> {
        let leading = replace(&mut self.leading, Vec::new(alloc));
        let mut place = replace(&mut self.next, until);
        let mut layout = Layout::from_leading_and_parts(
            alloc,
            leading,
            EventParts::empty_at(place),
        );
        // A text has no more tokens than octets.
        for _ in 0..MAX_OCTETS {
            match next_token(self.lines, place) {
                Lexed::Token(token) if is_place_before_other(token.from, until) => {
                    layout.add_token_with_trivia_before_unless_in_call(self.lines, &token)?;
                    place = token.to;
                }
                _ => break,
            }
        }
        let gap = TextSpan {
            from: place,
            to: until,
        };
        self.split_trivia_into_trailing_and_leading(&mut layout, gap)?;
        Ok(layout)
    }

    /// The comments and blank lines after the last part.
    pub fn into_remaining_trivia(self) -> Vec<TriviaPart> {
        self.leading
    }

    /// Reads what is after a part: what begins in its line stays there, where no further token is in that line.
    fn split_trivia_into_trailing_and_leading(
        &mut self,
        part: &mut Layout,
        gap: TextSpan,
    ) -> Result<(), AllocError> {
        let is_last = gap.to.line > gap.from.line;
        let mut pieces = Vec::new(*self.leading.allocator());
        append_comments_and_blank_lines_of_gap(&mut pieces, self.lines, gap)?;
        for piece in &pieces {
            match piece {
                TriviaPart::Comment(text_span) if is_last && text_span.from.line == gap.from.line =>
                    {
                        part.trailing.push(*piece)?;
                    }
                _ => self.leading.push(*piece)?,
            }
        }
        Ok(())
    }
}

/// From a place to the next token, or to the end of the text.
fn span_to_next_token_or_text_end(lines: &Lines, place: Place) -> TextSpan {
    let to = match next_token(lines, place) {
        Lexed::Token(token) => token.from,
        Lexed::End | Lexed::Bad(_) => place_after_last_line(lines),
    };
    TextSpan { from: place, to }
}

/// The octet by which a token is read: a symbol's octet, a letter of a word, 0 of any other.
fn symbol_octet_or_letter_for_word(token: &Token<'_>) -> u8 {
    match token.kind {
        TokenKind::Symbol => token.symbol,
        TokenKind::Word => b'a',
        _ => 0,
    }
}
