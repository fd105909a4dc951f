//! A cursor over the tokens of a text.
ghost use Rattle.std.specs.Prelude.{◌≡◌};
ghost use Rattle.pd_lex.specs.Lexing.{items};
ghost use Rattle.pd_script.specs.ArgumentReading.{part_at, note_part_at, after_token};
ghost use Rattle.pd_script.specs.EventReading.{next_line};
ghost use Rattle.pd_script.specs.Next.{place_of_next_token_or_end};
ghost use Rattle.pd_script.specs.Cursor.{IsPeeked, Leaves, Moves};

use crate::argument_builder::BracketContext;
use crate::brackets::{MAX_DEPTH, OpenPairs};
use crate::parse_error::ParseError;
use pd_lex::{
    Lexed, Lookahead, Place, advance_lookahead_from_place_in_its_line,
    next_token_and_octets_of_its_end_line,
};
use pd_text::Lines;
use std::marker::Model;

/// A text from a place on, with its next token.
#[derive(Drop)]
pub struct Cursor<'a> {
    /// The text.
    lines: &'a Lines,
    /// The next item in it.
    lookahead: Lookahead<'a>,
}

impl<'a> Model for Cursor<'a> {
    ghost use Rattle.std.specs.Prelude.{List};
    ghost use Rattle.pd_lex.specs.Tokens.{Item};
    ghost use Rattle.pd_script.specs.Cursor.{left};
    ghost use Rattle.pd_lex.specs.Next.{HasText, HasLineAfter};

    ghost Value = { List Item };

    ghost view = { λ c. left c.lines.now c.lookahead.next };

    ghost invariant = { λ c. HasText c.lines.now c.lookahead.next × HasLineAfter c.lines.now c.lookahead.next c.lookahead.line.now };
}

impl<'a> Cursor<'a> {
    /// A cursor at this place of a text.
    pub fn at(lines: &'a Lines, place: Place) -> Cursor<'a>
        ensures { result ≡ items lines.now place }
    {
        Cursor {
            lines,
            lookahead: next_token_and_octets_of_its_end_line(lines, place),
        }
    }

    /// The line in which the next token, the end or the bad place begins.
    #[tactic(auto, unfolding(pd_lex::specs::Lexing::lexeme_of))]
    pub fn line(&self) -> usize
        ensures { result ≡ next_line self.now }
    {
        match self.lookahead.next {
            Lexed::Token(token) => token.from.line,
            Lexed::End => self.lines.len().max(1),
            Lexed::Bad(line) => line,
        }
    }

    /// Where the next token or the end stands: the end after the last line.
    #[tactic(auto, unfolding(pd_lex::specs::Lexing::lexeme_of))]
    pub fn place_of_next_token_or_end(&self) -> Place
        ensures { result ≡ place_of_next_token_or_end self.now }
    {
        match self.lookahead.next {
            Lexed::Token(token) => token.from,
            Lexed::End => Place {
                line: self.lines.len().max(1) + 1,
                at: 0,
            },
            Lexed::Bad(line) => Place { line, at: 0 },
        }
    }

    /// Goes over the next token; at the end and at a bad place it stays.
    #[inline(never)]
    pub fn advance(&mut self)
        ensures { self.new ≡ after_token self.old }
    {
        self.advance_inline();
    }

    /// The same, put in place: for the loop over the tokens of arguments.
    #[inline(always)]
    fn advance_inline(&mut self)
        ensures { self.new ≡ after_token self.old }
    {
        if let Lexed::Token(token) = self.lookahead.next {
            advance_lookahead_from_place_in_its_line(self.lines, token.to, &mut self.lookahead);
        }
    }

    /// The next item: a token, the end or a bad place.
    #[inline(always)]
    pub fn peek(&self) -> &Lexed<'a>
        ensures { IsPeeked result.now self.now }
    {
        &self.lookahead.next
    }
}

/// Parts of arguments and notes.
impl<'a> Cursor<'a> {
    /// Takes a token that is a part of a note.
    ///
    /// # Errors
    /// `Syntax` where no token comes next, or its bracket doesn't go with the open pairs; the cursor stays there.
    pub fn take_note_token_giving_open_pairs(
        &mut self,
        pairs: OpenPairs,
    ) -> Result<OpenPairs, ParseError>
        ensures { Leaves result self.new (note_part_at pairs self.old) }
    {
        let Lexed::Token(token) = self.lookahead.next else {
            return Err(ParseError::Syntax);
        };
        let mut pairs = pairs;
        // The note's own brackets are a pair, too.
        pairs.update_by_token_within_depth(&token, MAX_DEPTH - 1)?;
        self.advance();
        Ok(pairs)
    }

    /// Takes a token that is a part of an argument.
    ///
    /// # Errors
    /// `Syntax` where no token comes next, or its bracket doesn't go with the open pairs; the cursor stays there.
    #[inline(always)]
    pub fn take_argument_token_into_context(
        &mut self,
        inside: &mut BracketContext,
    ) -> Result<(), ParseError>
        ensures { Moves result inside.new self.new (part_at inside.old self.old) }
    {
        let Lexed::Token(token) = &self.lookahead.next else {
            return Err(ParseError::Syntax);
        };
        inside.pairs.update_by_token_within_depth(token, MAX_DEPTH)?;
        inside.builder.add_token(token);
        self.advance_inline();
        Ok(())
    }
}
