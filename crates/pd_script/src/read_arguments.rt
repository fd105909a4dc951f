//! Reading the arguments of a call.
ghost use Rattle.std.specs.Prelude.{◌≡◌, []};
ghost use Rattle.pd_script.specs.EventReading.{arguments_at};
ghost use Rattle.pd_script.specs.ArgumentReading.{is_between, is_last, note_move};
ghost use Rattle.pd_script.specs.Reader.{machine_at};
ghost use Rattle.pd_script.specs.Cursor.{Leaves, SkipsNote};

use crate::argument_builder::{ArgumentBuilder, BracketContext};
use crate::brackets::OpenPairs;
use crate::calls::Arguments;
use crate::cursor::Cursor;
use crate::parse_error::ParseError;
use std::alloc::Global;

impl<'a> Cursor<'a> {
    /// Whether it is between two arguments or after the last.
    fn is_at_argument_end(&self, inside: &BracketContext) -> bool
        ensures { result ≡ is_between inside.now self.now }
    {
        inside.pairs.is_empty() && (self.is_symbol(b')') || self.is_symbol(b','))
    }

    /// Takes the arguments of a call and the bracket that ends them.
    ///
    /// # Errors
    /// `Syntax` where an argument is empty or none goes on, and the cursor is there; `OutOfMemory` where a growth is
    /// refused.
    #[inline(always)]
    pub fn take_arguments_and_closing_bracket(
        &mut self,
        alloc: Global,
    ) -> Result<Arguments, ParseError>
        ensures { Leaves result self.new (arguments_at self.old) }
    {
        let mut arguments = Arguments::new(alloc);
        if self.is_symbol(b')') {
            self.advance();
            return Ok(arguments);
        }
        let mut inside = BracketContext::at_start();
        'tokens: loop {
            if !self.is_at_argument_end(&inside) {
                self.take_argument_token_into_context(&mut inside)?;
                continue;
            }
            if inside.builder.is_empty() {
                return Err(ParseError::Syntax);
            }
            arguments.push(inside.builder.argument())?;
            if self.is_symbol(b')') {
                self.advance();
                return Ok(arguments);
            }
            self.advance();
            // Between two arguments no pair is open.
            inside.builder = ArgumentBuilder::Empty;
        }
    }

    /// Whether the bracket that ends a note is here.
    fn is_at_note_end(&self, pairs: &OpenPairs) -> bool
        ensures { result ≡ is_last pairs.now self.now }
    {
        pairs.is_empty() && self.is_symbol(b')')
    }

    /// Goes over what is in a note, and the bracket that ends it.
    ///
    /// # Errors
    /// `Syntax` where no note goes on; the cursor is there.
    pub fn skip_note_body_and_closing_bracket(&mut self) -> Result<(), ParseError>
        ensures { SkipsNote result self.new (machine_at note_move [] self.old) }
    {
        let mut pairs = OpenPairs::new();
        'tokens: loop {
            if self.is_at_note_end(&pairs) {
                self.advance();
                return Ok(());
            }
            pairs = self.take_note_token_giving_open_pairs(pairs)?;
        }
    }
}
