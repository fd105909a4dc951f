//! Reading the parts of an event.
ghost use Rattle.std.specs.Prelude.{◌≡◌};
ghost use Rattle.pd_script.specs.EventReading.{time_at, absolute_at, relative_at, maybe_blocking_end_at, note_at, expected_result_at, call_at, call_action_at, inbound_at, outbound_at, action_at, event_at};
ghost use Rattle.pd_script.specs.Cursor.{Leaves, Moves};

use crate::calls::{Call, ExpectedResult};
use crate::cursor::Cursor;
use crate::parse_error::ParseError;
use crate::script_events::{Action, Event};
use crate::timing::{BlockingEnd, Time};
use pd_lex::{Lexed, Token, TokenKind};
use std::alloc::Global;

impl<'a> Cursor<'a> {
    /// Takes a time, and answers the line of its first token with it.
    #[tactic(auto, using(crate::proofs::Symbols::one_octet), unfolding(crate::specs::EventReading::time_at, pd_lex::specs::Lexing::lexeme_of))]
    #[inline(always)]
    fn take_line_and_time(&mut self) -> Result<(usize, Time), ParseError>
        ensures { Leaves result self.new (time_at self.old) }
    {
        match self.peek() {
            Lexed::Token(
                Token {
                    kind: TokenKind::Symbol,
                    symbol: b'*',
                    ..
                },
            ) => Ok((self.take_this_symbol_giving_line(b'*')?, Time::Any)),
            Lexed::Token(
                Token {
                    kind: TokenKind::Symbol,
                    symbol: b'+',
                    ..
                },
            ) => self.take_line_and_relative_time_or_range(),
            _ => self.take_line_and_absolute_time_or_range(),
        }
    }

    fn take_line_and_absolute_time_or_range(&mut self) -> Result<(usize, Time), ParseError>
        ensures { Leaves result self.new (absolute_at self.old) }
    {
        let (line, first) = self.take_line_and_microseconds()?;
        if !self.is_symbol(b'~') {
            return Ok((line, Time::Absolute(first)));
        }
        self.take_this_symbol_giving_line(b'~')?;
        let second = self.take_microseconds_at_least(first)?;
        Ok((line, Time::AbsoluteRange(first, second)))
    }

    #[inline(always)]
    fn take_line_and_relative_time_or_range(&mut self) -> Result<(usize, Time), ParseError>
        ensures { Leaves result self.new (relative_at self.old) }
    {
        let line = self.take_this_symbol_giving_line(b'+')?;
        let (_, first) = self.take_line_and_microseconds()?;
        if !self.is_symbol(b'~') {
            return Ok((line, Time::Relative(first)));
        }
        self.take_this_symbol_giving_line(b'~')?;
        if self.is_symbol(b'+') {
            self.take_this_symbol_giving_line(b'+')?;
        }
        let second = self.take_microseconds_at_least(first)?;
        Ok((line, Time::RelativeRange(first, second)))
    }

    /// Takes the end of a blocking call, if one is written.
    #[tactic(auto, unfolding(crate::specs::EventReading::maybe_blocking_end_at))]
    #[inline(always)]
    fn take_blocking_end_if_any(&mut self) -> Result<Option<BlockingEnd>, ParseError>
        ensures { Leaves result self.new (maybe_blocking_end_at self.old) }
    {
        if !self.is_dots() {
            return Ok(None);
        }
        self.take_dots()?;
        if self.is_symbol(b'+') {
            self.take_this_symbol_giving_line(b'+')?;
            let (_, microseconds) = self.take_line_and_microseconds()?;
            return Ok(Some(BlockingEnd::Relative(microseconds)));
        }
        let (_, microseconds) = self.take_line_and_microseconds()?;
        Ok(Some(BlockingEnd::Absolute(microseconds)))
    }

    /// Takes the result of a call.
    #[tactic(auto, unfolding(crate::specs::EventReading::expected_result_at))]
    #[inline(always)]
    fn take_expected_int_hex_or_negative_result(&mut self) -> Result<ExpectedResult, ParseError>
        ensures { Leaves result self.new (expected_result_at self.old) }
    {
        if self.is_next_int_within_u32() {
            return Ok(ExpectedResult::Int(self.take_int()?));
        }
        if self.is_next_hex_within_u32() {
            return Ok(ExpectedResult::Hex(self.take_hex()?));
        }
        self.take_this_symbol_giving_line(b'-')?;
        let number = self.take_int()?;
        if !self.is_word() {
            return Ok(ExpectedResult::Negative(number, None));
        }
        let name = self.take_error_name_or_unknown()?;
        Ok(ExpectedResult::Negative(number, Some(name)))
    }

    /// Goes over a note.
    #[tactic(auto, unfolding(crate::specs::EventReading::note_at))]
    fn skip_note_or_syntax_error(&mut self) -> Result<(), ParseError>
        ensures { Leaves result self.new (note_at self.old) }
    {
        self.take_this_symbol_giving_line(b'(')?;
        self.skip_note_body_and_closing_bracket()
    }

    #[tactic(auto, unfolding(crate::specs::EventReading::call_at))]
    #[inline(always)]
    fn take_call(&mut self, alloc: Global) -> Result<Call, ParseError>
        ensures { Leaves result self.new (call_at self.old) }
    {
        let function = self.take_function_name_or_unknown()?;
        self.take_this_symbol_giving_line(b'(')?;
        let arguments = self.take_arguments_and_closing_bracket(alloc)?;
        self.take_this_symbol_giving_line(b'=')?;
        let result = self.take_expected_int_hex_or_negative_result()?;
        if self.is_symbol(b'(') {
            self.skip_note_or_syntax_error()?;
        }
        Ok(Call {
            function,
            arguments,
            result,
        })
    }

    /// Takes a call in the place of an action.
    #[inline(always)]
    fn take_call_into_action(
        &mut self,
        alloc: Global,
        action: &mut Action,
    ) -> Result<(), ParseError>
        ensures { Moves result action.new self.new (call_action_at self.old) }
    {
        *action = Action::Call(self.take_call(alloc)?);
        Ok(())
    }

    /// Takes a packet that arrives in the place of an action.
    #[inline(never)]
    fn take_inbound_packet_into_action(
        &mut self,
        alloc: Global,
        action: &mut Action,
    ) -> Result<(), ParseError>
        ensures { Moves result action.new self.new (inbound_at self.old) }
    {
        self.take_this_symbol_giving_line(b'<')?;
        *action = Action::Inbound(self.take_packet(alloc, true)?);
        Ok(())
    }

    /// Takes a packet that leaves in the place of an action.
    #[inline(never)]
    fn take_outbound_packet_into_action(
        &mut self,
        alloc: Global,
        action: &mut Action,
    ) -> Result<(), ParseError>
        ensures { Moves result action.new self.new (outbound_at self.old) }
    {
        self.take_this_symbol_giving_line(b'>')?;
        *action = Action::Outbound(self.take_packet(alloc, false)?);
        Ok(())
    }

    /// Takes an action in the place of another.
    #[tactic(auto, using(crate::proofs::Symbols::one_octet), unfolding(crate::specs::EventReading::action_at, pd_lex::specs::Lexing::lexeme_of))]
    #[inline(always)]
    fn take_action_by_next_token(
        &mut self,
        alloc: Global,
        action: &mut Action,
    ) -> Result<(), ParseError>
        ensures { Moves result action.new self.new (action_at self.old) }
    {
        match self.peek() {
            Lexed::Token(
                Token {
                    kind: TokenKind::Cmd,
                    ..
                },
            ) => self.take_command_into_action(action),
            Lexed::Token(
                Token {
                    kind: TokenKind::Code,
                    ..
                },
            ) => self.take_code_into_action(action),
            Lexed::Token(
                Token {
                    kind: TokenKind::Symbol,
                    symbol: b'<',
                    ..
                },
            ) => self.take_inbound_packet_into_action(alloc, action),
            Lexed::Token(
                Token {
                    kind: TokenKind::Symbol,
                    symbol: b'>',
                    ..
                },
            ) => self.take_outbound_packet_into_action(alloc, action),
            _ => self.take_call_into_action(alloc, action),
        }
    }

    /// Takes an event in the place of another.
    ///
    /// # Errors
    /// `Syntax` where no event goes on, and the cursor is there; `OutOfMemory` where a growth is refused.
    #[tactic(auto, unfolding(crate::specs::EventReading::event_at))]
    #[inline(always)]
    pub fn take_event_into(&mut self, alloc: Global, event: &mut Event) -> Result<(), ParseError>
        ensures { Moves result event.new self.new (event_at self.old) }
    {
        let (line, time) = self.take_line_and_time()?;
        event.line = line;
        event.time = time;
        event.blocking_end = self.take_blocking_end_if_any()?;
        self.take_action_by_next_token(alloc, &mut event.action)
    }
}
