//! Taking the next token for what it is.
ghost use Rattle.std.specs.Prelude.{◌≡◌, Ok, Err, if◌then◌else◌};
ghost use Rattle.pd_script.specs.declared.parse_error.ParseError.TheVariants.{Syntax};
ghost use Rattle.pd_script.specs.Items.{is_small};
ghost use Rattle.pd_script.specs.TokenReading.{symbol_at, int_at, dots_at};
ghost use Rattle.pd_script.specs.PacketReading.{int_from_at, int_of_at, named_at, letters_at, option_name_at};
ghost use Rattle.pd_script.specs.EventReading.{hex_at, num_at, num_from_at, command_at, code_at, function_at, error_at};
ghost use Rattle.pd_script.specs.Cursor.{Leaves, Moves};

use crate::calls::{ErrorName, Function};
use crate::cursor::Cursor;
use crate::names::{
    OptionName, error_by_name_or_unknown, find_option_by_name, function_by_name_or_unknown,
};
use crate::numbers::{TIME_LIMIT, saturated_hex_number, saturated_microseconds_of_seconds};
use crate::packets::{PacketFlags, are_flag_letters};
use crate::parse_error::ParseError;
use crate::script_events::Action;
use pd_lex::{Lexed, Token, TokenKind};

/// These fields of the next token, if it is of this kind; else the method ends at a fault of syntax.
macro_rules! next_token {
    ($cursor:expr, $kind:pat $(, $field:ident)*) => {
        match *$cursor.peek() {
            Lexed::Token(Token { kind: $kind, $($field,)* .. }) => ($($field),*),
            _ => return Err(ParseError::Syntax),
        }
    };
}

/// A number of the grammar, of which none is above 4,294,967,295.
#[inline(always)]
fn u32_or_syntax_error(number: u64) -> Result<u32, ParseError>
    ensures { result ≡ (if is_small number then Ok number else Err Syntax) }
{
    let Ok(number) = u32::try_from(number) else {
        return Err(ParseError::Syntax);
    };
    Ok(number)
}

impl<'a> Cursor<'a> {
    /// Takes a symbol, and answers its line.
    ///
    /// # Errors
    /// `Syntax` where the next token isn't this symbol, which isn't taken then.
    #[tactic(auto, using(crate::proofs::Symbols::one_octet), unfolding(pd_lex::specs::Lexing::lexeme_of))]
    pub fn take_this_symbol_giving_line(&mut self, octet: u8) -> Result<usize, ParseError>
        ensures { Leaves result self.new (symbol_at octet self.old) }
    {
        let (symbol, from) = next_token!(self, TokenKind::Symbol, symbol, from);
        if symbol != octet {
            return Err(ParseError::Syntax);
        }
        self.advance();
        Ok(from.line)
    }

    /// Takes a whole number.
    ///
    /// # Errors
    /// `Syntax` where the next token is no whole number, or one above 4,294,967,295. It isn't taken then.
    #[tactic(auto, unfolding(pd_lex::specs::Lexing::lexeme_of))]
    pub fn take_int(&mut self) -> Result<u32, ParseError>
        ensures { Leaves result self.new (int_at self.old) }
    {
        let number = u32_or_syntax_error(next_token!(self, TokenKind::Int, number))?;
        self.advance();
        Ok(number)
    }

    /// Takes a whole number that is at least another.
    ///
    /// # Errors
    /// `Syntax` where the next token is no whole number, or one above 4,294,967,295 or below the least. It isn't taken then.
    #[tactic(auto, unfolding(pd_lex::specs::Lexing::lexeme_of))]
    pub fn take_int_at_least(&mut self, least: u32) -> Result<u32, ParseError>
        ensures { Leaves result self.new (int_from_at least self.old) }
    {
        let number = u32_or_syntax_error(next_token!(self, TokenKind::Int, number))?;
        if number < least {
            return Err(ParseError::Syntax);
        }
        self.advance();
        Ok(number)
    }

    /// Takes a whole number that is just this one.
    ///
    /// # Errors
    /// `Syntax` where the next token isn't a whole number with this value. It isn't taken then.
    #[tactic(auto, unfolding(pd_lex::specs::Lexing::lexeme_of))]
    pub fn take_int_equal_to(&mut self, wanted: u32) -> Result<u32, ParseError>
        ensures { Leaves result self.new (int_of_at wanted self.old) }
    {
        let number = u32_or_syntax_error(next_token!(self, TokenKind::Int, number))?;
        if number != wanted {
            return Err(ParseError::Syntax);
        }
        self.advance();
        Ok(number)
    }

    /// Takes a hexadecimal number.
    ///
    /// # Errors
    /// `Syntax` where the next token is no hexadecimal number, or one above 4,294,967,295. It isn't taken then.
    #[tactic(auto, unfolding(pd_lex::specs::Lexing::lexeme_of))]
    pub fn take_hex(&mut self) -> Result<u32, ParseError>
        ensures { Leaves result self.new (hex_at self.old) }
    {
        let text = next_token!(self, TokenKind::Hex, text);
        let number = u32_or_syntax_error(saturated_hex_number(text))?;
        self.advance();
        Ok(number)
    }

    /// Takes a number of microseconds, and answers its line with it.
    ///
    /// # Errors
    /// `Syntax` where the next token is no number, or one of 4,294,967,296 seconds or more. It isn't taken then.
    #[tactic(auto, unfolding(pd_lex::specs::Lexing::lexeme_of))]
    #[inline(always)]
    pub fn take_line_and_microseconds(&mut self) -> Result<(usize, u64), ParseError>
        ensures { Leaves result self.new (num_at self.old) }
    {
        let (text, from) = next_token!(self, TokenKind::Int | TokenKind::Decimal, text, from);
        let time = saturated_microseconds_of_seconds(text);
        if time >= TIME_LIMIT {
            return Err(ParseError::Syntax);
        }
        self.advance();
        Ok((from.line, time))
    }

    /// Takes a number of at least so many microseconds.
    ///
    /// # Errors
    /// `Syntax` where the next token is no number, or one of 4,294,967,296 seconds or more, or below the least. It isn't
    /// taken then.
    #[tactic(auto, unfolding(pd_lex::specs::Lexing::lexeme_of))]
    pub fn take_microseconds_at_least(&mut self, least: u64) -> Result<u64, ParseError>
        ensures { Leaves result self.new (num_from_at least self.old) }
    {
        let text = next_token!(self, TokenKind::Int | TokenKind::Decimal, text);
        let time = saturated_microseconds_of_seconds(text);
        if time >= TIME_LIMIT || time < least {
            return Err(ParseError::Syntax);
        }
        self.advance();
        Ok(time)
    }

    /// Takes the letters of flags.
    ///
    /// # Errors
    /// `Syntax` where the next token is no word, or has another octet than `F`, `S`, `R`, `P`, `U`, `E`, `W` and `C`. It
    /// isn't taken then.
    #[tactic(auto, unfolding(pd_lex::specs::Lexing::lexeme_of))]
    pub fn take_flag_letters(&mut self) -> Result<PacketFlags, ParseError>
        ensures { Leaves result self.new (letters_at self.old) }
    {
        let text = next_token!(self, TokenKind::Word, text);
        if !are_flag_letters(text) {
            return Err(ParseError::Syntax);
        }
        self.advance();
        Ok(PacketFlags::of_letters_without_ack(text))
    }

    /// Takes the name of a TCP option.
    ///
    /// # Errors
    /// `Syntax` where the next token is no word that names an option. It isn't taken then.
    #[tactic(auto, unfolding(pd_lex::specs::Lexing::lexeme_of))]
    pub fn take_option_name(&mut self) -> Result<OptionName, ParseError>
        ensures { Leaves result self.new (option_name_at self.old) }
    {
        let text = next_token!(self, TokenKind::Word, text);
        let Some(name) = find_option_by_name(text) else {
            return Err(ParseError::Syntax);
        };
        self.advance();
        Ok(name)
    }

    /// Takes the name of a call.
    ///
    /// # Errors
    /// `Syntax` where the next token is no word. It isn't taken then.
    #[tactic(auto, unfolding(pd_lex::specs::Lexing::lexeme_of))]
    #[inline(always)]
    pub fn take_function_name_or_unknown(&mut self) -> Result<Function, ParseError>
        ensures { Leaves result self.new (function_at self.old) }
    {
        let text = next_token!(self, TokenKind::Word, text);
        self.advance();
        Ok(function_by_name_or_unknown(text))
    }

    /// Takes the name of an error.
    ///
    /// # Errors
    /// `Syntax` where the next token is no word. It isn't taken then.
    #[tactic(auto, unfolding(pd_lex::specs::Lexing::lexeme_of))]
    pub fn take_error_name_or_unknown(&mut self) -> Result<ErrorName, ParseError>
        ensures { Leaves result self.new (error_at self.old) }
    {
        let text = next_token!(self, TokenKind::Word, text);
        self.advance();
        Ok(error_by_name_or_unknown(text))
    }

    /// Takes three points.
    ///
    /// # Errors
    /// `Syntax` where the next token isn't three points. It isn't taken then.
    #[tactic(auto, unfolding(pd_lex::specs::Lexing::lexeme_of))]
    pub fn take_dots(&mut self) -> Result<(), ParseError>
        ensures { Leaves result self.new (dots_at self.old) }
    {
        next_token!(self, TokenKind::Dots);
        self.advance();
        Ok(())
    }

    /// Takes this word.
    ///
    /// # Errors
    /// `Syntax` where the next token isn't this word. It isn't taken then.
    #[tactic(auto, unfolding(pd_lex::specs::Lexing::lexeme_of))]
    pub fn take_this_word(&mut self, name: &[u8]) -> Result<(), ParseError>
        ensures { Leaves result self.new (named_at name.now self.old) }
    {
        let text = next_token!(self, TokenKind::Word, text);
        if text != name {
            return Err(ParseError::Syntax);
        }
        self.advance();
        Ok(())
    }

    /// Takes a shell command in the place of an action.
    ///
    /// # Errors
    /// `Syntax` where the next token is no shell command. It isn't taken then.
    #[tactic(auto, unfolding(pd_lex::specs::Lexing::lexeme_of))]
    pub fn take_command_into_action(&mut self, action: &mut Action) -> Result<(), ParseError>
        ensures { Moves result action.new self.new (command_at self.old) }
    {
        next_token!(self, TokenKind::Cmd);
        self.advance();
        *action = Action::Command;
        Ok(())
    }

    /// Takes code in the place of an action.
    ///
    /// # Errors
    /// `Syntax` where the next token isn't code. It isn't taken then.
    #[tactic(auto, unfolding(pd_lex::specs::Lexing::lexeme_of))]
    pub fn take_code_into_action(&mut self, action: &mut Action) -> Result<(), ParseError>
        ensures { Moves result action.new self.new (code_at self.old) }
    {
        next_token!(self, TokenKind::Code);
        self.advance();
        *action = Action::Code;
        Ok(())
    }
}
