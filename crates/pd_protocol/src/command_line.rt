//! The lines of commands.
ghost use Rattle.std.specs.Prelude.{◌≡◌, ◌&&◌, ℕ, Some, None, IfOk, if◌then◌else◌, map};
ghost use Rattle.pd_protocol.specs.Words.{words_of, is_count, number_of};
ghost use Rattle.pd_protocol.specs.CommandLines.{command_line_of, command_line_by, adds, edits, removes, sets, bad_if_arguments};
ghost use Rattle.pd_protocol.specs.NextCommand.{is_empty_line};

use crate::numbers::{parse_count_of_at_most_six_digits, parse_setting_number_boolean_or_word};
use pd_settings::Value;
use pd_text::Name;
use std::alloc::{AllocError, Global};

/// The greatest length of a command's line, in octets.
pub(crate) const MAX_COMMAND_LINE: usize = 256;

/// The line of a command. A count is the number of lines that follow.
#[derive(Drop)]
pub enum CommandLine {
    /// It has no words.
    Empty,
    /// It is no command.
    Bad,
    Add(Name, usize),
    /// The name, the first line, how many lines are removed, and the count.
    Edit(Name, usize, usize, usize),
    Remove(Name),
    Set(Name, Value),
    Show,
    Settle,
}

impl CommandLine {
    /// The command of a line.
    ///
    /// # Errors
    /// `AllocError` where a growth is refused.
    pub fn of_line(alloc: Global, line: &[u8]) -> Result<CommandLine, AllocError>
        ensures { IfOk result (λ command_line. command_line ≡ command_line_of line.now) }
    {
        if line.len() > MAX_COMMAND_LINE {
            return Ok(CommandLine::Bad);
        }
        let words = words(alloc, line)?;
        CommandLine::of_words(alloc, words.as_slice())
    }

    fn of_words(alloc: Global, words: &[&[u8]]) -> Result<CommandLine, AllocError>
        ensures { IfOk result (λ command_line. command_line ≡ command_line_by (map (λ w. w.now) words.now)) }
    {
        match words {
            [] => Ok(CommandLine::Empty),
            [first, rest @ ..] => {
                if *first == b"add".as_slice() {
                    return CommandLine::parse_add(alloc, rest);
                }
                if *first == b"edit".as_slice() {
                    return CommandLine::parse_edit(alloc, rest);
                }
                if *first == b"remove".as_slice() {
                    return CommandLine::parse_remove(alloc, rest);
                }
                if *first == b"set".as_slice() {
                    return CommandLine::parse_set(alloc, rest);
                }
                if *first == b"show".as_slice() {
                    return Ok(bad_if_arguments(CommandLine::Show, rest));
                }
                if *first == b"settle".as_slice() {
                    return Ok(bad_if_arguments(CommandLine::Settle, rest));
                }
                Ok(CommandLine::Bad)
            }
        }
    }

    fn parse_add(alloc: Global, words: &[&[u8]]) -> Result<CommandLine, AllocError>
        ensures { IfOk result (λ command_line. command_line ≡ adds (map (λ w. w.now) words.now)) }
    {
        match words {
            [name, lines] => match parse_count_of_at_most_six_digits(lines) {
                Some(lines) => Ok(CommandLine::Add(
                    copy_octets_as_unchecked_name(alloc, name)?,
                    lines,
                )),
                None => Ok(CommandLine::Bad),
            },
            _ => Ok(CommandLine::Bad),
        }
    }

    fn parse_edit(alloc: Global, words: &[&[u8]]) -> Result<CommandLine, AllocError>
        ensures { IfOk result (λ command_line. command_line ≡ edits (map (λ w. w.now) words.now)) }
    {
        match words {
            [name, from, remove, lines] => match parse_edit_numbers(from, remove, lines) {
                Some((from, remove, lines)) => {
                    Ok(CommandLine::Edit(
                        copy_octets_as_unchecked_name(alloc, name)?,
                        from,
                        remove,
                        lines,
                    ))
                }
                None => Ok(CommandLine::Bad),
            },
            _ => Ok(CommandLine::Bad),
        }
    }

    fn parse_remove(alloc: Global, words: &[&[u8]]) -> Result<CommandLine, AllocError>
        ensures { IfOk result (λ command_line. command_line ≡ removes (map (λ w. w.now) words.now)) }
    {
        match words {
            [name] => Ok(CommandLine::Remove(copy_octets_as_unchecked_name(alloc, name)?)),
            _ => Ok(CommandLine::Bad),
        }
    }

    fn parse_set(alloc: Global, words: &[&[u8]]) -> Result<CommandLine, AllocError>
        ensures { IfOk result (λ command_line. command_line ≡ sets (map (λ w. w.now) words.now)) }
    {
        match words {
            [key, word] => Ok(CommandLine::Set(
                copy_octets_as_unchecked_name(alloc, key)?,
                parse_setting_number_boolean_or_word(word),
            )),
            _ => Ok(CommandLine::Bad),
        }
    }

    /// Whether the line has no words.
    pub fn is_empty_line(&self) -> bool
        ensures { result ≡ is_empty_line self.now }
    {
        matches!(self, CommandLine::Empty)
    }
}

/// A command without further words.
fn bad_if_arguments(command_line: CommandLine, words: &[&[u8]]) -> CommandLine
    ensures { result ≡ bad_if_arguments command_line (map (λ w. w.now) words.now) }
{
    match words {
        [] => command_line,
        _ => CommandLine::Bad,
    }
}

/// The numbers of an edit.
fn parse_edit_numbers(from: &[u8], remove: &[u8], lines: &[u8]) -> Option<(usize, usize, usize)>
    ensures { let good = is_count from.now && is_count remove.now && is_count lines.now in
        let numbers : ℕ × ℕ × ℕ = (number_of from.now, number_of remove.now, number_of lines.now) in
        result ≡ (if good then Some numbers else None) }
{
    Some((
        parse_count_of_at_most_six_digits(from)?,
        parse_count_of_at_most_six_digits(remove)?,
        parse_count_of_at_most_six_digits(lines)?,
    ))
}

/// The words of a line, which are parted by spaces.
fn words(alloc: Global, line: &[u8]) -> Result<Vec<&[u8]>, AllocError>
    ensures { IfOk result (λ words. map (λ w. w.now) words.items ≡ words_of line.now) }
{
    line.split(|octet| *octet == b' ')
        .filter(|word| word.len() > 0)
        .collect(alloc)
}

/// A name of its own with these octets.
fn copy_octets_as_unchecked_name(alloc: Global, octets: &[u8]) -> Result<Name, AllocError>
    ensures { IfOk result (λ name. name ≡ octets.now) }
{
    let mut own = Vec::new(alloc);
    own.extend_from_slice(octets)?;
    Name::new(own)
}
