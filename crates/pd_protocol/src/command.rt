//! The commands of an input, one after another.
ghost use Rattle.std.specs.Prelude.{◌≡◌, ◌≤◌, ◌<◌, ℕ, List, [], Option, IfOk, IfErr, IfSome, option_and_then};
ghost use Rattle.std.specs.Bool.{OnTrue, OnFalse};
ghost use Rattle.pd_protocol.specs.Input.{IfKnown, to_come, work_left, Spends, IsCaused};
ghost use Rattle.pd_protocol.specs.NextLines.{TakesLine, IsOfLine, IsLine, IsIo};
ghost use Rattle.pd_protocol.specs.Commands.{fitted, line_edit_if_lines_are_some, commands};
ghost use Rattle.pd_protocol.specs.NextCommand.{AddsLine, TakesLines, LinesFault, ParsesLine, HasCommandLine, Gives, FaultIn};

use crate::command_line::{CommandLine, MAX_COMMAND_LINE};
use crate::faults::ServeFault;
use crate::input_stream::InputStream;
use crate::line_reader::{LineReader, NextLine, without_carriage_return};
use crate::text_builder::TextBuilder;
use pd_settings::Value;
use pd_text::{LineEdit, LineList, Lines, MAX_OCTETS, Name};
use std::alloc::{AllocError, Global};

/// A command with its lines; these are `None` where they alone are over the limits of a text.
#[derive(Drop)]
pub enum Command {
    Add(Name, Option<Lines>),
    Edit(Name, Option<LineEdit>),
    Remove(Name),
    Set(Name, Value),
    Show,
    Settle,
}

/// Takes the next command off the input, or none at its end.
///
/// # Errors
/// `BadCommand` and `Truncated` where they come next in the input, `Read`, `OutOfMemory`.
pub fn next_command<R: InputStream>(
    alloc: Global,
    line_reader: &mut LineReader,
    reader: &mut R,
) -> Result<Option<Command>, ServeFault>
    ensures command { let old = to_come line_reader.old (R.remaining reader.old) in
        let new = to_come line_reader.new (R.remaining reader.new) in
        IfOk result (λ c. IfKnown (Gives c) old new) }
    ensures less { IfOk result (λ _. work_left line_reader.new < work_left line_reader.old) }
    ensures err { let old = to_come line_reader.old (R.remaining reader.old) in
        IfErr result (λ fault. IfSome old (λ o. FaultIn fault (commands o))) }
    ensures reads { IfOk result (λ c. IfSome c (λ _. IfKnown (Spends line_reader.old line_reader.new) (R.remaining reader.old) (R.remaining reader.new))) }
    ensures cause { IfErr result (IsCaused (R.has_failed reader.new) line_reader.old line_reader.new (R.remaining reader.old)) }
{
    match next_nonempty_command_line(alloc, line_reader, reader)? {
        Some(CommandLine::Add(name, count)) => {
            let lines = read_all_lines_or_none_if_too_large(alloc, line_reader, reader, count)?;
            Ok(Some(Command::Add(name, text_of_lines_or_none_if_over_limits(lines))))
        }
        Some(CommandLine::Edit(name, from, remove, count)) => {
            let lines = read_all_lines_or_none_if_too_large(alloc, line_reader, reader, count)?;
            Ok(Some(Command::Edit(name, line_edit_if_lines_are_some(from, remove, lines))))
        }
        Some(CommandLine::Remove(name)) => Ok(Some(Command::Remove(name))),
        Some(CommandLine::Set(key, value)) => Ok(Some(Command::Set(key, value))),
        Some(CommandLine::Show) => Ok(Some(Command::Show)),
        Some(CommandLine::Settle) => Ok(Some(Command::Settle)),
        Some(_) => Err(ServeFault::BadCommand),
        None => Ok(None),
    }
}

/// Takes lines up to one that asks for something.
fn next_nonempty_command_line<R: InputStream>(
    alloc: Global,
    line_reader: &mut LineReader,
    reader: &mut R,
) -> Result<Option<CommandLine>, ServeFault>
    ensures command_line { let old = to_come line_reader.old (R.remaining reader.old) in
        let new = to_come line_reader.new (R.remaining reader.new) in
        IfOk result (λ r. IfKnown (HasCommandLine r) old new) }
    ensures less { IfOk result (λ _. work_left line_reader.new < work_left line_reader.old) }
    ensures reads { IfOk result (λ r. IfSome r (λ _. IfKnown (Spends line_reader.old line_reader.new) (R.remaining reader.old) (R.remaining reader.new))) }
    ensures only { IfErr result IsIo }
    ensures cause { IfErr result (IsCaused (R.has_failed reader.new) line_reader.old line_reader.new (R.remaining reader.old)) }
{
    loop {
        let taken = line_reader.next_line_or_long_or_end(alloc, reader, MAX_COMMAND_LINE)?;
        match parse_command_line_if_not_end(alloc, line_reader, taken)? {
            Some(command_line) if command_line.is_empty_line() => {}
            asked => return Ok(asked),
        }
    }
}

/// The command of a line that was taken, or none at the end.
fn parse_command_line_if_not_end(
    alloc: Global,
    line_reader: &mut LineReader,
    taken: NextLine,
) -> Result<Option<CommandLine>, AllocError>
    ensures same { line_reader.new ≡ line_reader.old }
    ensures command_line { IfOk result (λ command_line. (old new : List ℕ) → TakesLine 256 taken old new → ParsesLine command_line old new) }
    ensures some { IfOk result (λ command_line. IfSome command_line (λ _. IsLine taken)) }
{
    match taken {
        NextLine::Whole(line) => {
            let command_line = CommandLine::of_line(alloc, line.as_slice())?;
            line_reader.recycle(line);
            Ok(Some(command_line))
        }
        NextLine::Long => Ok(Some(CommandLine::Bad)),
        NextLine::End => Ok(None),
    }
}

/// Takes the lines of a command, to their end also where they are over the limits.
fn read_all_lines_or_none_if_too_large<R: InputStream>(
    alloc: Global,
    line_reader: &mut LineReader,
    reader: &mut R,
    count: usize,
) -> Result<Option<LineList>, ServeFault>
    ensures lines { let old = to_come line_reader.old (R.remaining reader.old) in
        let new = to_come line_reader.new (R.remaining reader.new) in
        IfOk result (λ taken. IfKnown (TakesLines count taken) old new) }
    ensures less { IfOk result (λ _. work_left line_reader.new ≤ work_left line_reader.old) }
    ensures err { let old = to_come line_reader.old (R.remaining reader.old) in
        IfErr result (λ fault. IfSome old (LinesFault fault count)) }
    ensures reads { IfOk result (λ _. IfKnown (Spends line_reader.old line_reader.new) (R.remaining reader.old) (R.remaining reader.new)) }
    ensures cause { IfErr result (IsCaused (R.has_failed reader.new) line_reader.old line_reader.new (R.remaining reader.old)) }
{
    let mut text_builder = TextBuilder::with_line_capacity(alloc, count)?;
    for _turn in 0..count {
        if add_next_line_if_buffered_whole(line_reader, &mut text_builder)? {
            continue;
        }
        match line_reader.next_line_or_long_or_end(alloc, reader, MAX_OCTETS)? {
            NextLine::Whole(line) => {
                text_builder.add_line_or_mark_too_large(line.as_slice())?;
                line_reader.recycle(line);
            }
            NextLine::Long => text_builder.mark_text_too_large(),
            NextLine::End => return Err(ServeFault::Truncated),
        }
    }
    Ok(text_builder.into_lines_unless_too_large())
}

/// Adds the next line to those gathered, where it lies whole in what was read.
///
/// # Errors
/// `AllocError` where a growth is refused.
#[inline(always)]
fn add_next_line_if_buffered_whole(
    line_reader: &mut LineReader,
    text_builder: &mut TextBuilder,
) -> Result<bool, AllocError>
    ensures some { IfOk result (λ some. OnTrue some (AddsLine line_reader.old.0 line_reader.new.0 text_builder.old text_builder.new)) }
    ensures none { IfOk result (λ some. OnFalse some ((line_reader.new ≡ line_reader.old) × (text_builder.new ≡ text_builder.old))) }
    ensures reads { line_reader.new.1 ≡ line_reader.old.1 }
    ensures less { IfOk result (λ _. work_left line_reader.new ≤ work_left line_reader.old) }
{
    let Some(line) = line_reader.peek_next_line_if_buffered() else {
        return Ok(false);
    };
    let octets = line.len() + 1;
    text_builder.add_line_or_mark_too_large(without_carriage_return(line))?;
    line_reader.consume(octets);
    Ok(true)
}

/// The text of lines; none where there are none, or they are over the limits of a text.
pub fn text_of_lines_or_none_if_over_limits(lines: Option<LineList>) -> Option<Lines>
    ensures { result ≡ option_and_then fitted lines }
{
    match lines {
        Some(lines) => match Lines::new(lines) {
            Ok(text) => Some(text),
            Err(_) => None,
        },
        None => None,
    }
}

/// The edit that inserts these lines.
fn line_edit_if_lines_are_some(
    from: usize,
    remove: usize,
    lines: Option<LineList>,
) -> Option<LineEdit>
    ensures { result ≡ line_edit_if_lines_are_some from remove lines }
{
    match lines {
        Some(insert) => Some(LineEdit {
            from,
            remove,
            insert,
        }),
        None => None,
    }
}
