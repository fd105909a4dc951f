//! A script as the input of a program, without the lines of a trace.
ghost use Rattle.std.specs.Prelude.{◌≡◌, ◌<◌, IfOk, IfErr, IfSome, OnOk};
ghost use Rattle.std.specs.Bool.{OnTrue};
ghost use Rattle.pd_protocol.specs.Input.{IfKnown, to_come, work_left, Spends, IsCaused, HasCause};
ghost use Rattle.pd_protocol.specs.LinePieces.{NoNewline};
ghost use Rattle.pd_protocol.specs.NextLines.{IsIo};
ghost use Rattle.pdrecord.specs.ScriptInput.{is_trace_line, script_in};
ghost use Rattle.pdrecord.specs.Inner.{Gathers, with_line};

use pd_layout::is_single_trace_line;
use pd_protocol::{
    InputStream, LineReader, NextLine, ServeFault, TextBuilder,
    text_of_lines_or_none_if_over_limits, without_carriage_return,
};
use pd_text::{Lines, MAX_LINES, MAX_OCTETS};
use std::alloc::{AllocError, Global};

/// The script that an input is.
#[derive(Drop)]
pub struct ScriptInput {
    /// Its lines, those of a trace left out; none where they are over the limits of a text.
    pub lines: Option<Lines>,
    /// Which line of the input each of them is.
    numbers: LineNumbers,
}

impl ScriptInput {
    /// Reads an input to its end.
    ///
    /// # Errors
    /// `Read` where a read fails or 1,048,576 were made; `OutOfMemory`.
    pub fn read<R: InputStream>(alloc: Global, reader: &mut R) -> Result<ScriptInput, ServeFault>
        ensures lines { IfOk result (λ input. IfSome (R.remaining reader.old) (λ octets. input.lines ≡ script_in octets)) }
        ensures only { IfErr result IsIo }
        ensures cause { HasCause result (R.has_failed reader.new) (R.remaining reader.old) }
    {
        let mut line_reader = LineReader::new(alloc);
        let mut text_builder = TextBuilder::new(alloc);
        let mut numbers = LineNumbers::new(alloc);
        while gather_line_returning_whether_any(
            alloc,
            &mut line_reader,
            reader,
            &mut text_builder,
            &mut numbers,
        )? {}
        Ok(ScriptInput {
            lines: text_of_lines_or_none_if_over_limits(text_builder.into_lines_unless_too_large()),
            numbers,
        })
    }

    /// Which line of the input a line of the script is, both counted from 1.
    pub fn input_line_of(&self, line: usize) -> usize {
        match self.numbers.kept_lines.get(line.saturating_sub(1)) {
            Some(number) => *number,
            None => line,
        }
    }
}

/// Which line of an input each line of its script is.
#[derive(Drop)]
struct LineNumbers {
    /// The numbers of the lines that were kept, counted from 1.
    kept_lines: Vec<usize>,
    /// How many lines were read.
    read: usize,
}

impl LineNumbers {
    fn new(alloc: Global) -> LineNumbers {
        LineNumbers {
            kept_lines: Vec::new(alloc),
            read: 0,
        }
    }

    /// Counts a line, which is kept or dropped; no text has more than 4,096.
    fn count_line_and_keep_unless_trace(&mut self, line: &[u8]) -> Result<(), AllocError> {
        self.read = self.read.saturating_add(1);
        if self.kept_lines.len() < MAX_LINES && !is_trace_line(line) {
            self.kept_lines.push(self.read)?;
        }
        Ok(())
    }
}

/// Takes a line of an input; false where there is none.
fn gather_line_returning_whether_any<R: InputStream>(
    alloc: Global,
    line_reader: &mut LineReader,
    reader: &mut R,
    text_builder: &mut TextBuilder,
    numbers: &mut LineNumbers,
) -> Result<bool, ServeFault>
    ensures line { let old = to_come line_reader.old (R.remaining reader.old) in
        let new = to_come line_reader.new (R.remaining reader.new) in
        IfOk result (λ more. IfKnown (Gathers more text_builder.old text_builder.new) old new) }
    ensures less { IfOk result (λ _. work_left line_reader.new < work_left line_reader.old) }
    ensures reads { IfOk result (λ more. OnTrue more (IfKnown (Spends line_reader.old line_reader.new) (R.remaining reader.old) (R.remaining reader.new))) }
    ensures only { IfErr result IsIo }
    ensures cause { IfErr result (IsCaused (R.has_failed reader.new) line_reader.old line_reader.new (R.remaining reader.old)) }
{
    if let Some(line) = line_reader.peek_next_line_if_buffered() {
        let octets = line.len() + 1;
        let line = without_carriage_return(line);
        numbers.count_line_and_keep_unless_trace(line)?;
        add_unless_trace_line(text_builder, line)?;
        line_reader.consume(octets);
        return Ok(true);
    }
    match line_reader.next_line_or_long_or_end(alloc, reader, MAX_OCTETS)? {
        NextLine::Whole(line) => {
            numbers.count_line_and_keep_unless_trace(line.as_slice())?;
            add_unless_trace_line(text_builder, line.as_slice())?;
            line_reader.recycle(line);
            Ok(true)
        }
        NextLine::Long => {
            text_builder.mark_text_too_large();
            Ok(true)
        }
        NextLine::End => Ok(false),
    }
}

/// Adds a line, unless it is dropped.
fn add_unless_trace_line(text_builder: &mut TextBuilder, line: &[u8]) -> Result<(), AllocError>
    requires { NoNewline line.now }
    ensures { OnOk result (text_builder.new ≡ with_line line.now text_builder.old) }
{
    if is_trace_line(line) {
        return Ok(());
    }
    text_builder.add_line_or_mark_too_large(line)
}

/// Whether a line is dropped: one of a trace that isn't over the limits of a text by itself.
pub fn is_trace_line(line: &[u8]) -> bool
    ensures { result ≡ is_trace_line line.now }
{
    line.len() <= MAX_OCTETS && is_single_trace_line(line)
}
