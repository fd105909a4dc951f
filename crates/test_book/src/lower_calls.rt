//! The texts and the settings that a transcript has below any book, and their calls.
use crate::scripts::{
    script, write_plain_verdict, write_token_kinds_from_place, write_verdict_and_steps,
};
use crate::settings;
use pd_settings::Settings;
use pd_text::{LineEdit, Lines, TextFault};
use std::alloc::Global;
use test_support::{AnswerText, CallArguments, NO_SUCH_THING, OUT_OF_MEMORY, Texts, write_lines};

/// The texts that were written, the last of which is looked at, and settings.
#[derive(Drop)]
pub struct LowerCalls {
    written: Vec<Lines>,
    settings: Settings,
}

impl LowerCalls {
    pub fn new(alloc: Global) -> LowerCalls {
        LowerCalls {
            written: Vec::new(alloc),
            settings: Settings::new(),
        }
    }

    /// Begins from nothing.
    pub fn begin(&mut self) {
        self.written.clear();
        self.settings = Settings::new();
    }

    /// Makes a call of the parts below a book; whether there is such a call.
    pub fn answer(
        &mut self,
        texts: &Texts,
        word: &str,
        arguments: &mut CallArguments<'_>,
        output: &mut AnswerText,
    ) -> bool {
        match word {
            "text" => keep_text_or_write_fault(
                &mut self.written,
                texts.text(arguments.rest),
                output,
            ),
            "become" => keep_edited_last_text(&mut self.written, texts, arguments, output),
            _ => {
                return settings::answer_if_settings_or_name_call(
                    &mut self.settings,
                    texts,
                    word,
                    arguments,
                    output,
                ) || self.answer_if_call_on_last_text(texts, word, arguments, output);
            }
        }
        true
    }

    /// Looks at the last text, if there is one; whether there is such a call.
    fn answer_if_call_on_last_text(
        &self,
        texts: &Texts,
        word: &str,
        arguments: &mut CallArguments<'_>,
        output: &mut AnswerText,
    ) -> bool {
        match self.written.last() {
            Some(lines) => answer_if_call_on_text(
                texts,
                lines,
                &self.settings,
                word,
                arguments,
                output,
            ),
            None => false,
        }
    }
}

/// Goes on with a text, and says how many lines it has.
fn keep_text_or_write_fault(
    written: &mut Vec<Lines>,
    made: Result<Lines, TextFault>,
    output: &mut AnswerText,
) {
    match made {
        Ok(lines) => push_text_and_write_line_count(written, lines, output),
        Err(fault) => output.push_str(fault.number_and_name()),
    }
}

fn push_text_and_write_line_count(written: &mut Vec<Lines>, lines: Lines, output: &mut AnswerText) {
    let count = lines.len();
    match written.push(lines) {
        Ok(()) => output.number(count as u64),
        Err(_) => output.push_str(OUT_OF_MEMORY),
    }
}

/// Goes on with the last text after an edit.
fn keep_edited_last_text(
    written: &mut Vec<Lines>,
    texts: &Texts,
    arguments: &mut CallArguments<'_>,
    output: &mut AnswerText,
) {
    match written.last() {
        Some(lines) => {
            let made = edited(texts, lines, arguments);
            keep_text_or_write_fault(written, made, output);
        }
        None => output.push_str(NO_SUCH_THING),
    }
}

/// Looks at a text, reads it or runs it; whether there is such a call.
fn answer_if_call_on_text(
    texts: &Texts,
    lines: &Lines,
    settings: &Settings,
    word: &str,
    arguments: &mut CallArguments<'_>,
    output: &mut AnswerText,
) -> bool {
    match word {
        "edited" => write_made(output, edited(texts, lines, arguments)),
        "line" => write_line(output, lines, arguments.number()),
        "same" => output.push_str(compare(lines, texts.text(arguments.rest))),
        _ => return answer_if_reading_or_running_call(
            texts, lines, settings, word, arguments, output,
        ),
    }
    true
}

/// Reads or runs a text; whether there is such a call.
fn answer_if_reading_or_running_call(
    texts: &Texts,
    lines: &Lines,
    settings: &Settings,
    word: &str,
    arguments: &mut CallArguments<'_>,
    output: &mut AnswerText,
) -> bool {
    match word {
        "tokens" => write_token_kinds_from_place(lines, arguments, output),
        "script" => script(texts, lines, output),
        "verdict" => write_verdict_and_steps(texts, lines, settings, output),
        "plain-verdict" => write_plain_verdict(texts, lines, settings, output),
        _ => return false,
    }
    true
}

/// The text after an edit, by a copy of the edit.
fn edited(
    texts: &Texts,
    lines: &Lines,
    arguments: &mut CallArguments<'_>,
) -> Result<Lines, TextFault> {
    match texts.edit(arguments) {
        Ok(edit) => edited_by_copy(lines, &edit),
        Err(_) => Err(TextFault::OutOfMemory),
    }
}

fn edited_by_copy(lines: &Lines, edit: &LineEdit) -> Result<Lines, TextFault> {
    match edit.copy() {
        Ok(copy) => lines.apply(&copy),
        Err(_) => Err(TextFault::OutOfMemory),
    }
}

/// Says a text line by line.
fn write_made(output: &mut AnswerText, made: Result<Lines, TextFault>) {
    match made {
        Ok(lines) => write_lines(output, &lines),
        Err(fault) => output.push_str(fault.number_and_name()),
    }
}

fn write_line(output: &mut AnswerText, lines: &Lines, number: u64) {
    output.push_octets(lines.line(number as usize).unwrap_or(b"(none)"));
}

/// Whether a text has these lines.
fn compare(lines: &Lines, other: Result<Lines, TextFault>) -> &'static str {
    match other {
        Ok(other) => truth(lines.is_same(&other)),
        Err(fault) => fault.number_and_name(),
    }
}

fn truth(is_so: bool) -> &'static str {
    if is_so { "true" } else { "false" }
}
