//! Calls of tokens, scripts and runs.
use pd_lex::{Lexed, Place, TokenKind, next_token};
use pd_run::{Plain, Stepper, run_all, run_with_stepper};
use pd_script::{Parsed, parse};
use pd_settings::Settings;
use pd_text::Lines;
use test_support::{AnswerText, CallArguments, OUT_OF_MEMORY, Texts, write_run, write_verdict};

/// Says the kinds and lines of the tokens from a place on, at most 100, and what ends them.
pub fn write_token_kinds_from_place(
    lines: &Lines,
    arguments: &mut CallArguments<'_>,
    output: &mut AnswerText,
) {
    let mut place = Place {
        line: arguments.number() as usize,
        at: arguments.number() as usize,
    };
    for _token in 0..100 {
        match next_token(lines, place) {
            Lexed::Token(token) => {
                place = token.to;
                output.count(kind_name(token.kind), token.from.line as u64, ", ");
            }
            Lexed::Bad(line) => return output.count("Bad ", line as u64, ""),
            Lexed::End => return output.push_str("End"),
        }
    }
}

fn kind_name(kind: TokenKind) -> &'static str {
    match kind {
        TokenKind::Int => "Int ",
        TokenKind::Hex => "Hex ",
        TokenKind::Word => "Word ",
        TokenKind::Decimal => "Decimal ",
        TokenKind::Dots => "Dots ",
        TokenKind::Opt => "Opt ",
        TokenKind::Str => "Str ",
        TokenKind::Cmd => "Cmd ",
        TokenKind::Code => "Code ",
        TokenKind::Symbol => "Symbol ",
    }
}

/// Says what a text is read as: the lines of its header's items and of its events, and the one at which no script goes on.
pub fn script(texts: &Texts, lines: &Lines, output: &mut AnswerText) {
    match parse(texts.alloc, lines) {
        Ok(parsed) => write_parsed_line_numbers(output, &parsed),
        Err(_) => output.push_str(OUT_OF_MEMORY),
    }
}

fn write_parsed_line_numbers(output: &mut AnswerText, parsed: &Parsed) {
    for item in parsed.header.as_slice() {
        output.count("", item.line as u64, " item, ");
    }
    for event in parsed.events.as_slice() {
        output.count("", event.line as u64, " event, ");
    }
    if let Some(line) = parsed.fault {
        output.count("", line as u64, " fault, ");
    }
    output.push_str("end");
}

/// Says the verdict of a text, and how many steps its run took.
pub fn write_verdict_and_steps(
    texts: &Texts,
    lines: &Lines,
    settings: &Settings,
    output: &mut AnswerText,
) {
    let mut stepper = Plain::new();
    match run_with_stepper(texts.alloc, lines, settings, &mut stepper) {
        Ok(verdict) => write_run(output, verdict, stepper.count()),
        Err(_) => output.push_str(OUT_OF_MEMORY),
    }
}

/// Says the verdict of a text that is run without a stepper.
pub fn write_plain_verdict(
    texts: &Texts,
    lines: &Lines,
    settings: &Settings,
    output: &mut AnswerText,
) {
    match run_all(texts.alloc, lines, settings) {
        Ok(verdict) => write_verdict(output, verdict),
        Err(_) => output.push_str(OUT_OF_MEMORY),
    }
}
