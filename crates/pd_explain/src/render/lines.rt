//! The lines of a block: facts, marked lines and lists, each as it is shown.
ghost use Rattle.std.specs.Prelude.{◌≡◌, ◌∷◌, [], ◌++◌, true, codes, OnOk};
ghost use Rattle.std.specs.Fmt.{decimal};
ghost use Rattle.pd_explain.specs.BlockLines.{trigger_text, sent_by_text};
ghost use Rattle.pd_refusal.specs.Escape.{are_printable};
ghost use Rattle.pd_explain.specs.Inner.{AddsLines, AddsTexts, fact_texts, texts_of_fact, value_text};

use super::send_rules::send_rule_words;
use crate::render::facts::{Fact, FactValue};
use pd_cause::{Origin, Trigger};
use pd_print::render_seconds_with_six_decimals;
use pd_refusal::{
    escaped, law_escaped_is_printable, truncated, truncated_around_mark_and_new_column,
};
use std::alloc::{AllocError, Global};

pub fn put_words(out: &mut Vec<u8>, words: &str) -> Result<(), AllocError>
    ensures { OnOk result (out.new.items ≡ out.old.items ++ words.now) }
{
    out.extend_from_slice(words.as_bytes())
}

pub fn put_number(alloc: Global, out: &mut Vec<u8>, number: u64) -> Result<(), AllocError>
    ensures { OnOk result (out.new.items ≡ out.old.items ++ decimal number) }
{
    out.extend_from_slice(number.to_string(alloc)?.as_bytes())
}

/// Adds a line as it is shown, indented and cut.
#[tactic(auto, using(crate::proofs::BlockLemmas::one_text))]
pub fn put_truncated_report_line(
    alloc: Global,
    out: &mut Vec<u8>,
    line: &[u8],
) -> Result<(), AllocError>
    ensures lines { OnOk result (AddsLines out.old.items out.new.items) }
    ensures text { OnOk result (AddsTexts (line.now ∷ []) out.old.items out.new.items) }
{
    law_escaped_is_printable();
    let line = truncated(alloc, &escaped(alloc, line)?)?;
    put_indented_line(out, &line)
}

/// Adds a line as it is shown, indented and not cut.
pub fn put_whole_report_line(
    alloc: Global,
    out: &mut Vec<u8>,
    line: &[u8],
) -> Result<(), AllocError>
    ensures { OnOk result (AddsLines out.old.items out.new.items) }
{
    law_escaped_is_printable();
    let line = escaped(alloc, line)?;
    put_indented_line(out, &line)
}

/// Adds a line that is shown and cut already, indented.
#[tactic(auto, using(crate::proofs::BlockLemmas::one_line))]
fn put_indented_line(out: &mut Vec<u8>, line: &[u8]) -> Result<(), AllocError>
    requires { are_printable line.now ≡ true }
    ensures lines { OnOk result (AddsLines out.old.items out.new.items) }
    ensures line { OnOk result (out.new.items ≡ out.old.items ++ (codes "  " ++ line.now ++ codes "\n")) }
{
    out.extend_from_slice(b"  ")?;
    out.extend_from_slice(line)?;
    out.extend_from_slice(b"\n")
}

/// Adds the lines of facts; one without a name in text has none.
pub fn put_facts(alloc: Global, out: &mut Vec<u8>, facts: &[Fact<'_>]) -> Result<(), AllocError>
    ensures { OnOk result (AddsTexts (fact_texts facts.now) out.old.items out.new.items) }
{
    for fact in facts {
        put_fact_if_labelled(alloc, out, fact)?;
    }
    Ok(())
}

/// Adds the line of a fact, if it has a name in text.
#[tactic(auto, using(crate::proofs::BlockLemmas::no_texts))]
fn put_fact_if_labelled(alloc: Global, out: &mut Vec<u8>, fact: &Fact<'_>) -> Result<(), AllocError>
    ensures { OnOk result (AddsTexts (texts_of_fact fact.now) out.old.items out.new.items) }
{
    if fact.label.is_empty() {
        return Ok(());
    }
    put_fact(alloc, out, fact.label, fact.value)
}

/// Adds the line of a fact.
pub fn put_fact(
    alloc: Global,
    out: &mut Vec<u8>,
    label: &str,
    value: FactValue<'_>,
) -> Result<(), AllocError>
    ensures lines { OnOk result (AddsLines out.old.items out.new.items) }
    ensures text { OnOk result (AddsTexts ((label.now ++ (codes ": " ++ value_text value.entry)) ∷ []) out.old.items out.new.items) }
{
    let mut line = Vec::new(alloc);
    put_words(&mut line, label)?;
    put_words(&mut line, ": ")?;
    put_value(alloc, &mut line, value)?;
    put_truncated_report_line(alloc, out, &line)
}

/// Adds what is reported; octets as they are.
pub fn put_value(alloc: Global, out: &mut Vec<u8>, value: FactValue<'_>) -> Result<(), AllocError>
    ensures { OnOk result (out.new.items ≡ out.old.items ++ value_text value.entry) }
{
    match value {
        FactValue::Octets(octets) | FactValue::Packet(octets, None) => out.extend_from_slice(
            octets,
        ),
        FactValue::Packet(octets, Some(origin)) => {
            out.extend_from_slice(octets)?;
            put_sent_by_trigger_and_rule(alloc, out, origin)
        }
        FactValue::Words(words) | FactValue::Nothing(words) => put_words(out, words),
        FactValue::Moment(moment) => out.extend_from_slice(&render_seconds_with_six_decimals(
            alloc, moment,
        )?),
        FactValue::Number(number) => put_number(alloc, out, number),
    }
}

/// Adds to a packet, which ends in a comment, what let it go, and by which rule.
#[tactic(auto, using(crate::proofs::BlockLemmas::sent_by_rule))]
fn put_sent_by_trigger_and_rule(
    alloc: Global,
    out: &mut Vec<u8>,
    origin: Origin,
) -> Result<(), AllocError>
    ensures { OnOk result (out.new.items ≡ out.old.items ++ sent_by_text origin) }
{
    put_sent_by_line_or_timer(alloc, out, origin.trigger)?;
    put_words(out, ": ")?;
    put_words(out, send_rule_words(origin.rule))
}

/// Adds the same without its rule.
#[tactic(auto, using(crate::proofs::BlockLemmas::sent_by_line))]
fn put_sent_by_line_or_timer(
    alloc: Global,
    out: &mut Vec<u8>,
    trigger: Trigger,
) -> Result<(), AllocError>
    ensures { OnOk result (out.new.items ≡ out.old.items ++ trigger_text trigger) }
{
    match trigger {
        Trigger::Timer => put_words(out, ", sent by the timer"),
        Trigger::Line(line) => {
            put_words(out, ", sent by line ")?;
            put_number(alloc, out, line as u64)
        }
    }
}

/// Adds words after a label, where there are any.
#[tactic(auto, using(crate::proofs::BlockLemmas::no_lines))]
pub fn put_named_words_if_some(
    alloc: Global,
    out: &mut Vec<u8>,
    label: &str,
    words: Option<&'static str>,
) -> Result<(), AllocError>
    ensures { OnOk result (AddsLines out.old.items out.new.items) }
{
    match words {
        Some(words) => put_fact(alloc, out, label, FactValue::Words(words)),
        None => Ok(()),
    }
}

/// Adds a line, and one that marks a column of it.
#[tactic(auto, using(crate::proofs::BlockLemmas::then_lines))]
pub fn put_line_with_mark(
    alloc: Global,
    out: &mut Vec<u8>,
    text: &[u8],
    column: usize,
) -> Result<(), AllocError>
    ensures { OnOk result (AddsLines out.old.items out.new.items) }
{
    let (line, column) = truncated_around_mark_and_new_column(alloc, text, column)?;
    put_truncated_report_line(alloc, out, &line)?;
    put_mark_line(alloc, out, column)
}

/// Adds a line that marks a column.
fn put_mark_line(alloc: Global, out: &mut Vec<u8>, column: usize) -> Result<(), AllocError>
    ensures { OnOk result (AddsLines out.old.items out.new.items) }
{
    let mut line = Vec::new(alloc);
    line.resize(column, b' ')?;
    line.push(b'^')?;
    put_truncated_report_line(alloc, out, &line)
}

/// Adds words after a label, as a list in a sentence.
pub fn put_labeled_list(
    alloc: Global,
    out: &mut Vec<u8>,
    label: &str,
    items: &[Vec<u8>],
) -> Result<(), AllocError>
    ensures { OnOk result (AddsLines out.old.items out.new.items) }
{
    let mut line = Vec::new(alloc);
    put_words(&mut line, label)?;
    for (place, words) in items.iter().enumerate() {
        put_words(&mut line, list_separator(place, items.len()))?;
        line.extend_from_slice(words)?;
    }
    put_truncated_report_line(alloc, out, &line)
}

/// The text before an item of a list of so many.
fn list_separator(place: usize, count: usize) -> &'static str {
    if place == 0 {
        " "
    } else if place.saturating_add(1) == count {
        " or "
    } else {
        ", "
    }
}
