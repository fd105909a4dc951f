//! The block of an explanation as lines.
ghost use Rattle.std.specs.Prelude.{◌≡◌, true, IfOk, OnOk};
ghost use Rattle.pd_refusal.specs.Escape.{are_printable};
ghost use Rattle.pd_explain.specs.Headings.{IsPassHeading, explanation_words, heading, verdict_name_with_kind};
ghost use Rattle.pd_explain.specs.BlockLines.{AreIndented, IsBlock, IsExplanationText, IsLeftoversText, ReportsTexts, packet_texts};
ghost use Rattle.pd_explain.specs.Inner.{AddsLines, AddsReport};

use crate::render::dropped_text::dropped_text;
use crate::render::facts::{Fact, FactValue, facts_of_cause};
use crate::render::headings::{
    leftovers_words, verdict_name_with_kind, verdict_or_packets_before_awaited_words,
};
use crate::render::lines::{
    put_fact, put_facts, put_labeled_list, put_line_with_mark, put_named_words_if_some, put_number,
    put_truncated_report_line, put_value, put_whole_report_line, put_words,
};
use crate::render::sender_facts::{facts_of_sender_without_state_name, state_name};
use pd_cause::{
    Cause, DroppedSegment, Explanation, Failed, Failure, Leftovers, Origin, SenderSnapshot,
    Unmatched, WrongPacket,
};
use pd_refusal::{Refusal, RuleViolation, escaped, law_escaped_is_printable};
use pd_text::Name;
use std::alloc::{AllocError, Global};

/// The lines of a block, each ended by a newline: `NAME:LINE: ` and what it is, then lines indented by two spaces.
///
/// # Errors
/// `AllocError` where a growth is refused.
#[tactic(auto, using(crate::proofs::BlockLemmas::is_block))]
pub fn explanation_text(
    alloc: Global,
    name: &Name,
    explanation: &Explanation,
) -> Result<Vec<u8>, AllocError>
    ensures block { IfOk result (λ block. IsBlock block.items) }
    ensures explains { IfOk result (λ block. IsExplanationText name.now explanation.now block.items) }
{
    let mut block = explanation_heading(alloc, name, explanation)?;
    block.extend_from_slice(b"\n")?;
    block.extend_from_slice(&cause_text(alloc, &explanation.cause)?)?;
    Ok(block)
}

/// The lines of a block on what a script that passes leaves at its end, as those of an explanation.
///
/// # Errors
/// `AllocError` where a growth is refused.
#[tactic(auto, using(crate::proofs::BlockLemmas::is_block, crate::proofs::BlockLemmas::is_leftovers_text))]
pub fn leftovers_text(
    alloc: Global,
    name: &Name,
    leftovers: &Leftovers,
) -> Result<Vec<u8>, AllocError>
    ensures block { IfOk result (λ block. IsBlock block.items) }
    ensures reports { IfOk result (λ block. IsLeftoversText name.now leftovers.now block.items) }
{
    let mut block = leftovers_heading(alloc, name, leftovers)?;
    block.extend_from_slice(b"\n")?;
    block.extend_from_slice(&unmatched_and_sender_lines(alloc, leftovers)?)?;
    Ok(block)
}

/// The lines of such a block below its first one.
#[tactic(auto, using(crate::proofs::BlockLemmas::all_added))]
fn unmatched_and_sender_lines(alloc: Global, leftovers: &Leftovers) -> Result<Vec<u8>, AllocError>
    ensures { IfOk result (λ lines. AreIndented lines.items) }
{
    let mut out = Vec::new(alloc);
    put_unmatched_and_sender(
        alloc,
        &mut out,
        &leftovers.unmatched,
        &leftovers.origins,
        &leftovers.sender,
    )?;
    Ok(out)
}

/// The lines of a block below its first one, which report the cause.
///
/// # Errors
/// `AllocError` where a growth is refused.
#[tactic(auto, using(crate::proofs::BlockLemmas::all_added, crate::proofs::BlockLemmas::report_lines, crate::proofs::BlockLemmas::all_reported))]
pub fn cause_text(alloc: Global, cause: &Cause) -> Result<Vec<u8>, AllocError>
    ensures lines { IfOk result (λ lines. AreIndented lines.items) }
    ensures packets { IfOk result (λ lines. ReportsTexts (packet_texts cause.now) lines.items) }
{
    let mut out = Vec::new(alloc);
    put_cause(alloc, &mut out, cause)?;
    Ok(out)
}

/// The first line of the block of an explanation.
fn explanation_heading(
    alloc: Global,
    name: &Name,
    explanation: &Explanation,
) -> Result<Vec<u8>, AllocError>
    ensures printable { IfOk result (λ line. are_printable line.items ≡ true) }
    ensures heading { IfOk result (λ line. line.items ≡ heading name.now explanation.now.line (verdict_name_with_kind explanation.now.verdict) (explanation_words explanation.now)) }
{
    let verdict = verdict_name_with_kind(alloc, explanation.verdict)?;
    let words = verdict_or_packets_before_awaited_words(alloc, explanation)?;
    heading(alloc, name, explanation.line, &verdict, &words)
}

/// The first line of a block on a script that passes.
#[tactic(auto, using(crate::proofs::BlockLemmas::pass_heading))]
fn leftovers_heading(
    alloc: Global,
    name: &Name,
    leftovers: &Leftovers,
) -> Result<Vec<u8>, AllocError>
    ensures printable { IfOk result (λ line. are_printable line.items ≡ true) }
    ensures heading { IfOk result (λ line. IsPassHeading name.now leftovers.now.line line.items) }
{
    let words = leftovers_words(alloc, leftovers)?;
    heading(alloc, name, leftovers.line, b"pass", &words)
}

/// The first line of a block: the name of a script, a line of it, a verdict, and words, as they are shown.
fn heading(
    alloc: Global,
    name: &Name,
    line: usize,
    verdict: &[u8],
    words: &[u8],
) -> Result<Vec<u8>, AllocError>
    ensures printable { IfOk result (λ text. are_printable text.items ≡ true) }
    ensures heading { IfOk result (λ text. text.items ≡ heading name.now line verdict.now words.now) }
{
    law_escaped_is_printable();
    let mut text = Vec::from_slice(alloc, name.as_slice())?;
    put_words(&mut text, ":")?;
    put_number(alloc, &mut text, line as u64)?;
    put_words(&mut text, ": ")?;
    text.extend_from_slice(verdict)?;
    put_words(&mut text, ": ")?;
    text.extend_from_slice(words)?;
    escaped(alloc, &text)
}

/// Adds what is reported of a cause.
#[tactic(auto, using(crate::proofs::BlockLemmas::report_between))]
fn put_cause(alloc: Global, out: &mut Vec<u8>, cause: &Cause) -> Result<(), AllocError>
    ensures { OnOk result (AddsReport (packet_texts cause.now) out.old.items out.new.items) }
{
    put_insertions_if_wrong_packet(alloc, out, cause)?;
    put_facts_of_cause(alloc, out, cause)?;
    put_rest_of_cause(alloc, out, cause)
}

/// Adds the facts of a cause.
#[tactic(auto, using(crate::proofs::BlockLemmas::report_first))]
fn put_facts_of_cause(alloc: Global, out: &mut Vec<u8>, cause: &Cause) -> Result<(), AllocError>
    ensures { OnOk result (AddsReport (packet_texts cause.now) out.old.items out.new.items) }
{
    let facts = facts_of_cause(alloc, cause)?;
    put_facts(alloc, out, &facts)
}

/// Adds what is reported of a cause after its facts.
#[tactic(auto, using(crate::proofs::BlockLemmas::then_lines))]
fn put_rest_of_cause(alloc: Global, out: &mut Vec<u8>, cause: &Cause) -> Result<(), AllocError>
    ensures { OnOk result (AddsLines out.old.items out.new.items) }
{
    match cause {
        Cause::Syntax(refusal) => put_refusal(alloc, out, refusal),
        Cause::Rule(violation) => put_violation(alloc, out, violation),
        Cause::Failed(failure) => {
            put_dropped_segments(alloc, out, &failure.dropped)?;
            put_unmatched_and_sender(
                alloc,
                out,
                &failure.unmatched,
                failure.unmatched_origins(),
                &failure.sender,
            )
        }
    }
}

/// Adds the segments that were dropped.
#[tactic(auto, using(crate::proofs::BlockLemmas::no_lines, crate::proofs::BlockLemmas::then_lines))]
fn put_dropped_segments(
    alloc: Global,
    out: &mut Vec<u8>,
    dropped: &[DroppedSegment],
) -> Result<(), AllocError>
    ensures { OnOk result (AddsLines out.old.items out.new.items) }
{
    for segment in dropped {
        let text = dropped_text(alloc, *segment)?;
        put_fact(alloc, out, "dropped", FactValue::Octets(&text))?;
    }
    Ok(())
}

/// Adds the packets that no line asks for, as lines to insert.
#[tactic(auto, using(crate::proofs::BlockLemmas::no_lines))]
fn put_insertions_if_wrong_packet(
    alloc: Global,
    out: &mut Vec<u8>,
    cause: &Cause,
) -> Result<(), AllocError>
    ensures { OnOk result (AddsLines out.old.items out.new.items) }
{
    match cause {
        Cause::Failed(
            Failure {
                failed: Failed::Packet(packets),
                unmatched,
                ..
            },
        ) => put_insertions_of_unexpected_packets(alloc, out, packets, unmatched),
        _ => Ok(()),
    }
}

/// The same of a packet that differs: it is the first of them, and other unmatched ones follow it.
#[tactic(auto, using(crate::proofs::BlockLemmas::no_lines, crate::proofs::BlockLemmas::then_lines))]
fn put_insertions_of_unexpected_packets(
    alloc: Global,
    out: &mut Vec<u8>,
    packets: &WrongPacket,
    unmatched: &Unmatched,
) -> Result<(), AllocError>
    ensures { OnOk result (AddsLines out.old.items out.new.items) }
{
    let mut left = packets.unexpected;
    if left == 0 {
        return Ok(());
    }
    put_fact(
        alloc,
        out,
        "mend by inserting",
        FactValue::Octets(&packets.actual),
    )?;
    for packet in &unmatched.packets {
        left = left.saturating_sub(1);
        if left > 0 {
            put_fact(alloc, out, "mend by inserting", FactValue::Octets(packet))?;
        }
    }
    Ok(())
}

/// Adds the packets that were put out and not taken, and how the sender stands.
#[tactic(auto, using(crate::proofs::BlockLemmas::then_lines))]
fn put_unmatched_and_sender(
    alloc: Global,
    out: &mut Vec<u8>,
    unmatched: &Unmatched,
    origins: &[Origin],
    sender: &SenderSnapshot,
) -> Result<(), AllocError>
    ensures { OnOk result (AddsLines out.old.items out.new.items) }
{
    put_unmatched(alloc, out, unmatched, origins)?;
    put_sender_state_line(alloc, out, sender)
}

/// Adds the packets that were put out and not taken, each with what let it go.
#[tactic(auto, using(crate::proofs::BlockLemmas::no_lines, crate::proofs::BlockLemmas::then_lines))]
fn put_unmatched(
    alloc: Global,
    out: &mut Vec<u8>,
    unmatched: &Unmatched,
    origins: &[Origin],
) -> Result<(), AllocError>
    ensures { OnOk result (AddsLines out.old.items out.new.items) }
{
    for (place, packet) in unmatched.packets.iter().enumerate() {
        let value = FactValue::Packet(packet, origins.get(place).copied());
        put_fact(alloc, out, "untaken packet", value)?;
    }
    if unmatched.more > 0 {
        let more = FactValue::Number(unmatched.more as u64);
        put_fact(alloc, out, "more untaken packets", more)?;
    }
    Ok(())
}

/// Whether PRR's counts are among the facts of a sender.
fn has_prr_counts(sender: &SenderSnapshot) -> bool {
    match sender.connection_snapshot {
        Some(connection_snapshot) => match connection_snapshot.windows {
            Some(windows) => windows.prr.is_some(),
            None => false,
        },
        None => false,
    }
}

/// Adds how the sender stands, in one line, which isn't cut where it has PRR's counts too.
fn put_sender_state_line(
    alloc: Global,
    out: &mut Vec<u8>,
    sender: &SenderSnapshot,
) -> Result<(), AllocError>
    ensures { OnOk result (AddsLines out.old.items out.new.items) }
{
    let mut line = Vec::new(alloc);
    put_words(&mut line, "state: ")?;
    put_sender_state_and_facts(alloc, &mut line, sender)?;
    if has_prr_counts(sender) {
        return put_whole_report_line(alloc, out, &line);
    }
    put_truncated_report_line(alloc, out, &line)
}

/// How a sender stands: the name of its state, and its numbers, each after its name and a colon, with a blank before each.
///
/// # Errors
/// `AllocError` where a growth is refused.
pub fn sender_state_text(alloc: Global, sender: &SenderSnapshot) -> Result<Vec<u8>, AllocError> {
    let mut out = Vec::new(alloc);
    put_sender_state_and_facts(alloc, &mut out, sender)?;
    Ok(out)
}

fn put_sender_state_and_facts(
    alloc: Global,
    out: &mut Vec<u8>,
    sender: &SenderSnapshot,
) -> Result<(), AllocError> {
    put_words(out, state_name(sender.state))?;
    for fact in &facts_of_sender_without_state_name(alloc, sender)? {
        put_inline_fact(alloc, out, fact)?;
    }
    Ok(())
}

fn put_inline_fact(alloc: Global, out: &mut Vec<u8>, fact: &Fact<'_>) -> Result<(), AllocError> {
    put_words(out, " ")?;
    put_words(out, fact.label)?;
    put_words(out, ":")?;
    put_value(alloc, out, fact.value)
}

/// Adds the line of what a rule is about, marked, what is run in its place, and how the script may be mended.
#[tactic(auto, using(crate::proofs::BlockLemmas::then_lines))]
fn put_violation(
    alloc: Global,
    out: &mut Vec<u8>,
    violation: &RuleViolation,
) -> Result<(), AllocError>
    ensures { OnOk result (AddsLines out.old.items out.new.items) }
{
    put_line_with_mark(alloc, out, &violation.part.text, violation.part.column)?;
    put_named_words_if_some(
        alloc,
        out,
        "found",
        violation.rule.flag_meanings_text_if_flag_rule(),
    )?;
    put_alternatives(alloc, out, &violation.alternatives)?;
    put_named_words_if_some(
        alloc,
        out,
        "mend",
        violation.rule.import_advice_if_header_rule(),
    )
}

/// Adds the calls or flags that are run, where they are reported.
#[tactic(auto, using(crate::proofs::BlockLemmas::no_lines))]
fn put_alternatives(
    alloc: Global,
    out: &mut Vec<u8>,
    alternatives: &[Vec<u8>],
) -> Result<(), AllocError>
    ensures { OnOk result (AddsLines out.old.items out.new.items) }
{
    if alternatives.is_empty() {
        return Ok(());
    }
    put_labeled_list(alloc, out, "runs:", alternatives)
}

/// Adds the line at which no script goes on, its token marked, and what could be there.
#[tactic(auto, using(crate::proofs::BlockLemmas::then_lines))]
fn put_refusal(alloc: Global, out: &mut Vec<u8>, refusal: &Refusal) -> Result<(), AllocError>
    ensures { OnOk result (AddsLines out.old.items out.new.items) }
{
    match refusal.mark {
        Some(mark) => put_line_with_mark(alloc, out, &refusal.text, mark)?,
        None => put_refused_end_of_text(alloc, out, &refusal.text)?,
    }
    put_named_words_if_some(alloc, out, "found", refusal.foreign_syntax_in_words())?;
    put_labeled_list(alloc, out, "expected:", &refusal.expected)
}

/// Adds a line, and that it is the end of the text that is refused.
#[tactic(auto, using(crate::proofs::BlockLemmas::then_lines))]
fn put_refused_end_of_text(alloc: Global, out: &mut Vec<u8>, text: &[u8]) -> Result<(), AllocError>
    ensures { OnOk result (AddsLines out.old.items out.new.items) }
{
    put_truncated_report_line(alloc, out, text)?;
    put_truncated_report_line(alloc, out, b"at the end of the text")
}
