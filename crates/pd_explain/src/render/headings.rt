//! The result of a row, in words.
ghost use Rattle.std.specs.Prelude.{◌≡◌, IfOk};
ghost use Rattle.pd_explain.specs.Headings.{verdict_name, verdict_name_with_kind, verdict_words, kind_words, unexpected_count, words_after_unexpected_count, explanation_words};

use pd_cause::{Cause, Explanation, Failed, Leftovers};
use pd_match::Kind;
use pd_run::Verdict;
use std::alloc::{AllocError, Global};

/// The name of a verdict, as in a report.
pub fn verdict_name(verdict: Verdict) -> &'static str
    ensures { result.now ≡ verdict_name verdict }
{
    match verdict {
        Verdict::Pass(_) => "pass",
        Verdict::Fail(_, _) => "fail",
        Verdict::Syntax(_) => "syntax",
        Verdict::Unsupported(_) => "unsupported",
        Verdict::Limit(_) => "limit",
    }
}

/// The name of a verdict, of a failure with its kind.
///
/// # Errors
/// `AllocError` where a growth is refused.
pub fn verdict_name_with_kind(alloc: Global, verdict: Verdict) -> Result<Vec<u8>, AllocError>
    ensures { IfOk result (λ name. name.items ≡ verdict_name_with_kind verdict) }
{
    let mut name = Vec::from_slice(alloc, verdict_name(verdict).as_bytes())?;
    if let Verdict::Fail(_, kind) = verdict {
        name.extend_from_slice(b" ")?;
        name.extend_from_slice(kind.word().as_bytes())?;
    }
    Ok(name)
}

/// The words of a verdict.
fn verdict_words(verdict: Verdict) -> &'static str
    ensures { result.now ≡ verdict_words verdict }
{
    match verdict {
        Verdict::Pass(_) => "all events passed",
        Verdict::Fail(_, kind) => kind_words(kind),
        Verdict::Syntax(_) => "the text is no script",
        Verdict::Unsupported(_) => "the sender doesn't run this",
        Verdict::Limit(_) => "a number is over its limit",
    }
}

fn kind_words(kind: Kind) -> &'static str
    ensures { result.now ≡ kind_words kind }
{
    match kind {
        Kind::Time => "the packet was sent at another time",
        Kind::Flags => "the packet has other flags",
        Kind::Seq => "the packet has other octets",
        Kind::Ack => "the packet has another acknowledgment number",
        Kind::Win => "the packet has another window",
        Kind::Options => "the packet has other options",
        Kind::Result => "the call has another result",
        Kind::Missing => "no packet was sent in time",
        Kind::Backwards => "the event's time lies before that of the event before it",
    }
}

/// The first words of an explanation: those of its verdict, or that no line expects packets before the awaited one.
///
/// # Errors
/// `AllocError` where a growth is refused.
pub fn verdict_or_packets_before_awaited_words(
    alloc: Global,
    explanation: &Explanation,
) -> Result<Vec<u8>, AllocError>
    ensures { IfOk result (λ words. words.items ≡ explanation_words explanation.now) }
{
    let count = unexpected_count_or_zero(&explanation.cause);
    let mut words = Vec::new(alloc);
    if count == 0 {
        words.extend_from_slice(verdict_words(explanation.verdict).as_bytes())?;
        return Ok(words);
    }
    words.extend_from_slice(count.to_string(alloc)?.as_bytes())?;
    words.extend_from_slice(words_after_unexpected_count(count).as_bytes())?;
    words.extend_from_slice(b" asked for by no line")?;
    Ok(words)
}

/// The words for packets that no line asks for, after their count.
fn words_after_unexpected_count(count: usize) -> &'static str
    ensures { result.now ≡ words_after_unexpected_count count }
{
    if count == 1 {
        " packet before it is"
    } else {
        " packets before it are"
    }
}

/// How many packets before the awaited one no line asks for.
fn unexpected_count_or_zero(cause: &Cause) -> usize
    ensures { result ≡ unexpected_count cause.now }
{
    match cause {
        Cause::Failed(failure) => match &failure.failed {
            Failed::Packet(packets) => packets.unexpected,
            Failed::Missing(_) | Failed::Result(_) | Failed::Backwards(_) => 0,
        },
        Cause::Syntax(_) | Cause::Rule(_) => 0,
    }
}

/// The words for the packets that a script that passes leaves at its end.
///
/// # Errors
/// `AllocError` where a growth is refused.
pub fn leftovers_words(alloc: Global, leftovers: &Leftovers) -> Result<Vec<u8>, AllocError> {
    let count = leftovers.unmatched.count();
    let mut words = Vec::new(alloc);
    if !leftovers.awaits {
        words.extend_from_slice(b"it awaits no packet")?;
        if count == 0 {
            return Ok(words);
        }
        words.extend_from_slice(b", and ")?;
    }
    words.extend_from_slice(count.to_string(alloc)?.as_bytes())?;
    words.extend_from_slice(if count == 1 {
        b" packet stands".as_slice()
    } else {
        b" packets stand".as_slice()
    })?;
    words.extend_from_slice(b" untaken at its end")?;
    Ok(words)
}
