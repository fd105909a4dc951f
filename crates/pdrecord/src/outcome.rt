//! A script's outcome: the octets of its recording, or the line `pdrecord: REASON` of a refusal with those that explain it.
ghost use Rattle.std.specs.Prelude.{◌≡◌, ℕ, List, IfOk, IfErr, codes};
ghost use Rattle.pd_explain.specs.BlockLines.{AreIndented};
ghost use Rattle.pd_protocol.specs.Verdicts.{verdict_text};
ghost use Rattle.pdrecord.specs.RecordProgram.{Explains, IsReasonText, IsRefused, IsUnmade, verdict_with_line_replaced, refusal_line};

use crate::script_input::ScriptInput;
use crate::stop_cause::cause_of_verdict;
use pd_explain::cause_text;
use pd_protocol::{ServeFault, put_verdict};
use pd_record::RecordError;
use pd_run::Verdict;
use pd_settings::Settings;
use pd_text::Lines;
use std::alloc::{AllocError, Global};

/// The outcome of a script.
#[derive(Drop)]
pub enum Outcome {
    /// The octets of its recording.
    Recorded(Vec<u8>),
    /// The line that reports why it isn't recorded, and those that explain it.
    Refused(Vec<u8>),
}

/// The outcome of a script that isn't recorded.
///
/// # Errors
/// `Differs` where its recording differs from the recorded events; `OutOfMemory`.
#[tactic(auto, using(crate::proofs::Below::is_refused))]
pub fn refused_outcome_with_explanation(
    alloc: Global,
    refusal: RecordError,
    input: &ScriptInput,
    settings: &Settings,
) -> Result<Outcome, ServeFault>
    ensures refused { IfOk result (λ outcome. IsRefused refusal outcome) }
    ensures only { IfErr result IsUnmade }
{
    let reason = refusal_reason_text(alloc, refusal, input)?;
    let mut message = refusal_line(alloc, reason.as_slice())?;
    let below = cause_lines_of_refusal(alloc, refusal, input, settings)?;
    message.extend_from_slice(below.as_slice())?;
    Ok(Outcome::Refused(message))
}

/// The lines below the one that reports why a script isn't recorded: those of a block where the script is why, else none.
#[tactic(auto, using(crate::proofs::Below::explains_none))]
fn cause_lines_of_refusal(
    alloc: Global,
    refusal: RecordError,
    input: &ScriptInput,
    settings: &Settings,
) -> Result<Vec<u8>, AllocError>
    ensures { IfOk result (λ below. Explains refusal below.items) }
{
    match (refusal, &input.lines) {
        (RecordError::Stopped(verdict), Some(lines)) => {
            stop_cause_lines(alloc, lines, settings, verdict)
        }
        _ => Ok(Vec::new(alloc)),
    }
}

/// The lines of the block of a verdict with which recording a text stops, below its first one.
#[tactic(auto, using(crate::proofs::Below::no_lines))]
fn stop_cause_lines(
    alloc: Global,
    lines: &Lines,
    settings: &Settings,
    verdict: Verdict,
) -> Result<Vec<u8>, AllocError>
    ensures { IfOk result (λ below. AreIndented below.items) }
{
    match cause_of_verdict(alloc, lines, settings, verdict)? {
        Some(cause) => cause_text(alloc, &cause),
        None => Ok(Vec::new(alloc)),
    }
}

/// Why a script isn't recorded, as the program reports it.
fn refusal_reason_text(
    alloc: Global,
    refusal: RecordError,
    input: &ScriptInput,
) -> Result<Vec<u8>, ServeFault>
    ensures reason_given { IfOk result (λ reason. IsReasonText refusal reason.items) }
    ensures only { IfErr result IsUnmade }
{
    match refusal {
        RecordError::Stopped(verdict) => {
            let mut row = Vec::new(alloc);
            let line = input.input_line_of(line_of_verdict_or_zero(verdict));
            put_verdict(&mut row, verdict_with_line_replaced(verdict, line))?;
            Ok(row)
        }
        RecordError::TooLarge => Ok(Vec::from_slice(alloc, b"2 TooLarge")?),
        RecordError::TooManyEvents => Ok(Vec::from_slice(alloc, b"21 TooManyEvents")?),
        RecordError::TooLongGap => Ok(Vec::from_slice(alloc, b"22 TooLongGap")?),
        RecordError::Differs => Err(ServeFault::Differs),
        RecordError::OutOfMemory => Err(ServeFault::OutOfMemory),
    }
}

/// The line that a verdict names; 0 where it names none.
fn line_of_verdict_or_zero(verdict: Verdict) -> usize {
    match verdict {
        Verdict::Pass(_) => 0,
        Verdict::Fail(line, _)
        | Verdict::Syntax(line)
        | Verdict::Unsupported(line)
        | Verdict::Limit(line) => line,
    }
}

/// A verdict at another line.
pub fn verdict_with_line_replaced(verdict: Verdict, line: usize) -> Verdict
    ensures { result ≡ verdict_with_line_replaced line verdict }
{
    match verdict {
        Verdict::Pass(events) => Verdict::Pass(events),
        Verdict::Fail(_, kind) => Verdict::Fail(line, kind),
        Verdict::Syntax(_) => Verdict::Syntax(line),
        Verdict::Unsupported(_) => Verdict::Unsupported(line),
        Verdict::Limit(_) => Verdict::Limit(line),
    }
}

/// The line that reports why a script isn't recorded.
pub fn refusal_line(alloc: Global, reason: &[u8]) -> Result<Vec<u8>, AllocError>
    ensures { IfOk result (λ line. line.items ≡ refusal_line reason.now) }
{
    let mut line = Vec::from_slice(alloc, b"pdrecord: ")?;
    line.extend_from_slice(reason)?;
    line.extend_from_slice(b"\n")?;
    Ok(line)
}
