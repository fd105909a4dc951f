//! The outcome of a script that is recorded by the least change.
ghost use Rattle.std.specs.Prelude.{◌≡◌, IfOk, IfErr};
ghost use Rattle.pd_run.specs.Run.{verdict_of};
ghost use Rattle.pd_explain.specs.BlockLines.{AreIndented};
ghost use Rattle.pdrecord.specs.RecordProgram.{IsMendedText, IsRefused, IsUnmade, IsReasonText};

use crate::outcome::{
    Outcome, refusal_line, refused_outcome_with_explanation, verdict_with_line_replaced,
};
use crate::script_input::ScriptInput;
use crate::trace_text::recording_octets;
use pd_cause::explain_by_rerun_unless_pass;
use pd_explain::cause_text;
use pd_mend::{MendError, Mended, Unmendable, mend_script};
use pd_protocol::{ServeFault, put_verdict};
use pd_record::{RecordError, Recording};
use pd_run::Verdict;
use pd_settings::Settings;
use pd_text::Lines;
use std::alloc::{AllocError, Global};

/// The outcome of a text that is recorded by the least change.
///
/// # Errors
/// `Differs` and `OutOfMemory`.
#[tactic(auto, using(crate::proofs::MendedTexts::is_mended_text, crate::proofs::MendedTexts::own_verdict, crate::proofs::MendedTexts::is_stopped_text, crate::proofs::MendedTexts::is_large_text))]
pub fn outcome_of_mending(
    alloc: Global,
    input: &ScriptInput,
    lines: &Lines,
    settings: &Settings,
    drop: bool,
) -> Result<Outcome, ServeFault>
    ensures outcome { IfOk result (IsMendedText settings.now lines.now) }
    ensures only { IfErr result IsUnmade }
{
    match mend_script(alloc, lines, settings, drop) {
        Ok(mended) => {
            let recording = untraced_recording_of_mended(alloc, mended);
            Ok(Outcome::Recorded(recording_octets(alloc, &recording, false)?))
        }
        Err(MendError::Stopped(unmendable)) => {
            let line = input.input_line_of(unmendable.line);
            let outcome = refused_outcome_of_unmendable(alloc, &unmendable, line, settings)?;
            Ok(outcome)
        }
        Err(MendError::TooLarge) => {
            let outcome = refused_outcome_with_explanation(
                alloc,
                RecordError::TooLarge,
                input,
                settings,
            )?;
            Ok(outcome)
        }
        Err(MendError::OutOfMemory) => Err(ServeFault::OutOfMemory),
    }
}

/// A mended text, without a trace.
fn untraced_recording_of_mended(alloc: Global, mended: Mended) -> Recording
    ensures { result.lines ≡ mended.lines }
{
    Recording {
        lines: mended.lines,
        events: mended.events,
        trace_entries: Vec::new(alloc),
    }
}

/// The outcome of a text at which no mend helps: its verdict at a line, and the lines that explain it.
#[tactic(auto, using(crate::proofs::Below::is_stopped))]
fn refused_outcome_of_unmendable(
    alloc: Global,
    unmendable: &Unmendable,
    line: usize,
    settings: &Settings,
) -> Result<Outcome, ServeFault>
    requires { unmendable.now.verdict ≡ verdict_of unmendable.now.lines settings.now }
    ensures refusal_of_unmendable { IfOk result (IsRefused (RecordError.Stopped unmendable.now.verdict)) }
    ensures only { IfErr result IsUnmade }
{
    let reason = verdict_text_at_line(alloc, unmendable.verdict, line)?;
    let mut message = refusal_line(alloc, reason.as_slice())?;
    let below = cause_lines_of_unmendable(alloc, unmendable, settings)?;
    message.extend_from_slice(below.as_slice())?;
    Ok(Outcome::Refused(message))
}

/// A verdict at a line, as a report has it.
fn verdict_text_at_line(alloc: Global, verdict: Verdict, line: usize) -> Result<Vec<u8>, ServeFault>
    ensures reason_given { IfOk result (λ reason. IsReasonText (RecordError.Stopped verdict) reason.items) }
    ensures only { IfErr result IsUnmade }
{
    let mut row = Vec::new(alloc);
    put_verdict(&mut row, verdict_with_line_replaced(verdict, line))?;
    Ok(row)
}

/// The lines that explain the verdict of a text at which no mend helps, without origins, whose lines would be the mended text's.
#[tactic(auto, using(crate::proofs::Below::no_lines))]
fn cause_lines_of_unmendable(
    alloc: Global,
    unmendable: &Unmendable,
    settings: &Settings,
) -> Result<Vec<u8>, AllocError>
    requires { unmendable.now.verdict ≡ verdict_of unmendable.now.lines settings.now }
    ensures { IfOk result (λ below. AreIndented below.items) }
{
    match explain_by_rerun_unless_pass(alloc, &unmendable.lines, settings, unmendable.verdict)? {
        Some(explanation) => cause_text(
            alloc,
            &explanation.cause.without_origins_and_dropped(alloc),
        ),
        None => Ok(Vec::new(alloc)),
    }
}
