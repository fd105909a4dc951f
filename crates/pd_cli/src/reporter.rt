//! A writer that reports each finished job as the options ask: its steps, the rules that it comes to, and why it doesn't pass.
ghost use Rattle.std.specs.Prelude.{◌≡◌, ◌++◌, ℕ, [], if◌then◌else◌, IfOk, OnOk};
ghost use Rattle.pd_protocol.specs.ChosenOptions.{report_options_of};
ghost use Rattle.pd_cli.specs.StepLines.{FinishedJob, job_words, rule_lines_of, step_line};
ghost use Rattle.pd_cli.specs.Reported.{IsExplained, IsReport};

use crate::explanations::explanation_or_leftovers_if_asked;
use crate::observer::JobObserver;
use pd_book::Done;
use pd_explain::rule_lines;
use pd_protocol::{Options, write_all_or_false};
use std::alloc::{AllocError, Global};
use std::io::Write;

/// A writer that reports each job.
#[derive(Drop)]
pub(crate) struct Reporter<'a, 'b, E> {
    /// The allocator of the reports.
    pub alloc: Global,
    /// Where it is written.
    pub err: &'a mut E,
    /// The options, which say what to report of each job.
    pub options: &'b Options<'b>,
    /// Whether all reports are on the writer. After a failed write nothing more is reported.
    pub stderr_ok: bool,
}

impl<'a, 'b, E: Write> JobObserver for Reporter<'a, 'b, E> {
    ghost use Rattle.std.specs.Prelude.{◌≡◌};
    ghost use Rattle.pd_protocol.specs.ChosenOptions.{report_options_of};
    ghost use Rattle.pd_cli.specs.Reported.{ReportsJob};

    ghost observes = { λ old new job. (new.err.ghost_name ≡ old.err.ghost_name) × (report_options_of new.options.now ≡ report_options_of old.options.now) × ReportsJob (report_options_of old.options.now) old.stderr_ok new.stderr_ok (E.contents old.err.now) (E.contents new.err.now) job };

    fn on_job_finished(&mut self, done: &Done, steps: u64) -> Result<(), AllocError> {
        if self.stderr_ok {
            let lines = lines_asked_for(self.alloc, self.options, done, steps)?;
            self.stderr_ok = write_all_or_false(self.err, lines.as_slice());
        }
        Ok(())
    }
}

/// The report of a job: its line of steps and its lines on rules where these are asked for, then its block where explanations
/// are.
#[tactic(auto, using(crate::proofs::Reported::reported_as_asked))]
fn lines_asked_for(
    alloc: Global,
    options: &Options<'_>,
    done: &Done,
    steps: u64,
) -> Result<Vec<u8>, AllocError>
    ensures { IfOk result (λ lines. IsReport (report_options_of options.now) (record { task = done.now; steps = steps }) lines.items) }
{
    let mut lines = Vec::new(alloc);
    put_step_count_line_if_asked(alloc, &mut lines, options.steps, done, steps)?;
    put_rule_lines_if_asked(alloc, &mut lines, options.rules, done)?;
    let block = block_if_asked(alloc, options, done)?;
    lines.extend_from_slice(block.as_slice())?;
    Ok(lines)
}

/// Adds the line of steps of a job, where it is asked for.
fn put_step_count_line_if_asked(
    alloc: Global,
    out: &mut Vec<u8>,
    is_asked: bool,
    done: &Done,
    steps: u64,
) -> Result<(), AllocError>
    ensures { OnOk result (out.new.items ≡ out.old.items ++ (if is_asked then step_line (record { task = done.now; steps = steps }) else [])) }
{
    if is_asked {
        return put_job_step_count_line(alloc, out, done, steps);
    }
    Ok(())
}

/// Adds the lines on the rules of a job, where they are asked for.
fn put_rule_lines_if_asked(
    alloc: Global,
    out: &mut Vec<u8>,
    is_asked: bool,
    done: &Done,
) -> Result<(), AllocError>
    ensures { OnOk result (out.new.items ≡ out.old.items ++ (if is_asked then rule_lines_of done.now else [])) }
{
    if is_asked {
        return put_rule_lines(alloc, out, done);
    }
    Ok(())
}

/// The block of a job, where explanations are asked for.
fn block_if_asked(alloc: Global, options: &Options<'_>, done: &Done) -> Result<Vec<u8>, AllocError>
    ensures { (steps : ℕ) → IfOk result (λ block. IsExplained (report_options_of options.now).explain (record { task = done.now; steps = steps }) block.items) }
{
    match &options.explain {
        Some(explain_options) => explanation_or_leftovers_if_asked(alloc, explain_options, done),
        None => Ok(Vec::new(alloc)),
    }
}

/// Adds the line of a job that was finished.
fn put_job_step_count_line(
    alloc: Global,
    out: &mut Vec<u8>,
    done: &Done,
    steps: u64,
) -> Result<(), AllocError>
    ensures { OnOk result (out.new.items ≡ out.old.items ++ step_line (record { task = done.now; steps = steps })) }
{
    let number = done.number().to_string(alloc)?;
    let steps = steps.to_string(alloc)?;
    out.extend_from_slice(b"job ")?;
    out.extend_from_slice(number.as_bytes())?;
    out.extend_from_slice(b" ")?;
    out.extend_from_slice(done.name().as_slice())?;
    out.extend_from_slice(b" steps ")?;
    out.extend_from_slice(steps.as_bytes())?;
    out.extend_from_slice(b"\n")
}

/// Adds the lines on the rules of the sender that the events of a job come to.
fn put_rule_lines(alloc: Global, out: &mut Vec<u8>, done: &Done) -> Result<(), AllocError>
    ensures { OnOk result (out.new.items ≡ out.old.items ++ rule_lines_of done.now) }
{
    let of = job_words(alloc, done)?;
    let lines = rule_lines(alloc, of.as_slice(), done.text().lines(), &done.settings())?;
    out.extend_from_slice(lines.as_slice())
}

/// The octets that say of which job a line is.
fn job_words(alloc: Global, done: &Done) -> Result<Vec<u8>, AllocError>
    ensures { IfOk result (λ words. words.items ≡ job_words done.now) }
{
    let number = done.number().to_string(alloc)?;
    let mut words = Vec::from_slice(alloc, b"job ")?;
    words.extend_from_slice(number.as_bytes())?;
    words.extend_from_slice(b" ")?;
    words.extend_from_slice(done.name().as_slice())?;
    Ok(words)
}
