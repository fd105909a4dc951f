//! Mends a script until it passes.
ghost use Rattle.std.specs.Prelude.{◌≡◌, true, IfOk, IfErr, MatchOption};
ghost use Rattle.pd_run.specs.Grammatical.{IsVerdictOf};
ghost use Rattle.pd_run.specs.Run.{verdict_of};
ghost use Rattle.pd_run.specs.declared.verdict.Verdict.TheVariants.{Pass};
ghost use Rattle.pd_mend.specs.Mending.{IsNoPass, IsUnfinished, takes_all_sent_packets_or_awaits_none};
ghost use Rattle.pd_mend.specs.Mended.{IsFinished, IsMended, RefusesToMend};
ghost use Rattle.pd_mend.specs.Inner.{IsUnmendable};

use crate::leftovers::takes_all_sent_packets_or_awaits_none;
use crate::mend_error::{MendError, Unmendable};
use crate::mender::{Mender, line_of_verdict_or_zero};
use crate::moved_lines::MovedLines;
use pd_run::{Verdict, run_all};
use pd_settings::Settings;
use pd_text::Lines;
use std::alloc::{AllocError, Global};

/// The most mends of a text: four for each event that a script may have.
const MAX_MENDS: usize = 16_384;

/// A mended text.
#[derive(Drop)]
pub struct Mended {
    /// Its lines.
    pub lines: Lines,
    /// How many events it has.
    pub events: usize,
}

/// Mends a text under settings until it passes, and takes all packets that leave if it awaits any. Where its run fails, the line at
/// which it stops is written anew by as little as makes it hold; where a packet left earlier, or no line asked for it, a line is put
/// where it left; and the text is run again. So each mend costs a run of the text, or a few. A packet that is awaited and doesn't
/// come is made a comment, or with `drop` taken away. A line whose packet leaves elsewhere moves there: that is known only once all
/// is mended, so the text is mended once more then.
///
/// # Errors
/// `Stopped` where the run stops and no mend helps, `TooLarge` where a mended text would be over the limits of one, and
/// `OutOfMemory`.
pub fn mend_script(
    alloc: Global,
    lines: &Lines,
    settings: &Settings,
    drop: bool,
) -> Result<Mended, MendError>
    ensures mended { IfOk result (λ mended. IsMended settings.now lines.now mended.lines mended.events) }

    // By the grammar.
    ensures grammar { IfOk result (λ mended. IsVerdictOf mended.lines settings.now (Pass mended.events)) }
    ensures refused { IfErr result (RefusesToMend settings.now lines.now) }

    // A text that passes and takes all packets stays as it is.
    ensures stays { IfOk result (λ mended. IsFinished settings.now lines.now → mended.lines ≡ lines.now) }
    ensures spared { IfErr result (λ refusal. IsFinished settings.now lines.now → refusal ≡ MendError.OutOfMemory) }
{
    let mut mender = Mender::new(alloc, lines.len(), drop, MovedLines::new(alloc))?;
    let first = mend_until_passed(alloc, lines, settings, &mut mender)?;
    let moved_lines = mender.into_lines_found_to_move(alloc)?;
    if moved_lines.is_empty() {
        return Ok(first);
    }
    let mut again = Mender::new(alloc, lines.len(), drop, moved_lines)?;
    match mend_until_passed(alloc, lines, settings, &mut again) {
        Ok(second) => Ok(second),
        Err(MendError::OutOfMemory) => Err(MendError::OutOfMemory),
        Err(_) => Ok(first),
    }
}

/// Mends a text mend by mend.
#[tactic(auto, using(crate::proofs::Leading::starts, crate::proofs::Leading::goes_on, crate::proofs::Leading::ends, crate::proofs::Leading::is_stuck, crate::proofs::Leading::is_unmade, crate::proofs::Leading::spared_unmade, crate::proofs::Leading::spared_stuck))]
fn mend_until_passed(
    alloc: Global,
    lines: &Lines,
    settings: &Settings,
    mender: &mut Mender,
) -> Result<Mended, MendError>
    ensures mended { IfOk result (λ mended. IsMended settings.now lines.now mended.lines mended.events) }
    ensures grammar { IfOk result (λ mended. IsVerdictOf mended.lines settings.now (Pass mended.events)) }
    ensures refused { IfErr result (RefusesToMend settings.now lines.now) }
    ensures stays { IfOk result (λ mended. IsFinished settings.now lines.now → mended.lines ≡ lines.now) }
    ensures spared { IfErr result (λ refusal. IsFinished settings.now lines.now → refusal ≡ MendError.OutOfMemory) }
{
    let mut text = lines.copy()?;
    for _ in 0..MAX_MENDS {
        let verdict = run_all(alloc, &text, settings)?;
        if let Some(events) = event_count_if_passed_and_all_taken(
            alloc, &text, settings, verdict,
        )? {
            return Ok(Mended {
                lines: text,
                events,
            });
        }
        match mender.mend_next_failure_or_leftover(alloc, &text, settings, verdict)? {
            Some(next) => text = next,
            None => return Err(unmendable_error(text, verdict, mender)),
        }
    }
    let verdict = run_all(alloc, &text, settings)?;
    match event_count_if_passed_and_all_taken(alloc, &text, settings, verdict)? {
        Some(events) => Ok(Mended {
            lines: text,
            events,
        }),
        None => Err(unmendable_error(text, verdict, mender)),
    }
}

/// How many events a text has that is finished: all pass, and all packets are taken.
fn event_count_if_passed_and_all_taken(
    alloc: Global,
    text: &Lines,
    settings: &Settings,
    verdict: Verdict,
) -> Result<Option<usize>, AllocError>
    requires { verdict ≡ verdict_of text.now settings.now }
    ensures unfinished { IfOk result (λ end. MatchOption end (IsUnfinished settings.now text.now) (λ events. (verdict ≡ Pass events) × (takes_all_sent_packets_or_awaits_none settings.now text.now ≡ true))) }
{
    let Some(events) = event_count_if_verdict_is_pass(verdict) else {
        return Ok(None);
    };
    if takes_all_sent_packets_or_awaits_none(alloc, text, settings)? {
        Ok(Some(events))
    } else {
        Ok(None)
    }
}

/// How many events passed, where all did.
fn event_count_if_verdict_is_pass(verdict: Verdict) -> Option<usize>
    ensures { MatchOption result (IsNoPass verdict) (λ events. verdict ≡ Pass events) }
{
    match verdict {
        Verdict::Pass(events) => Some(events),
        _ => None,
    }
}

/// The refusal of a text at whose verdict no mend helps.
fn unmendable_error(lines: Lines, verdict: Verdict, mender: &Mender) -> MendError
    ensures { IsUnmendable lines verdict result }
{
    MendError::Stopped(Unmendable {
        line: mender.given_line_of(line_of_verdict_or_zero(verdict)),
        lines,
        verdict,
    })
}
