//! Whole runs.
ghost use Rattle.std.specs.Prelude.{◌≡◌, ◌+◌, ◌<◌, ◌≤◌, ◌^◌, IfOk, OnOk, length};
ghost use Rattle.pd_host.specs.Host.{fresh_host};
ghost use Rattle.pd_run.specs.Grammatical.{IsVerdictOf};
ghost use Rattle.pd_run.specs.Run.{verdict_of, stepped_of, verdict_from, stepped_from};

use crate::laws::{
    law_sender_deadline_ahead_and_queue_bounded, law_verdicts_are_of_grammar_scripts,
};
use crate::run_state::RunState;
use crate::stepper::{Plain, StepEnd, Stepper};
use crate::verdict::Verdict;
use pd_script::{Event, parse};
use pd_settings::Settings;
use pd_text::Lines;
use std::alloc::{AllocError, Global};

/// The verdict of a text under settings, run from its first event on a fresh host.
///
/// # Errors
/// `AllocError` where a growth is refused.
pub fn run_all(alloc: Global, lines: &Lines, settings: &Settings) -> Result<Verdict, AllocError>
    ensures verdict { IfOk result (λ verdict. verdict ≡ verdict_of lines.now settings.now) }
    ensures grammar { IfOk result (IsVerdictOf lines.now settings.now) }
{
    law_verdicts_are_of_grammar_scripts();
    run_with_stepper(alloc, lines, settings, &mut Plain::new())
}

/// As `run_all`, with the stepper that takes the steps: as many as there are events up to the stop, the stop's included,
/// and none for a text that the grammar or the header refuses. The stepper has room for 4,096 steps.
///
/// # Errors
/// `AllocError` where a growth is refused, or the stepper answers it.
pub fn run_with_stepper<S: Stepper>(
    alloc: Global,
    lines: &Lines,
    settings: &Settings,
    stepper: &mut S,
) -> Result<Verdict, AllocError>
    requires room { S.counted stepper.old + 4096 < 2 ^ 64 }
    ensures verdict { IfOk result (λ verdict. verdict ≡ verdict_of lines.now settings.now) }
    ensures steps { OnOk result (S.counted stepper.new ≡ S.counted stepper.old + stepped_of lines.now settings.now) }
    ensures few { OnOk result (S.counted stepper.new ≤ S.counted stepper.old + 4096) }
{
    let parsed = parse(alloc, lines)?;
    if let Some(line) = parsed.fault {
        return Ok(Verdict::Syntax(line));
    }
    match RunState::new(alloc, &parsed.header, settings) {
        Ok(state) => run_events(parsed.events.as_slice(), settings, state, stepper),
        Err(verdict) => Ok(verdict),
    }
}

fn run_events<S: Stepper>(
    events: &[Event],
    settings: &Settings,
    start: RunState,
    stepper: &mut S,
) -> Result<Verdict, AllocError>
    requires few { length events.now ≤ 4096 }
    requires fresh { start.host ≡ fresh_host settings.now }
    requires clock { start.clock ≡ 0 }
    requires base { start.base ≡ 0 }
    requires room { S.counted stepper.old + 4096 < 2 ^ 64 }
    ensures verdict { IfOk result (λ verdict. verdict ≡ verdict_from 0 events.now start) }
    ensures steps { OnOk result (S.counted stepper.new ≡ S.counted stepper.old + stepped_from events.now start) }
    ensures few { OnOk result (S.counted stepper.new ≤ S.counted stepper.old + 4096) }
{
    law_sender_deadline_ahead_and_queue_bounded();
    let mut state = start;
    let mut passed = 0;
    for event in events {
        match stepper.step(&mut state, event, settings)? {
            StepEnd::Go => passed += 1,
            StepEnd::Stop(verdict) => return Ok(verdict),
        }
    }
    Ok(Verdict::Pass(passed))
}
