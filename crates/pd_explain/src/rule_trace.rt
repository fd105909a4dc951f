//! The rules of the sender that the events of a script come to, as lines: rules of sending, checks, phases that the sender
//! enters, and what an event does to it.
ghost use Rattle.std.specs.Prelude.{◌≡◌, ◌==◌, ◌++◌, ◌-◌, ◌<◌, ◌≤◌, ◌^◌, ◌+◌, [], flat_map, fold, codes, is_none, length, map, None, Ok, IfOk, OnOk};
ghost use Rattle.pd_host.specs.Host.{IsShort};
ghost use Rattle.pd_run.specs.Laws.{unmatched};
ghost use Rattle.pd_run.specs.Run.{start_of};
ghost use Rattle.pd_run.specs.Step.{RunStateView, step, IsStepEnd};
ghost use Rattle.pd_explain.specs.Inner.{names_of, IsBefore, NotesRules};
ghost use Rattle.pd_explain.specs.RuleNames.{as_list, each_once, entered, with_name};
ghost use Rattle.pd_explain.specs.RulePhases.{check_name, phases};
ghost use Rattle.pd_explain.specs.RuleTrace.{effect_names, numbers_in, rule_line, rule_lines, rule_lines_from, rule_of_oldest_or_next, rules_of_event, send_rules_of, sending_names, smss_in};
ghost use Rattle.pd_explain.specs.SendRules.{send_rule_name};

mod acks;
mod calls;
mod effects;
mod names;
mod numbers;
mod options;
mod phases;
mod segments;
mod sends;
mod timer;

use self::calls::blocker_name;
use self::effects::put_effect_names;
use self::names::{put_entered, put_name_if_some, put_name_unless_there};
use self::numbers::Numbers;
use self::phases::{check_name, phases};
use self::segments::put_segment_names_from;
use self::sends::{put_send_rule_if_some, put_send_rules_from, rule_of_oldest_or_next};
use crate::render::{put_number, put_words};
use pd_cause::deciding_check;
use pd_host::{ConnectionSnapshot, SegmentCheck};
use pd_run::{Plain, RunState, StepEnd, Stepper, law_clock_base_and_queue_bounded_per_event};
use pd_script::{Action, Event, Parsed, parse};
use pd_seg::SendRule;
use pd_settings::Settings;
use pd_text::Lines;
use std::alloc::{AllocError, Global};

/// A line for each event of a text's run that passes and comes to some rules: the octets that say of whom it is, the event's
/// line, and the names of the rules, each once.
///
/// # Errors
/// `AllocError` where a growth is refused.
pub fn rule_lines(
    alloc: Global,
    of: &[u8],
    lines: &Lines,
    settings: &Settings,
) -> Result<Vec<u8>, AllocError>
    ensures { IfOk result (λ octets. octets.items ≡ rule_lines of.now lines.now settings.now) }
{
    let parsed = parse(alloc, lines)?;
    if parsed.fault.is_some() {
        return Ok(Vec::new(alloc));
    }
    match RunState::new(alloc, &parsed.header, settings) {
        Ok(start) => rule_lines_of_events(alloc, of, &parsed, settings, start),
        Err(_) => Ok(Vec::new(alloc)),
    }
}

/// The lines of the events of a script, from the start of its run.
fn rule_lines_of_events(
    alloc: Global,
    of: &[u8],
    parsed: &Parsed,
    settings: &Settings,
    start: RunState,
) -> Result<Vec<u8>, AllocError>
    requires few { length parsed.now.events ≤ 4096 }
    requires start { start_of parsed.now.header.items settings.now ≡ Ok start }
    ensures { IfOk result (λ octets. octets.items ≡ rule_lines_from of.now parsed.now.events start) }
{
    law_clock_base_and_queue_bounded_per_event();
    let mut stepper = Plain::new();
    let mut out = Vec::new(alloc);
    let mut run = start;
    for event in parsed.events.as_slice() {
        match step_and_put_rule_line(&mut stepper, &mut run, event, settings, of, &mut out)? {
            StepEnd::Go => {}
            StepEnd::Stop(_) => return Ok(out),
        }
    }
    Ok(out)
}

/// How a sender stands before an event, as far as the rules that the event comes to are found by it.
#[derive(Drop)]
struct BeforeEvent {
    /// The rule of the packet that the event awaits, if it awaits one.
    awaited: Option<SendRule>,
    /// How many packets are unmatched.
    unmatched: usize,
    /// The check that decides on its segment.
    check: Option<SegmentCheck>,
    /// The phases.
    phases: Vec<&'static str>,
    /// Its numbers.
    numbers: Numbers,
}

/// One event of a run: where it passes and comes to some rules, its line is added.
fn step_and_put_rule_line(
    stepper: &mut Plain,
    run: &mut RunState,
    event: &Event,
    settings: &Settings,
    of: &[u8],
    out: &mut Vec<u8>,
) -> Result<StepEnd, AllocError>
    requires room { stepper.old < 2 ^ 64 - 1 }
    requires live { run.old.host.end_reason ≡ None }
    requires clock { run.old.clock < 2 ^ 61 }
    requires base { run.old.base < 2 ^ 61 }
    requires short { IsShort run.old.host.state }
    ensures ends { IfOk result (λ end. IsStepEnd (step run.old event.now) end run.new) }
    ensures one_more { OnOk result (stepper.new ≡ stepper.old + 1) }
    ensures noted { IfOk result (λ end. NotesRules of.now run.old event.now run.new end out.old.items out.new.items) }
{
    let alloc = *out.allocator();
    let before = before_event(alloc, run, event)?;
    let end = stepper.step(run, event, settings)?;
    if let StepEnd::Go = end {
        let names = rules_of_event(alloc, &before, run, event)?;
        put_rule_line(alloc, out, of, event.line, names.as_slice())?;
    }
    Ok(end)
}

/// How a sender stands before an event.
fn before_event(alloc: Global, run: &RunState, event: &Event) -> Result<BeforeEvent, AllocError>
    requires live { run.now.host.end_reason ≡ None }
    requires clock { run.now.clock < 2 ^ 61 }
    requires base { run.now.base < 2 ^ 61 }
    ensures { IfOk result (λ before. IsBefore run.now event.now before) }
{
    Ok(BeforeEvent {
        awaited: rule_of_oldest_or_next(run),
        unmatched: run.host().outbox().len(),
        check: deciding_check(run, event)?,
        phases: phases(alloc, run.host())?,
        numbers: Numbers::of_host(run.host()),
    })
}

/// The names of the rules that an event came to which passed, each once.
fn rules_of_event(
    alloc: Global,
    before: &BeforeEvent,
    run: &RunState,
    event: &Event,
) -> Result<Vec<&'static str>, AllocError>
    ensures { (r : RunStateView) → IsBefore r event.now before.now → IfOk result (λ names. names_of names.items ≡ each_once (rules_of_event r event.now run.now)) }
{
    let mut names: Vec<&'static str> = Vec::new(alloc);
    put_send_rules(&mut names, before, run, &event.action)?;
    put_check_if_some(&mut names, before.check)?;
    let after = phases(alloc, run.host())?;
    put_entered(&mut names, before.phases.as_slice(), after.as_slice())?;
    put_effects(&mut names, before, run, &event.action)?;
    put_sending_names(&mut names, before, run, &event.action)?;
    Ok(names)
}

/// Adds what an event did to the sender.
fn put_effects(
    names: &mut Vec<&'static str>,
    before: &BeforeEvent,
    run: &RunState,
    action: &Action,
) -> Result<(), AllocError>
    ensures { OnOk result (names_of names.new.items ≡ fold with_name (names_of names.old.items) (effect_names run.now.host.state.settings before.now.check (before.now.unmatched == 0) before.now.numbers (numbers_in run.now.host.state) action.now)) }
{
    let numbers = Numbers::of_host(run.host());
    let is_waiting = before.unmatched == 0;
    put_effect_names(
        names,
        run.host().settings(),
        before.check,
        is_waiting,
        &before.numbers,
        &numbers,
        action,
    )
}

/// SMSS in octets, once a connection was begun.
fn smss_in(snapshot: Option<ConnectionSnapshot>) -> u16
    ensures { result ≡ smss_in snapshot }
{
    match snapshot {
        None => 0,
        Some(connection) => connection.smss,
    }
}

/// Adds the names of the segments that an input put out, and why it put no more out.
fn put_sending_names(
    names: &mut Vec<&'static str>,
    before: &BeforeEvent,
    run: &RunState,
    action: &Action,
) -> Result<(), AllocError>
    ensures { (r : RunStateView) → before.now.unmatched ≡ length (unmatched r) → OnOk result (names_of names.new.items ≡ fold with_name (names_of names.old.items) (sending_names r run.now action.now)) }
{
    match action {
        Action::Outbound(_) => Ok(()),
        Action::Inbound(_) | Action::Call(_) | Action::Command | Action::Code => {
            let smss = smss_in(run.host().connection_snapshot());
            put_segment_names_from(names, smss, run.host().outbox(), before.unmatched)?;
            put_name_if_some(names, blocker_name(run.host().send_blocker()?))
        }
    }
}

/// Adds the rules by which the packets of an event left.
fn put_send_rules(
    names: &mut Vec<&'static str>,
    before: &BeforeEvent,
    run: &RunState,
    action: &Action,
) -> Result<(), AllocError>
    ensures { (r : RunStateView) → before.now.awaited ≡ rule_of_oldest_or_next r → before.now.unmatched ≡ length (unmatched r) → OnOk result (names_of names.new.items ≡ fold with_name (names_of names.old.items) (map send_rule_name (send_rules_of r run.now action.now))) }
{
    match action {
        Action::Outbound(_) => put_send_rule_if_some(names, before.awaited),
        Action::Inbound(_) | Action::Call(_) | Action::Command | Action::Code => {
            put_send_rules_from(names, run.host().outbox(), before.unmatched)
        }
    }
}

/// Adds the name of a check, if there is one.
fn put_check_if_some(
    names: &mut Vec<&'static str>,
    check: Option<SegmentCheck>,
) -> Result<(), AllocError>
    ensures { OnOk result (names_of names.new.items ≡ fold with_name (names_of names.old.items) (map check_name (as_list check))) }
{
    match check {
        None => Ok(()),
        Some(check) => put_name_unless_there(names, check_name(check)),
    }
}

/// Adds the line on an event that comes to some rules.
fn put_rule_line(
    alloc: Global,
    out: &mut Vec<u8>,
    of: &[u8],
    line: usize,
    names: &[&'static str],
) -> Result<(), AllocError>
    ensures { OnOk result (out.new.items ≡ out.old.items ++ rule_line of.now line (names_of names.now)) }
{
    if names.is_empty() {
        return Ok(());
    }
    out.extend_from_slice(of)?;
    put_words(out, " line ")?;
    put_number(alloc, out, line as u64)?;
    put_words(out, " rules")?;
    put_names(out, names)?;
    put_words(out, "\n")
}

/// Adds names, each after a blank.
fn put_names(out: &mut Vec<u8>, names: &[&'static str]) -> Result<(), AllocError>
    ensures { OnOk result (out.new.items ≡ out.old.items ++ flat_map (λ name. codes " " ++ name) (names_of names.now)) }
{
    for name in names {
        put_words(out, " ")?;
        put_words(out, name)?;
    }
    Ok(())
}
