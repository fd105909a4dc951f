//! The leftovers of a script that passes: packets that no line took, or that it awaits no packet at all.
ghost use Rattle.std.specs.Prelude.{◌≡◌, ◌≤◌, IfOk, IfSome, Ok, length, option_map};
ghost use Rattle.pd_run.specs.Laws.{unmatched};
ghost use Rattle.pd_run.specs.Run.{start_of};
ghost use Rattle.pd_cause.specs.Leftovers.{awaits_any_packet, end_from, end_in, last_event_line, IsLeftovers, IsLeftoversOf};
ghost use Rattle.pd_cause.specs.Inner.{AreOriginsOf, HasTriggersToEnd};
ghost use Rattle.pd_cause.specs.Origins.{AreOrigins};

use crate::causes::{
    SenderSnapshot, Unmatched, list_first_unmatched_after_skipped, sender_snapshot_of_run,
};
use crate::laws::law_outbox_is_first_in_first_out;
use crate::origins::{
    Origin, Trigger, awaits_packet, origins_of_oldest_unmatched, step_and_note_packet_triggers,
};
use pd_run::{Plain, RunState, StepEnd, law_clock_base_and_queue_bounded_per_event};
use pd_script::{Event, Parsed, parse};
use pd_settings::Settings;
use pd_text::Lines;
use std::alloc::{AllocError, Global};

/// The leftovers of a script that passes, where it awaits no packet or leaves some.
#[derive(Drop)]
pub struct Leftovers {
    /// The line of its last event; 1 where it has none.
    pub line: usize,
    /// Whether an event awaits a packet.
    pub awaits: bool,
    /// The packets that were put out and not taken.
    pub unmatched: Unmatched,
    /// The origins of those of them that are listed, and of the next one.
    pub origins: Vec<Origin>,
    /// The sender at the end.
    pub sender: SenderSnapshot,
}

/// The leftovers of a text that passes under settings. Nothing where it awaits a packet and leaves none, and nothing of a
/// text that doesn't pass.
///
/// # Errors
/// `AllocError` where a growth is refused.
pub fn find_leftovers_if_passes(
    alloc: Global,
    lines: &Lines,
    settings: &Settings,
) -> Result<Option<Leftovers>, AllocError>
    ensures { IfOk result (IsLeftovers lines.now settings.now) }
{
    let parsed = parse(alloc, lines)?;
    match run_to_end_if_it_passes(alloc, &parsed, settings)? {
        Some(end) => leftovers_unless_awaiting_and_none_left(alloc, &parsed, settings, &end),
        None => Ok(None),
    }
}

/// A run at its end, and who let its packets go.
#[derive(Drop)]
struct PassedRun {
    /// The run.
    run: RunState,
    /// The trigger of each packet that it put out.
    triggers: Vec<Trigger>,
}

impl PassedRun {
    /// The origins of the oldest unmatched packets.
    fn origins_of_unmatched(&self, alloc: Global) -> Result<Vec<Origin>, AllocError>
        requires { length (unmatched self.now.run) ≤ length self.now.triggers.items }
        ensures { IfOk result (λ origins. AreOriginsOf (unmatched self.now.run) self.now.triggers.items origins.items) }
    {
        origins_of_oldest_unmatched(alloc, self.run.host().outbox(), self.triggers.as_slice())
    }
}

/// The run at the end of a script that was read; nothing where it stops before.
fn run_to_end_if_it_passes(
    alloc: Global,
    parsed: &Parsed,
    settings: &Settings,
) -> Result<Option<PassedRun>, AllocError>
    requires few { length parsed.now.events ≤ 4096 }
    ensures run { IfOk result (λ end. option_map (λ e. e.run) end ≡ end_in settings.now parsed.now) }
    ensures triggers { IfOk result (λ end. IfSome end (λ e. HasTriggersToEnd settings.now parsed.now e.run e.triggers.items)) }
{
    law_clock_base_and_queue_bounded_per_event();
    if parsed.fault.is_some() {
        return Ok(None);
    }
    match RunState::new(alloc, &parsed.header, settings) {
        Ok(start) => run_events_with_triggers_if_all_pass(alloc, parsed, settings, start),
        Err(_) => Ok(None),
    }
}

/// The run after the last event, and who let its packets go.
fn run_events_with_triggers_if_all_pass(
    alloc: Global,
    parsed: &Parsed,
    settings: &Settings,
    start: RunState,
) -> Result<Option<PassedRun>, AllocError>
    requires few { length parsed.now.events ≤ 4096 }
    requires start { start_of parsed.now.header.items settings.now ≡ Ok start }
    ensures run { IfOk result (λ end. option_map (λ e. e.run) end ≡ end_from parsed.now.events start) }
    ensures triggers { IfOk result (λ end. IfSome end (λ e. HasTriggersToEnd settings.now parsed.now e.run e.triggers.items)) }
{
    law_clock_base_and_queue_bounded_per_event();
    law_outbox_is_first_in_first_out();
    let mut stepper = Plain::new();
    let mut triggers = Vec::new(alloc);
    let mut run = start;
    for event in parsed.events.as_slice() {
        match step_and_note_packet_triggers(
            &mut stepper,
            &mut run,
            event,
            settings,
            &mut triggers,
        )? {
            StepEnd::Go => {}
            StepEnd::Stop(_) => return Ok(None),
        }
    }
    Ok(Some(PassedRun { run, triggers }))
}

/// The leftovers of a run after the last of its events.
fn leftovers_unless_awaiting_and_none_left(
    alloc: Global,
    parsed: &Parsed,
    settings: &Settings,
    end: &PassedRun,
) -> Result<Option<Leftovers>, AllocError>
    requires { HasTriggersToEnd settings.now parsed.now end.now.run end.now.triggers.items }
    ensures { IfOk result (IsLeftoversOf settings.now parsed.now end.now.run) }
{
    let events = parsed.events.as_slice();
    let awaits = awaits_any_packet(events);
    if awaits && end.run.host().outbox().is_empty() {
        return Ok(None);
    }
    Ok(Some(Leftovers {
        line: last_event_line(events),
        awaits,
        unmatched: list_first_unmatched_after_skipped(alloc, &end.run, 0)?,
        origins: origins_of_unmatched_at_end(alloc, parsed, settings, end)?,
        sender: sender_snapshot_of_run(&end.run),
    }))
}

/// The origins of the oldest unmatched packets at the end.
fn origins_of_unmatched_at_end(
    alloc: Global,
    _parsed: &Parsed,
    _settings: &Settings,
    end: &PassedRun,
) -> Result<Vec<Origin>, AllocError>
    requires { HasTriggersToEnd _settings.now _parsed.now end.now.run end.now.triggers.items }
    ensures { IfOk result (λ origins. AreOrigins _settings.now _parsed.now (length _parsed.now.events) (unmatched end.now.run) origins.items) }
{
    let origins = end.origins_of_unmatched(alloc)?;
    Ok(origins)
}

/// Whether an event awaits a packet.
fn awaits_any_packet(events: &[Event]) -> bool
    ensures { result ≡ awaits_any_packet events.now }
{
    events.iter().any(|event| awaits_packet(&event.action))
}

fn last_event_line(events: &[Event]) -> usize
    ensures { result ≡ last_event_line events.now }
{
    match events.get(events.len().saturating_sub(1)) {
        Some(event) => event.line,
        None => 1,
    }
}
