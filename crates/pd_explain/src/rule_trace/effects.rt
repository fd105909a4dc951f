//! The names of an event's effects on a sender, by its numbers before the event and after it.
ghost use Rattle.std.specs.Prelude.{◌≡◌, ◌++◌, ◌∷◌, [], fold, option_map, OnOk};
ghost use Rattle.pd_explain.specs.Inner.{names_of};
ghost use Rattle.pd_explain.specs.RuleNames.{as_list, with_name};
ghost use Rattle.pd_explain.specs.RuleTrace.{arrival_names, counted_block_names, effect_names, established_names, restart_names, taken_names, three_seconds_name};

use super::acks::{has_sack_evidence, is_with_sack, put_ack_names, restart_name};
use super::calls::call_name;
use super::names::{put_name_if_some, put_name_unless_there};
use super::numbers::Numbers;
use super::options::{initial_window_name, put_block_names, put_syn_names};
use super::timer::{put_expiry_names, put_sample_names, timer_name};
use pd_host::{ConnectionSnapshot, SegmentCheck, WindowSnapshot};
use pd_script::{Action, Packet};
use pd_settings::Settings;
use std::alloc::AllocError;

fn put_counted_block_names(
    names: &mut Vec<&'static str>,
    packet: &Packet,
    numbers: &Numbers,
    before: &ConnectionSnapshot,
    after: &ConnectionSnapshot,
    old: &WindowSnapshot,
) -> Result<(), AllocError>
    ensures { OnOk result (names_of names.new.items ≡ fold with_name (names_of names.old.items) (counted_block_names packet.now numbers.now before.now after.now old.now)) }
{
    if is_with_sack(old.recovery) {
        put_block_names(names, after.una, before.top, &packet.options)
    } else if has_sack_evidence(numbers.duplicate) {
        put_block_names(names, after.una, before.top, &packet.options)
    } else {
        Ok(())
    }
}

fn put_taken_names(
    names: &mut Vec<&'static str>,
    settings: &Settings,
    packet: &Packet,
    numbers: &Numbers,
    numbers_after: &Numbers,
    before: &ConnectionSnapshot,
    after: &ConnectionSnapshot,
) -> Result<(), AllocError>
    ensures { OnOk result (names_of names.new.items ≡ fold with_name (names_of names.old.items) (taken_names settings.now packet.now numbers.now numbers_after.now before.now after.now before.now.windows after.now.windows)) }
{
    match (before.windows, after.windows) {
        (Some(old), Some(new)) => {
            let limit = settings.abc_limit;
            put_ack_names(names, limit, numbers.duplicate, before, after, &old, &new)?;
            put_sample_names(
                names,
                numbers.measured,
                numbers_after.measured,
                before,
                after,
            )?;
            put_counted_block_names(names, packet, numbers, before, after, &old)
        }
        _ => Ok(()),
    }
}

/// The timeout of a connection that begins without a sample.
fn three_seconds_name(numbers: &Numbers, after: &ConnectionSnapshot) -> Option<&'static str>
    ensures { option_map (λ name. name.now) result ≡ three_seconds_name numbers.now after.now }
{
    if numbers.measured.is_none() && after.rto_us == 3_000_000 {
        Some("rfc6298.rto.three-seconds")
    } else {
        None
    }
}

fn put_established_names(
    names: &mut Vec<&'static str>,
    settings: &Settings,
    numbers: &Numbers,
    numbers_after: &Numbers,
    before: &ConnectionSnapshot,
    after: &ConnectionSnapshot,
) -> Result<(), AllocError>
    ensures { OnOk result (names_of names.new.items ≡ fold with_name (names_of names.old.items) (established_names settings.now numbers.now numbers_after.now before.now after.now after.now.windows)) }
{
    match after.windows {
        None => Ok(()),
        Some(windows) => {
            let name = initial_window_name(settings.initial_window, after.smss, windows.cwnd);
            put_name_unless_there(names, name)?;
            put_sample_names(
                names,
                numbers.measured,
                numbers_after.measured,
                before,
                after,
            )?;
            put_name_if_some(names, three_seconds_name(numbers_after, after))
        }
    }
}

fn put_arrival_names(
    names: &mut Vec<&'static str>,
    settings: &Settings,
    packet: &Packet,
    check: Option<SegmentCheck>,
    before: &Numbers,
    after: &Numbers,
) -> Result<(), AllocError>
    ensures { OnOk result (names_of names.new.items ≡ fold with_name (names_of names.old.items) (arrival_names settings.now packet.now check before.now after.now)) }
{
    match (check, before.snapshot, after.snapshot) {
        (_, None, Some(new)) => put_syn_names(names, settings, new.smss, &packet.options),
        (None, Some(old), Some(new)) => {
            put_taken_names(names, settings, packet, before, after, &old, &new)
        }
        (Some(SegmentCheck::FirstAck), Some(old), Some(new)) => {
            put_established_names(names, settings, before, after, &old, &new)
        }
        _ => Ok(()),
    }
}

fn put_restart_names(
    names: &mut Vec<&'static str>,
    before: Option<ConnectionSnapshot>,
    after: Option<ConnectionSnapshot>,
) -> Result<(), AllocError>
    ensures { OnOk result (names_of names.new.items ≡ fold with_name (names_of names.old.items) (restart_names before after)) }
{
    match (before, after) {
        (Some(before), Some(after)) => match (before.windows, after.windows) {
            (Some(old), Some(new)) => put_name_if_some(names, restart_name(&after, &old, &new)),
            _ => Ok(()),
        },
        _ => Ok(()),
    }
}

/// Adds what an event does to the numbers of a sender under settings, from `before` to `after`. `is_waiting` says that no packet
/// is unmatched before it.
///
/// # Errors
/// `AllocError` where a growth is refused.
pub fn put_effect_names(
    names: &mut Vec<&'static str>,
    settings: &Settings,
    check: Option<SegmentCheck>,
    is_waiting: bool,
    before: &Numbers,
    after: &Numbers,
    action: &Action,
) -> Result<(), AllocError>
    ensures { OnOk result (names_of names.new.items ≡ fold with_name (names_of names.old.items) (effect_names settings.now check is_waiting before.now after.now action.now)) }
{
    match action {
        Action::Inbound(packet) => {
            put_arrival_names(names, settings, packet, check, before, after)?;
            put_name_if_some(names, timer_name(before.deadline, after.deadline))
        }
        Action::Call(call) => {
            put_name_unless_there(names, call_name(call))?;
            put_restart_names(names, before.snapshot, after.snapshot)?;
            put_name_if_some(names, timer_name(before.deadline, after.deadline))
        }
        Action::Outbound(_) => {
            if is_waiting {
                put_expiry_names(names, before.snapshot, after.snapshot)
            } else {
                Ok(())
            }
        }
        Action::Command | Action::Code => Ok(()),
    }
}
