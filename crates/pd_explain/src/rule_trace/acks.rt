//! The rules that a segment comes to which the sender takes, by its numbers before the segment and after it.
ghost use Rattle.std.specs.Prelude.{◌≡◌, fold, option_map, OnOk};
ghost use Rattle.pd_explain.specs.Inner.{names_of};
ghost use Rattle.pd_explain.specs.RuleAcks.{ack_name, ack_names, count_name, counted_name, duplicate_name, entry_name, further_name, growth_kind_name, growth_name, has_sack_evidence, is_delivering, is_idle, is_with_sack, most_growth, next_name, no_duplicate_name, prr_name, recovery_step_name, reduction_name, restart_name, right_edge, right_edge_name, ssthresh_name, widened_name};
ghost use Rattle.pd_explain.specs.RuleNames.{with_name};

use super::names::{put_name_if_some, put_name_unless_there};
use pd_host::{ConnectionSnapshot, DupAckEffect, Recovery, WindowSnapshot};
use pd_recover::PrrState;
use std::alloc::AllocError;

/// Adds what an ACK does to a connection and its windows, from `before` and `old` to `after` and `new`. `limit` is the setting
/// `abc_limit`, in segments.
///
/// # Errors
/// `AllocError` where a growth is refused.
pub fn put_ack_names(
    names: &mut Vec<&'static str>,
    limit: u8,
    effect: Option<DupAckEffect>,
    before: &ConnectionSnapshot,
    after: &ConnectionSnapshot,
    old: &WindowSnapshot,
    new: &WindowSnapshot,
) -> Result<(), AllocError>
    ensures { OnOk result (names_of names.new.items ≡ fold with_name (names_of names.old.items) (ack_names limit effect before.now after.now old.now new.now)) }
{
    put_name_unless_there(names, ack_name(before, after))?;
    put_name_if_some(names, next_name(before, after))?;
    let edge = right_edge_name(right_edge(before, old), right_edge(after, new));
    put_name_unless_there(names, edge)?;
    put_name_if_some(names, growth_name(limit, before, after, old, new))?;
    put_name_if_some(names, restart_name(after, old, new))?;
    put_name_if_some(names, ssthresh_name(after, old, new))?;
    put_name_if_some(names, duplicate_name(effect, before, after, old, new))?;
    put_name_if_some(names, recovery_step_name(before, after, old, new))?;
    put_name_if_some(names, prr_name(old, new))
}

fn ack_name(before: &ConnectionSnapshot, after: &ConnectionSnapshot) -> &'static str
    ensures { result.now ≡ ack_name before.now after.now }
{
    if before.una == after.una {
        if before.una == before.top {
            "rfc9293.ack.nothing-outstanding"
        } else {
            "rfc9293.ack.nothing-new"
        }
    } else if after.una == before.top {
        "rfc9293.ack.all"
    } else {
        "rfc9293.ack.part"
    }
}

fn next_name(before: &ConnectionSnapshot, after: &ConnectionSnapshot) -> Option<&'static str>
    ensures { option_map (λ name. name.now) result ≡ next_name before.now after.now }
{
    if before.next < after.una {
        Some("rfc9293.ack.next-moves-up")
    } else {
        None
    }
}

/// The right edge of the peer's window.
fn right_edge(connection: &ConnectionSnapshot, windows: &WindowSnapshot) -> u64
    ensures { result ≡ right_edge connection.now windows.now }
{
    u64::from(connection.una) + u64::from(windows.rwnd)
}

fn right_edge_name(before: u64, after: u64) -> &'static str
    ensures { result.now ≡ right_edge_name before after }
{
    if before < after {
        "rfc9293.window.edge-up"
    } else if after == before {
        "rfc9293.window.edge-stays"
    } else {
        "rfc9293.window.edge-back"
    }
}

fn is_idle(recovery: Recovery) -> bool
    ensures { result ≡ is_idle recovery }
{
    matches!(recovery, Recovery::Idle)
}

/// The most octets that an ACK widens the window by in slow start, of a growth.
fn most_growth(limit: u8, smss: u16, growth: u32) -> u32
    ensures { result ≡ most_growth limit smss growth }
{
    if growth == u32::from(smss) {
        u32::from(smss)
    } else {
        u32::from(limit) * u32::from(smss)
    }
}

fn growth_kind_name(most: u32, acked: u32, growth: u32, old: &WindowSnapshot) -> &'static str
    ensures { result.now ≡ growth_kind_name most acked growth old.now }
{
    if old.cwnd < old.ssthresh {
        if growth < acked && growth == most {
            "rfc3465.growth.limited"
        } else {
            "rfc5681.growth.slow-start"
        }
    } else if growth == 1 {
        "rfc5681.growth.one-octet"
    } else if old.cwnd == old.ssthresh {
        "rfc5681.growth.at-ssthresh"
    } else {
        "rfc5681.growth.congestion-avoidance"
    }
}

fn growth_name(
    limit: u8,
    before: &ConnectionSnapshot,
    after: &ConnectionSnapshot,
    old: &WindowSnapshot,
    new: &WindowSnapshot,
) -> Option<&'static str>
    ensures { option_map (λ name. name.now) result ≡ growth_name limit before.now after.now old.now new.now }
{
    if is_idle(old.recovery) && is_idle(new.recovery) && old.cwnd < new.cwnd {
        let growth = new.cwnd - old.cwnd;
        let most = most_growth(limit, before.smss, growth);
        let acked = after.una.saturating_sub(before.una);
        Some(growth_kind_name(most, acked, growth, old))
    } else {
        None
    }
}

/// Whether the window became the restart window.
///
/// The name is the same for an ACK and for a call.
pub fn restart_name(
    after: &ConnectionSnapshot,
    old: &WindowSnapshot,
    new: &WindowSnapshot,
) -> Option<&'static str>
    ensures { option_map (λ name. name.now) result ≡ restart_name after.now old.now new.now }
{
    if is_idle(old.recovery)
        && is_idle(new.recovery)
        && new.cwnd < old.cwnd
        && u32::from(after.smss) < new.cwnd
        && old.ssthresh == new.ssthresh
    {
        Some("rfc5681.cwnd.restart-window")
    } else {
        None
    }
}

/// The name of a change of ssthresh.
pub fn ssthresh_name(
    after: &ConnectionSnapshot,
    old: &WindowSnapshot,
    new: &WindowSnapshot,
) -> Option<&'static str>
    ensures { option_map (λ name. name.now) result ≡ ssthresh_name after.now old.now new.now }
{
    if old.ssthresh == new.ssthresh {
        None
    } else if new.ssthresh == 2 * u32::from(after.smss) {
        Some("rfc5681.ssthresh.two-segments")
    } else {
        Some("rfc5681.ssthresh.half-flight")
    }
}

/// Whether a duplicate's effect shows that SACK is agreed.
pub fn has_sack_evidence(effect: Option<DupAckEffect>) -> bool
    ensures { result ≡ has_sack_evidence effect }
{
    match effect {
        Some(DupAckEffect::Counted(evidence)) => evidence.sacked.is_some(),
        _ => false,
    }
}

/// Whether a recovery is one with SACK.
pub fn is_with_sack(recovery: Recovery) -> bool
    ensures { result ≡ is_with_sack recovery }
{
    matches!(recovery, Recovery::WithSack(_))
}

fn count_name(sack: bool, count: u32) -> &'static str
    ensures { result.now ≡ count_name sack count }
{
    match (sack, count) {
        (true, 1) => "rfc6675.duplicate.first",
        (true, 2) => "rfc6675.duplicate.second",
        (true, _) => "rfc6675.duplicate.third",
        (false, 1) => "rfc5681.duplicate.first",
        (false, 2) => "rfc5681.duplicate.second",
        (false, _) => "rfc5681.duplicate.third",
    }
}

fn no_duplicate_name(sack: bool) -> &'static str
    ensures { result.now ≡ no_duplicate_name sack }
{
    if sack {
        "rfc6675.duplicate.none"
    } else {
        "rfc5681.duplicate.none"
    }
}

fn counted_name(
    sack: bool,
    before: &ConnectionSnapshot,
    after: &ConnectionSnapshot,
    old: &WindowSnapshot,
    new: &WindowSnapshot,
) -> Option<&'static str>
    ensures { option_map (λ name. name.now) result ≡ counted_name sack before.now after.now old.now new.now }
{
    if before.una == after.una {
        if old.dup_acks < new.dup_acks {
            Some(count_name(sack, new.dup_acks))
        } else {
            Some(no_duplicate_name(sack))
        }
    } else if 0 < new.dup_acks {
        Some("rfc6675.duplicate.of-new-octets")
    } else if 0 < old.dup_acks {
        Some("rfc5681.duplicate.count-anew")
    } else {
        None
    }
}

fn duplicate_name(
    effect: Option<DupAckEffect>,
    before: &ConnectionSnapshot,
    after: &ConnectionSnapshot,
    old: &WindowSnapshot,
    new: &WindowSnapshot,
) -> Option<&'static str>
    ensures { option_map (λ name. name.now) result ≡ duplicate_name effect before.now after.now old.now new.now }
{
    match effect {
        None => None,
        Some(DupAckEffect::Below(_)) => {
            if before.una == after.una {
                Some("rfc6675.duplicate.below-recovery-point")
            } else {
                None
            }
        }
        Some(DupAckEffect::Counted(evidence)) => {
            counted_name(evidence.sacked.is_some(), before, after, old, new)
        }
    }
}

fn entry_name(new: &WindowSnapshot) -> &'static str
    ensures { result.now ≡ entry_name new.now }
{
    if new.dup_acks < 3 {
        "rfc6675.entry.by-loss"
    } else {
        "rfc6675.entry.by-duplicates"
    }
}

fn further_name(before: &ConnectionSnapshot, after: &ConnectionSnapshot) -> &'static str
    ensures { result.now ≡ further_name before.now after.now }
{
    if before.una == after.una {
        "rfc6675.recovery.nothing-new"
    } else {
        "rfc6675.recovery.partial-ack"
    }
}

fn widened_name(old: &WindowSnapshot, new: &WindowSnapshot) -> &'static str
    ensures { result.now ≡ widened_name old.now new.now }
{
    if old.cwnd < new.cwnd {
        "rfc5681.recovery.widens"
    } else {
        "rfc5681.recovery.no-duplicate"
    }
}

fn recovery_step_name(
    before: &ConnectionSnapshot,
    after: &ConnectionSnapshot,
    old: &WindowSnapshot,
    new: &WindowSnapshot,
) -> Option<&'static str>
    ensures { option_map (λ name. name.now) result ≡ recovery_step_name old.now.recovery new.now.recovery before.now after.now old.now new.now }
{
    match (old.recovery, new.recovery) {
        (Recovery::Idle, Recovery::WithSack(_)) => Some(entry_name(new)),
        (Recovery::Idle, Recovery::WithoutSack) => Some("rfc5681.entry"),
        (Recovery::WithSack(_), Recovery::WithSack(_)) => Some(further_name(before, after)),
        (Recovery::WithSack(_), Recovery::Idle) => Some("rfc6675.recovery.ends"),
        (Recovery::WithoutSack, Recovery::WithoutSack) => Some(widened_name(old, new)),
        (Recovery::WithoutSack, Recovery::Idle) => Some("rfc5681.recovery.ends"),
        _ => None,
    }
}

fn reduction_name(delivers: bool, safe_ack: bool, new: &WindowSnapshot) -> &'static str
    ensures { result.now ≡ reduction_name delivers safe_ack new.now }
{
    if !delivers {
        "rfc9937.nothing-delivered"
    } else if new.ssthresh < new.cwnd {
        "rfc9937.proportional"
    } else if new.cwnd == new.ssthresh {
        "rfc9937.up-to-ssthresh"
    } else if safe_ack {
        "rfc9937.safe-ack"
    } else {
        "rfc9937.conservative"
    }
}

/// Whether an ACK enters a recovery, or adds to what is delivered in it.
fn is_delivering(recovery: Recovery, before: &PrrState, after: &PrrState) -> bool
    ensures { result ≡ is_delivering recovery before.now after.now }
{
    if is_with_sack(recovery) {
        before.prr_delivered < after.prr_delivered
    } else {
        true
    }
}

fn prr_name(old: &WindowSnapshot, new: &WindowSnapshot) -> Option<&'static str>
    ensures { option_map (λ name. name.now) result ≡ prr_name old.now.prr new.now.prr old.now new.now }
{
    match (old.prr, new.prr) {
        (Some(before), Some(after)) => {
            if is_with_sack(new.recovery) {
                let delivers = is_delivering(old.recovery, &before, &after);
                Some(reduction_name(delivers, after.safe_ack, new))
            } else if is_with_sack(old.recovery) {
                Some("rfc9937.ends")
            } else {
                None
            }
        }
        _ => None,
    }
}
