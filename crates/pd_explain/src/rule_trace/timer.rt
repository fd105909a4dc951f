//! The rules of the timer and of expiries that an event comes to, by the sender's numbers before it and after it.
ghost use Rattle.std.specs.Prelude.{◌≡◌, fold, option_map, OnOk};
ghost use Rattle.pd_explain.specs.Inner.{names_of};
ghost use Rattle.pd_explain.specs.RuleNames.{with_name};
ghost use Rattle.pd_explain.specs.RuleTimer.{backoff_after_ack_name, bound_name, doubled_name, ended_by_expiry_name, expiry_names, is_same_estimate, is_sampled, kept_backoff_name, sample_bound_name, sample_name, sample_names, sample_variance_name, ssthresh_at_expiry_name, taken_sample_name, timer_name, variance_name, window_names_at_expiry};

use super::acks::ssthresh_name;
use super::names::{put_name_if_some, put_name_unless_there};
use pd_host::{ConnectionSnapshot, Recovery, WindowSnapshot};
use pd_timer::{Estimate, Timeout};
use std::alloc::AllocError;

/// The effect of an input on the timer, by the times of the next expiry before it and after it, in microseconds.
pub fn timer_name(before: Option<u64>, after: Option<u64>) -> Option<&'static str>
    ensures { option_map (λ name. name.now) result ≡ timer_name before after }
{
    match (before, after) {
        (None, None) => None,
        (None, Some(_)) => Some("rfc6298.timer.starts"),
        (Some(_), None) => Some("rfc6298.timer.stops"),
        (Some(before), Some(after)) => {
            if before == after {
                Some("rfc6298.timer.kept")
            } else {
                Some("rfc6298.timer.restarts")
            }
        }
    }
}

fn is_same_estimate(before: Estimate, after: Estimate) -> bool
    ensures { result ≡ is_same_estimate before after }
{
    before.srtt == after.srtt && before.rttvar == after.rttvar
}

/// Whether an ACK changed what is measured.
fn is_sampled(before: Option<Timeout>, after: Option<Timeout>) -> bool
    ensures { result ≡ is_sampled before after }
{
    match (before, after) {
        (_, None) => false,
        (None, Some(_)) => true,
        (Some(before), Some(after)) => !is_same_estimate(before.estimate, after.estimate),
    }
}

fn taken_sample_name(before: Option<Timeout>) -> &'static str
    ensures { result.now ≡ taken_sample_name before }
{
    match before {
        None => "rfc6298.rto.first-sample",
        Some(_) => "rfc6298.rto.later-sample",
    }
}

fn sample_name(
    measured: Option<Timeout>,
    measured_after: Option<Timeout>,
    before: &ConnectionSnapshot,
    after: &ConnectionSnapshot,
) -> Option<&'static str>
    ensures { option_map (λ name. name.now) result ≡ sample_name measured measured_after before.now after.now }
{
    if is_sampled(measured, measured_after) {
        Some(taken_sample_name(measured))
    } else if before.una == after.una {
        None
    } else {
        Some("rfc6298.rto.no-sample")
    }
}

fn bound_name(timeout: Timeout) -> &'static str
    ensures { result.now ≡ bound_name timeout }
{
    if timeout.computed_us < u128::from(timeout.bounded_us) {
        "rfc6298.rto.raised-to-min"
    } else if u128::from(timeout.bounded_us) < timeout.computed_us {
        "rfc6298.rto.lowered-to-max"
    } else {
        "rfc6298.rto.within-bounds"
    }
}

fn sample_bound_name(before: Option<Timeout>, after: Option<Timeout>) -> Option<&'static str>
    ensures { option_map (λ name. name.now) result ≡ sample_bound_name before after }
{
    match after {
        None => None,
        Some(timeout) => {
            if is_sampled(before, Some(timeout)) {
                Some(bound_name(timeout))
            } else {
                None
            }
        }
    }
}

fn variance_name(granularity_us: Option<u64>) -> &'static str
    ensures { result.now ≡ variance_name granularity_us }
{
    match granularity_us {
        None => "rfc6298.rto.variance",
        Some(_) => "rfc6298.rto.granularity",
    }
}

fn sample_variance_name(before: Option<Timeout>, after: Option<Timeout>) -> Option<&'static str>
    ensures { option_map (λ name. name.now) result ≡ sample_variance_name before after }
{
    match after {
        None => None,
        Some(timeout) => {
            if is_sampled(before, Some(timeout)) {
                Some(variance_name(timeout.granularity_us))
            } else {
                None
            }
        }
    }
}

fn kept_backoff_name(
    timeout: Timeout,
    before: &ConnectionSnapshot,
    after: &ConnectionSnapshot,
) -> Option<&'static str>
    ensures { option_map (λ name. name.now) result ≡ kept_backoff_name timeout before.now after.now }
{
    if timeout.bounded_us < before.rto_us {
        if after.rto_us < before.rto_us {
            Some("rfc6298.backoff.ends")
        } else {
            Some("rfc6298.backoff.kept")
        }
    } else {
        None
    }
}

fn backoff_after_ack_name(
    measured: Option<Timeout>,
    before: &ConnectionSnapshot,
    after: &ConnectionSnapshot,
) -> Option<&'static str>
    ensures { option_map (λ name. name.now) result ≡ backoff_after_ack_name measured before.now after.now }
{
    match measured {
        None => None,
        Some(timeout) => {
            if before.una == after.una {
                None
            } else {
                kept_backoff_name(timeout, before, after)
            }
        }
    }
}

/// Adds what an ACK measures, on a connection `before` and `after` it.
///
/// # Errors
/// `AllocError` where a growth is refused.
pub fn put_sample_names(
    names: &mut Vec<&'static str>,
    measured: Option<Timeout>,
    measured_after: Option<Timeout>,
    before: &ConnectionSnapshot,
    after: &ConnectionSnapshot,
) -> Result<(), AllocError>
    ensures { OnOk result (names_of names.new.items ≡ fold with_name (names_of names.old.items) (sample_names measured measured_after before.now after.now)) }
{
    put_name_if_some(names, sample_name(measured, measured_after, before, after))?;
    put_name_if_some(names, sample_bound_name(measured, measured_after))?;
    put_name_if_some(names, sample_variance_name(measured, measured_after))?;
    put_name_if_some(names, backoff_after_ack_name(measured, before, after))
}

fn doubled_name(before: &ConnectionSnapshot, after: &ConnectionSnapshot) -> &'static str
    ensures { result.now ≡ doubled_name before.now after.now }
{
    if after.rto_us == before.rto_us {
        "rfc6298.backoff.at-max"
    } else if u128::from(after.rto_us) == 2 * u128::from(before.rto_us) {
        "rfc6298.backoff.doubled"
    } else {
        "rfc6298.backoff.held-to-max"
    }
}

fn ended_by_expiry_name(recovery: Recovery) -> Option<&'static str>
    ensures { option_map (λ name. name.now) result ≡ ended_by_expiry_name recovery }
{
    match recovery {
        Recovery::Idle => None,
        Recovery::WithSack(_) => Some("rfc6675.recovery.ends-at-expiry"),
        Recovery::WithoutSack => Some("rfc5681.recovery.ends-at-expiry"),
    }
}

fn ssthresh_at_expiry_name(
    after: &ConnectionSnapshot,
    old: &WindowSnapshot,
    new: &WindowSnapshot,
) -> Option<&'static str>
    ensures { option_map (λ name. name.now) result ≡ ssthresh_at_expiry_name after.now old.now new.now }
{
    if old.ssthresh == new.ssthresh {
        Some("rfc5681.ssthresh.kept-at-expiry")
    } else {
        ssthresh_name(after, old, new)
    }
}

fn put_window_names_at_expiry(
    names: &mut Vec<&'static str>,
    after: &ConnectionSnapshot,
    old: Option<WindowSnapshot>,
    new: Option<WindowSnapshot>,
) -> Result<(), AllocError>
    ensures { OnOk result (names_of names.new.items ≡ fold with_name (names_of names.old.items) (window_names_at_expiry after.now old new)) }
{
    match (old, new) {
        (Some(old), Some(new)) => {
            put_name_if_some(names, ended_by_expiry_name(old.recovery))?;
            put_name_if_some(names, ssthresh_at_expiry_name(after, &old, &new))
        }
        _ => Ok(()),
    }
}

/// Adds what an expiry does.
///
/// # Errors
/// `AllocError` where a growth is refused.
pub fn put_expiry_names(
    names: &mut Vec<&'static str>,
    before: Option<ConnectionSnapshot>,
    after: Option<ConnectionSnapshot>,
) -> Result<(), AllocError>
    ensures { OnOk result (names_of names.new.items ≡ fold with_name (names_of names.old.items) (expiry_names before after)) }
{
    match (before, after) {
        (Some(before), Some(after)) => {
            put_name_unless_there(names, doubled_name(&before, &after))?;
            put_window_names_at_expiry(names, &after, before.windows, after.windows)
        }
        _ => Ok(()),
    }
}
