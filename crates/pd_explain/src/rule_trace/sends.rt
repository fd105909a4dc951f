//! The rules by which the packets of an event left: of the one that it awaits, or of those that it puts out.
ghost use Rattle.std.specs.Prelude.{◌≡◌, ◌==◌, fold, length, map, drop, option_map, slice_get, OnOk};
ghost use Rattle.pd_host.specs.Expiries.{expiry_rule};
ghost use Rattle.pd_run.specs.Laws.{unmatched};
ghost use Rattle.pd_explain.specs.Inner.{names_of, unmatched_rules_from};
ghost use Rattle.pd_explain.specs.RuleNames.{as_list, with_name};
ghost use Rattle.pd_explain.specs.RuleTrace.{rule_of_oldest_or_next};
ghost use Rattle.pd_explain.specs.SendRules.{send_rule_name};

use super::names::put_name_unless_there;
use crate::render::send_rule_name;
use pd_host::{Host, Outbox};
use pd_run::RunState;
use pd_seg::SendRule;
use std::alloc::AllocError;

/// The rule of the oldest packet; where none is unmatched, that of the next expiry, if a connection was begun.
pub fn rule_of_oldest_or_next(run: &RunState) -> Option<SendRule>
    ensures { result ≡ rule_of_oldest_or_next run.now }
{
    match run.host().outbox().get(0) {
        Some(sent) => Some(sent.rule),
        None => next_expiry_rule(run.host()),
    }
}

/// The rule by which the next expiry puts its packet out.
fn next_expiry_rule(host: &Host) -> Option<SendRule>
    ensures { result ≡ option_map (λ c. expiry_rule c.established) host.now.state.endpoint.connection }
{
    match host.connection_snapshot()?.windows {
        None => Some(SendRule::SynAckAgain),
        Some(_) => Some(SendRule::Expiry),
    }
}

/// Adds the name of a rule, if there is one.
///
/// # Errors
/// `AllocError` where a growth is refused.
pub fn put_send_rule_if_some(
    names: &mut Vec<&'static str>,
    rule: Option<SendRule>,
) -> Result<(), AllocError>
    ensures { OnOk result (names_of names.new.items ≡ fold with_name (names_of names.old.items) (map send_rule_name (as_list rule))) }
{
    match rule {
        None => Ok(()),
        Some(rule) => put_name_unless_there(names, send_rule_name(rule)),
    }
}

/// Adds the names of the rules of the packets from a place on.
///
/// # Errors
/// `AllocError` where a growth is refused.
pub fn put_send_rules_from(
    names: &mut Vec<&'static str>,
    outbox: &Outbox,
    from: usize,
) -> Result<(), AllocError>
    ensures { OnOk result (names_of names.new.items ≡ fold with_name (names_of names.old.items) (map send_rule_name (unmatched_rules_from from outbox.now))) }
{
    for place in from..outbox.len() {
        match outbox.get(place) {
            Some(sent) => put_name_unless_there(names, send_rule_name(sent.rule))?,
            None => unreachable!(),
        }
    }
    Ok(())
}
