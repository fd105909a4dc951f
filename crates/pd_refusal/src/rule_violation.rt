//! The rule that stops a script, with the part of its text that the rule is about.
ghost use Rattle.std.specs.Prelude.{◌≡◌, IfOk};
ghost use Rattle.pd_lex.specs.Places.{first_place};
ghost use Rattle.pd_refusal.specs.Parts.{part_of, rule_part_of_header_item, place_of_part_or_from, IsShownAt};
ghost use Rattle.pd_refusal.specs.Rules.{unsupported_header_item_rule};
ghost use Rattle.pd_refusal.specs.RuleViolations.{IsRuleViolation};

use crate::alternatives::supported_alternatives_of_rule_at_event;
use crate::parts::{
    RulePart, ShownPart, place_of_part_or_from, rule_part_of_event, rule_part_of_header_item,
    shown_line_at,
};
use crate::rules::{Rule, unsupported_header_item_rule};
use pd_lex::Place;
use pd_script::{Event, HeaderItem};
use pd_text::Lines;
use std::alloc::{AllocError, Global};

/// A rule that stops a script.
#[derive(Drop)]
pub struct RuleViolation {
    /// The rule.
    pub rule: Rule,
    /// The part of the text that it is about.
    pub part: ShownPart,
    /// The calls or flags that are run in the place of that, in words.
    pub alternatives: Vec<Vec<u8>>,
}

/// A rule that stops a script at the event at a place.
///
/// # Errors
/// `AllocError` where a growth is refused.
pub fn violation_at_event(
    alloc: Global,
    lines: &Lines,
    place: Place,
    event: &Event,
    rule: Rule,
) -> Result<RuleViolation, AllocError>
    ensures { IfOk result (IsRuleViolation lines.now place (part_of rule event.now) rule) }
{
    let part = shown_line_where_part_begins(alloc, lines, place, rule_part_of_event(rule, event))?;
    let alternatives = supported_alternatives_of_rule_at_event(alloc, rule, event)?;
    Ok(RuleViolation {
        rule,
        part,
        alternatives,
    })
}

/// The rule by which a header item isn't run, the first of a text that isn't.
///
/// # Errors
/// `AllocError` where a growth is refused.
pub fn header_violation(
    alloc: Global,
    lines: &Lines,
    item: &HeaderItem,
) -> Result<RuleViolation, AllocError>
    ensures { IfOk result (IsRuleViolation lines.now first_place (rule_part_of_header_item item.now.kind) (unsupported_header_item_rule item.now.kind)) }
{
    let part = shown_line_where_part_begins(
        alloc,
        lines,
        Place::first(),
        rule_part_of_header_item(item.kind),
    )?;
    Ok(RuleViolation {
        rule: unsupported_header_item_rule(item),
        part,
        alternatives: Vec::new(alloc),
    })
}

/// How a text is shown where such a part begins, the first from a place on.
fn shown_line_where_part_begins(
    alloc: Global,
    lines: &Lines,
    place: Place,
    part: RulePart,
) -> Result<ShownPart, AllocError>
    ensures { IfOk result (IsShownAt lines.now (place_of_part_or_from part lines.now place)) }
{
    shown_line_at(alloc, lines, place_of_part_or_from(lines, place, part))
}
