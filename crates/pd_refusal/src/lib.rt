//! Why the text of a script isn't run: the token that the grammar refuses, or the rule that it breaks.
//!
//! `find_refused_token_and_expected` gives the `Refusal` of a text that is no script: where it stops
//! to be one, and what could stand there. A `RuleViolation` is the `Rule` by which a header item or
//! an event stops a run with `limit` or `unsupported`, and the part of the text that the rule is
//! about (`parts`). `escaped` shows octets of a script.
//!
//! Why it is so:
//! - A text is read with each candidate to find what could stand where it is refused. So this
//!   follows from the grammar's reader, and nothing else has to define what may stand where.
//! - Octets of a script are escaped before they are shown, so that no script writes to a terminal
//!   what its reader didn't ask for.
#![tactic(auto)]

mod alternatives;
mod escape;
mod laws;
mod parts;
mod refusals;
mod rule_violation;
mod rules;

pub use escape::{escaped, truncated, truncated_around_mark_and_new_column};
pub use laws::{law_escaped_is_printable, law_rules_are_named_iff_broken};
pub use parts::{Nesting, RulePart, ShownPart, TokenRole, place_of_event_after_passed};
pub use refusals::{ForeignSyntax, Refusal, find_refused_token_and_expected};
pub use rule_violation::{RuleViolation, header_violation, violation_at_event};
pub use rules::{
    LimitedNumber, Rule, UnsupportedInput, UnsupportedShape, rule_that_stopped_run_at_event,
};
