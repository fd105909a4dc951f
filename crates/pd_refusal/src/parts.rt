//! The part of an event, or of a header, that a rule is about: where it stands, and how it is shown.
mod locate;
mod nesting;
mod part_of_rule;
mod rule_part;
mod token_roles;

pub use self::locate::{ShownPart, place_of_event_after_passed};
pub(crate) use self::locate::{place_of_part_or_from, rest_of_line_at, shown_line_at};
pub use self::nesting::Nesting;
pub(crate) use self::part_of_rule::{rule_part_of_event, rule_part_of_header_item};
pub use self::rule_part::RulePart;
pub use self::token_roles::TokenRole;
