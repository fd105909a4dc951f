//! Explanations in words: as lines, and as JSON objects.
mod dropped_text;
mod facts;
mod headings;
mod json;
mod lines;
mod send_rules;
mod sender_facts;
mod text;

pub use self::json::{explanation_json, leftovers_json};
pub(crate) use self::lines::{put_number, put_words};
pub use self::send_rules::send_rule_name;
pub use self::text::{cause_text, explanation_text, leftovers_text, sender_state_text};
