//! Writes why a script's row isn't `pass`, and which rules of the sender its events come to.
//!
//! `render` writes an `Explanation` and the `Leftovers` of `pd_cause` as lines and as JSON objects.
//! `rule_lines` names the rules of the sender that the events of a script come to.
//!
//! The lines of an explanation begin with its heading and have those of the packets that were
//! compared: `IsExplanationText` (specs/BlockLines.antt).
//!
//! Why it is so:
//! - Text and JSON are written from the same facts of a cause (the module `facts` in `render`), so
//!   both have the same contents.
//! - The rules that a script comes to are found by a run of their own, from its first event, and no
//!   checkpoint carries them. So they are those of the text and the settings, whatever a job took
//!   over, and who doesn't ask for them pays nothing.
//! - The sender's numbers before an event and after it give what the event does (`numbers_in`,
//!   specs/RuleTrace.antt), and the sender keeps no journal. A name is so a statement on numbers that
//!   any reader can check, and none costs a plain run an instruction.
#![tactic(auto)]

mod render;
mod rule_trace;

pub use render::{
    cause_text, explanation_json, explanation_text, leftovers_json, leftovers_text,
    sender_state_text,
};
pub use rule_trace::rule_lines;
