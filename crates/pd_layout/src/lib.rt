//! How a script stands in its text, which lines are those of a trace, and whether a text is read as a script and laid out as
//! recordings are.
//!
//! A `LayoutReader` goes through a text part by part, and gives the `Layout` of each header item
//! and event: where its parts stand (`EventParts`), and the comments and blank lines before, within and
//! after it (`TriviaPart`). `is_canonical_text_of_header_and_events` says whether a text is read as some script, and has the
//! layout that recordings have. `is_single_trace_line` distinguishes the lines of a trace from comments.
//!
//! A text has the layout of recordings if it `IsCanonical` (specs/Canonical.antt), whatever wrote it. That
//! the answer of a call follows the first equals sign outside of brackets is the law
//! `law_equals_and_note_end_are_first_outside`. `LayoutReader` promises nothing.
//!
//! Why it is so:
//! - A `Layout` has places of the text, and no octets. Whoever writes the script anew copies from
//!   the text (`put_text_span`), so what stays as it is stays to the octet.
//! - How a layout is found isn't proved, which spares a proof of how comments are placed.
//!   `pd_record` asks `is_canonical_text_of_header_and_events` of what it wrote instead, and that is proved.
//! - The module `alone` finds the parts of an event that is alone on its line by its octets, as
//!   most events are; `layouts` reads all others token by token.
//! - Events are compared without their lines (`are_same_events_but_for_lines`), since these move when a script is
//!   written anew.
#![tactic(auto)]

mod canonical;
mod canonical_calls;
mod comments;
mod equality;
mod event_parts;
mod laws;
mod layouts;
mod line_cursor;
mod outside_brackets;
mod script_check;
mod single_line;
mod spans;
mod traces;
mod trivia;

pub use canonical::is_canonical;
pub use equality::is_same_event_but_for_line;
pub use event_parts::EventParts;
pub use laws::law_equals_and_note_end_are_first_outside;
pub use layouts::{Layout, LayoutReader};
pub use script_check::{are_same_events_but_for_lines, is_canonical_text_of_header_and_events};
pub use spans::{TextSpan, put_text_span};
pub use traces::is_single_trace_line;
pub use trivia::TriviaPart;
