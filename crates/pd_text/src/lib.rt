//! Texts of scripts, edits of them, and the names of scripts.
//!
//! A `LineList` is any list of lines. A `Lines` is one within the limits of a script's text, and
//! `Lines::apply` makes another of it by a `LineEdit`. A `Text` is a `Lines` that several owners
//! keep. A `Name` is the name of a script or of a setting, and may have several owners, too.
//!
//! Each `Text` is within the limits, and none of its lines has a newline in it: `IsText`
//! (specs/Text.antt). An edit gives exactly the lines `edited`, or the refusal `edit_refusal`
//! (specs/Edit.antt).
//!
//! Why it is so:
//! - A list keeps all octets in one row, with the end of each line beside it (`PackedLines`), and has no
//!   list for each line. It takes two pieces of memory, however many lines it has, and long
//!   stretches of two texts are compared at once. `same_front` relies on that: it compares a script
//!   that was edited with the text before.
//! - An edit makes a new text and leaves the old one, since jobs and the tracks of earlier runs
//!   still have that.
//! - A `Text` and a `Name` are types of their own over a counted reference, so that contracts see
//!   the lines and octets, and no pointer.
//! - A `Name` may have any octets, since a command may give any. `is_valid` says whether a script
//!   may have it.
//! - `Lines::line` counts from 1, as people count lines, and answers `None` for a line that isn't
//!   there. So callers need no proof of a place.
#![tactic(auto)]

mod faults;
mod invariants;
mod limits;
mod line_edit;
mod line_list;
mod lines;
mod name;
mod packed_lines;
mod text;

pub use faults::TextFault;
pub use limits::{MAX_LINES, MAX_OCTETS};
pub use line_edit::LineEdit;
pub use line_list::LineList;
pub use lines::Lines;
pub use name::Name;
pub use text::Text;
