//! The limits of a text.
ghost use Rattle.std.specs.Prelude.{◌≡◌, true, is_some};
ghost use Rattle.pd_text.specs.Text.{fits_text, FitsText};
ghost use Rattle.pd_text.specs.Edit.{is_edit_in_range, edited};

use crate::line_edit::LineEdit;
use crate::line_list::LineList;

/// The greatest number of lines of a text.
pub const MAX_LINES: usize = 4_096;

/// The greatest number of octets of a text, each line counted with one more for its end.
pub const MAX_OCTETS: usize = 65_536;

/// Whether these lines make a text within the limits.
pub fn are_lines_within_text_limits(list: &LineList) -> bool
    ensures { result ≡ fits_text list.now }
{
    list.len() <= MAX_LINES && list.octet_count_without_newlines() <= MAX_OCTETS - list.len()
}

/// How many lines a text has, and how many octets without the lines' ends.
#[derive(Clone, Copy)]
pub struct TextSize {
    /// How many lines it has, at most 4,096.
    pub lines: usize,
    /// How many octets it has, without the lines' ends.
    pub octets: usize,
}

/// The size of a text after an edit that lies within it, or `None` over the limits.
pub fn counts_after_edit_if_within_limits(text: &LineList, edit: &LineEdit) -> Option<TextSize>
    requires range { is_edit_in_range text.now edit.now ≡ true }
    requires fits { FitsText text.now }
    ensures { is_some result ≡ fits_text (edited text.now edit.now) }
{
    let first = edit.from - 1;
    let lines = text.len() - edit.remove;
    let octets = text.octet_count_without_newlines()
        - text.octet_count_between_without_newlines(first, first + edit.remove);
    let room = MAX_OCTETS - octets - lines;
    let more = edit.insert.len();
    if more > MAX_LINES - lines
        || more > room
        || edit.insert.octet_count_without_newlines() > room - more
    {
        return None;
    }
    Some(TextSize {
        lines: lines + more,
        octets: octets + edit.insert.octet_count_without_newlines(),
    })
}
