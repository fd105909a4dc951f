//! Texts: lists of lines within the limits; line numbers begin at 1.
ghost use Rattle.std.specs.Prelude.{◌≡◌, ◌+◌, ◌-◌, ◌≤◌, true, take, drop, length, IfOk, IfErr, IsTrue, Err, None, unwrap_or, nat_le, if◌then◌else◌, option_copied, slice_get, ◌↔◌};
ghost use Rattle.pd_text.specs.Text.{common_prefix, AreLines, FitsText};
ghost use Rattle.pd_text.specs.Edit.{is_edit_in_range, edited, edit_refusal};

use crate::faults::TextFault;
use crate::limits::{TextSize, are_lines_within_text_limits, counts_after_edit_if_within_limits};
use crate::line_edit::LineEdit;
use crate::line_list::LineList;
use std::alloc::AllocError;
use std::marker::Model;

/// The text of a script: at most 4,096 lines and 65,536 octets, no line with a newline in it.
#[derive(Drop)]
pub struct Lines {
    /// The lines, within the limits.
    list: LineList,
}

impl Model for Lines {
    ghost use Rattle.std.specs.Prelude.{List, ℕ};
    ghost use Rattle.pd_text.specs.Text.{AreLines, FitsText};

    ghost Value = { List (List ℕ) };

    ghost view = { λ l. l.list };

    ghost invariant = { λ l. FitsText l.list × AreLines l.list };
}

impl Lines {
    /// The text of these lines; takes no memory.
    ///
    /// # Errors
    /// `TooLarge` exactly where they are over the limits.
    pub fn new(list: LineList) -> Result<Lines, TextFault>
        ensures ok { IfOk result (λ text. text ≡ list) }
        ensures large { (result ≡ Err TextFault.TooLarge) ↔ ¬ FitsText list }
        ensures only { IfErr result (λ e. e ≡ TextFault.TooLarge) }
    {
        if are_lines_within_text_limits(&list) {
            Ok(Lines { list })
        } else {
            Err(TextFault::TooLarge)
        }
    }

    /// How many lines it has, at most 4,096.
    pub fn len(&self) -> usize
        ensures len { result ≡ length self.now }
        ensures small { result ≤ 4096 }
    {
        self.list.len()
    }

    /// The octets of line `n`, counted from 1, or `None` outside the text.
    #[inline(always)]
    pub fn line(&self, n: usize) -> Option<&[u8]>
        ensures line { option_copied result ≡ (if nat_le 1 n then slice_get self.now (n - 1) else None) }
        ensures fits { FitsText self.now }
        ensures lines { AreLines self.now }
    {
        if n >= 1 { self.list.get(n - 1) } else { None }
    }

    /// Whether both have the same lines.
    pub fn is_same(&self, other: &Lines) -> bool
        ensures { IsTrue result ↔ (self.now ≡ other.now) }
    {
        self.list.is_same(&other.list)
    }

    /// An equal text of its own.
    ///
    /// # Errors
    /// `AllocError` where a growth is refused.
    pub fn copy(&self) -> Result<Lines, AllocError>
        ensures { IfOk result (λ copy. copy ≡ self.now) }
    {
        Ok(Lines {
            list: self.list.copy()?,
        })
    }

    /// How many of their first lines are equal; takes no memory.
    pub fn same_front(&self, other: &Lines) -> usize
        ensures { result ≡ common_prefix self.now other.now }
    {
        self.list.same_front(&other.list)
    }

    /// The text after an edit.
    ///
    /// # Errors
    /// `BadRange` exactly where the edit doesn't lie within the text, else `TooLarge` exactly where
    /// the text after it is over the limits, else `OutOfMemory`.
    pub fn apply(&self, edit: &LineEdit) -> Result<Lines, TextFault>
        ensures ok { IfOk result (λ text. text ≡ edited self.now edit.now) }
        ensures allowed { IfOk result (λ _. edit_refusal self.now edit.now ≡ None) }
        ensures err { IfErr result (λ e. e ≡ unwrap_or (edit_refusal self.now edit.now) TextFault.OutOfMemory) }
    {
        if !self.is_edit_in_range(edit) {
            return Err(TextFault::BadRange);
        }
        let Some(size) = counts_after_edit_if_within_limits(&self.list, edit) else {
            return Err(TextFault::TooLarge);
        };
        let list = lines_after_checked_edit(&self.list, edit, size)?;
        Ok(Lines { list })
    }

    fn is_edit_in_range(&self, edit: &LineEdit) -> bool
        ensures { result ≡ is_edit_in_range self.now edit.now }
    {
        let len = self.len();
        edit.from >= 1 && edit.from <= len + 1 && edit.remove <= len + 1 - edit.from
    }
}

/// The lines after an edit that lies within them, where they are of this size.
fn lines_after_checked_edit(
    list: &LineList,
    edit: &LineEdit,
    size: TextSize,
) -> Result<LineList, AllocError>
    requires { is_edit_in_range list.now edit.now ≡ true }
    ensures { IfOk result (λ new. new ≡ edited list.now edit.now) }
{
    let len = list.len();
    let first = edit.from - 1;
    let after = first + edit.remove;
    let mut new = LineList::new(list.allocator());
    new.reserve(size.lines, size.octets)?;
    new.push_line_range_of_other(list, 0, first)?;
    new.push_line_range_of_other(&edit.insert, 0, edit.insert.len())?;
    new.push_line_range_of_other(list, after, len)?;
    Ok(new)
}
