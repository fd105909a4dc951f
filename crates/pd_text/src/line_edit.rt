//! Edits of texts.
ghost use Rattle.std.specs.Prelude.{◌≡◌, ◌↔◌, IfOk, IsTrue};

use crate::line_list::LineList;
use std::alloc::AllocError;

/// An edit: removes `remove` lines beginning at line `from`, counted from 1, and puts `insert` there.
#[derive(Drop)]
pub struct LineEdit {
    /// The line at which it begins, counted from 1: in a text at most one more than it has.
    pub from: usize,
    /// How many lines it removes.
    pub remove: usize,
    /// The lines that it puts there.
    pub insert: LineList,
}

impl LineEdit {
    /// Whether both are the same edit.
    pub fn is_same(&self, other: &LineEdit) -> bool
        ensures { IsTrue result ↔ (self.now ≡ other.now) }
    {
        self.from == other.from && self.remove == other.remove && self.insert.is_same(&other.insert)
    }

    /// An equal edit of its own.
    ///
    /// # Errors
    /// `AllocError` where a growth is refused.
    pub fn copy(&self) -> Result<LineEdit, AllocError>
        ensures { IfOk result (λ edit. edit ≡ self.now) }
    {
        Ok(LineEdit {
            from: self.from,
            remove: self.remove,
            insert: self.insert.copy()?,
        })
    }
}
