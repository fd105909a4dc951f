//! Edits that several owners keep.
ghost use Rattle.std.specs.Prelude.{◌≡◌, ◌↔◌, IfOk, IsTrue};

use pd_text::LineEdit;
use std::alloc::{AllocError, Global};
use std::marker::Model;
use std::sync::Arc;

/// An edit that is held once, however many owners keep it.
#[derive(Drop)]
pub struct SharedEdit {
    /// The edit, which each owner shares.
    edit: Arc<LineEdit>,
}

impl Model for SharedEdit {
    ghost use Rattle.pd_text.specs.declared.line_edit.LineEdit.{LineEdit};

    ghost Value = { LineEdit };

    ghost view = { λ e. e.edit.value };
}

impl SharedEdit {
    /// This edit, with one owner.
    ///
    /// # Errors
    /// `AllocError` where memory for it is refused.
    pub fn new(alloc: Global, edit: LineEdit) -> Result<SharedEdit, AllocError>
        ensures { IfOk result (λ shared. shared ≡ edit) }
    {
        Ok(SharedEdit {
            edit: Arc::new(alloc, edit)?,
        })
    }

    /// An equal edit, with one owner.
    ///
    /// # Errors
    /// `AllocError` where memory for it is refused.
    pub fn from_copied_edit(alloc: Global, edit: &LineEdit) -> Result<SharedEdit, AllocError>
        ensures { IfOk result (λ shared. shared ≡ edit.now) }
    {
        SharedEdit::new(alloc, edit.copy()?)
    }

    /// The edit.
    pub fn edit(&self) -> &LineEdit
        ensures { result.now ≡ self.now }
    {
        &self.edit
    }

    /// Whether both are the same edit.
    pub fn is_same(&self, other: &SharedEdit) -> bool
        ensures { IsTrue result ↔ (self.now ≡ other.now) }
    {
        self.edit.is_same(&other.edit)
    }

    /// Another owner of the same edit.
    ///
    /// # Errors
    /// `AllocError` only where the count of owners is full.
    pub fn share(&self) -> Result<SharedEdit, AllocError>
        ensures { IfOk result (λ shared. shared ≡ self.now) }
    {
        Ok(SharedEdit {
            edit: self.edit.clone()?,
        })
    }
}
