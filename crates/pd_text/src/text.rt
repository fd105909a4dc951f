//! Texts that several owners keep.
ghost use Rattle.std.specs.Prelude.{◌≡◌, ◌↔◌, IfOk, IsTrue};

use crate::lines::Lines;
use std::alloc::{AllocError, Global};
use std::marker::Model;
use std::sync::Arc;

/// A text that is held once, however many owners keep it.
#[derive(Drop)]
pub struct Text {
    /// The lines, which each owner of the text shares.
    lines: Arc<Lines>,
}

impl Model for Text {
    ghost use Rattle.std.specs.Prelude.{List, ℕ};

    ghost Value = { List (List ℕ) };

    ghost view = { λ t. t.lines.value };
}

impl Text {
    /// A text of these lines, with one owner.
    ///
    /// # Errors
    /// `AllocError` where memory for it is refused.
    pub fn new(alloc: Global, lines: Lines) -> Result<Text, AllocError>
        ensures { IfOk result (λ text. text ≡ lines) }
    {
        Ok(Text {
            lines: Arc::new(alloc, lines)?,
        })
    }

    /// Its lines.
    pub fn lines(&self) -> &Lines
        ensures { result.now ≡ self.now }
    {
        &self.lines
    }

    /// Whether both have the same lines.
    pub fn is_same(&self, other: &Text) -> bool
        ensures { IsTrue result ↔ (self.now ≡ other.now) }
    {
        self.lines.is_same(&other.lines)
    }

    /// Another owner of the same text.
    ///
    /// # Errors
    /// `AllocError` only where the count of owners is full.
    pub fn share(&self) -> Result<Text, AllocError>
        ensures { IfOk result (λ text. text ≡ self.now) }
    {
        Ok(Text {
            lines: self.lines.clone()?,
        })
    }
}
