//! Items that can be copied.
ghost use Rattle.std.specs.Prelude.{◌≡◌, IfOk};

use std::alloc::AllocError;

/// The items that a list copies where sharing doesn't pay.
pub trait TryClone: Sized {
    /// An equal value of its own.
    ///
    /// # Errors
    /// `AllocError` where a growth is refused.
    fn try_clone(&self) -> Result<Self, AllocError>
        ensures { IfOk result (λ copy. copy ≡ self.now) };
}
