//! Blocks of items, which several lists keep.
ghost use Rattle.std.specs.Prelude.{◌≡◌, ◌≤◌, length, take, IfOk};

use std::alloc::{AllocError, Global};
use std::marker::Model;
use std::sync::Arc;

/// Fewer items than these are copied, so that no list consists of many small blocks.
const MIN_SHARED: usize = 4;

/// The first of some items, which are held once however many blocks they are the first of.
#[derive(Drop)]
pub struct SharedBlock<T> {
    /// All items that are held; other blocks may have more of them.
    items: Arc<Vec<T>>,
    /// How many of them the block has.
    used: usize,
}

impl<T> Model for SharedBlock<T> {
    ghost use Rattle.std.specs.Prelude.{◌≤◌, List, length, take};

    ghost Value = { List T };

    ghost view = { λ b. take b.used b.items.value.items };

    ghost invariant = { λ b. b.used ≤ length b.items.value.items };
}

impl<T: Drop> SharedBlock<T> {
    /// The block of all these items.
    pub(crate) fn new(alloc: Global, items: Vec<T>) -> Result<SharedBlock<T>, AllocError>
        ensures { IfOk result (λ block. block ≡ items.items) }
    {
        let used = items.len();
        Ok(SharedBlock {
            items: Arc::new(alloc, items)?,
            used,
        })
    }

    /// The first items, shared. Fails only where the count of owners is full.
    pub(crate) fn share_first_without_copying(
        &self,
        count: usize,
    ) -> Result<SharedBlock<T>, AllocError>
        requires { count ≤ length self.now }
        ensures { IfOk result (λ block. block ≡ take count self.now) }
    {
        Ok(SharedBlock {
            items: self.items.clone()?,
            used: count,
        })
    }

    /// Whether so many of its items are better shared than copied: at least half of those that are held then, and not few.
    pub(crate) fn should_share_rather_than_copy_first(&self, count: usize) -> bool {
        MIN_SHARED <= count && self.items.len() / 2 <= count
    }

    pub(crate) fn len(&self) -> usize
        ensures { result ≡ length self.now }
    {
        self.used
    }

    /// Its items.
    pub fn as_slice(&self) -> &[T]
        ensures { result.now ≡ self.now }
    {
        &self.items.as_slice()[..self.used]
    }
}
