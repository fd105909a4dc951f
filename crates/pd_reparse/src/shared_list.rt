//! Lists whose first items other lists may keep too.
//!
//! A list holds its items in blocks. A list of the first items of another shares the blocks that it keeps, so that it costs
//! little however many they are.
ghost use Rattle.std.specs.Prelude.{◌≡◌, ◌≤◌, ◌<◌, ◌++◌, ◌∷◌, ◌+◌, [], length, take, get_or, slice_get, IfOk, OnOk, OnErr};
ghost use Rattle.std.specs.Option.{option_copied};
ghost use Rattle.pd_reparse.specs.SharedBlocks.{items_in};

mod block;
mod try_clone;

pub use self::block::SharedBlock;
pub use self::try_clone::TryClone;
use std::alloc::{AllocError, Global};
use std::marker::Model;
use std::mem;

/// How many items are in a block at most.
const BLOCK_LEN: usize = 64;

/// For how many items the first makes room where none was made.
const FIRST_CAPACITY: usize = 16;

/// Items in order: in blocks that other lists may keep too, and after them fewer than a block, which no other keeps.
#[derive(Drop)]
pub struct SharedList<T> {
    /// The blocks in order.
    blocks: Vec<SharedBlock<T>>,
    /// The items after the blocks, which no other list keeps.
    rest: Vec<T>,
    /// How many items there are in all.
    count: usize,
}

impl<T> Model for SharedList<T> {
    ghost use Rattle.std.specs.Prelude.{List, ◌≡◌, ◌++◌, length};
    ghost use Rattle.pd_reparse.specs.SharedBlocks.{items_in};

    ghost Value = { List T };

    ghost view = { λ l. items_in l.blocks.items ++ l.rest.items };

    ghost invariant = { λ l. l.count ≡ length (items_in l.blocks.items ++ l.rest.items) };
}

impl<T: Drop> SharedList<T> {
    /// No items.
    pub fn new(alloc: Global) -> SharedList<T>
        ensures { result ≡ [] }
    {
        SharedList {
            blocks: Vec::new(alloc),
            rest: Vec::new(alloc),
            count: 0,
        }
    }

    /// How many they are.
    pub fn len(&self) -> usize
        ensures { result ≡ length self.now }
    {
        self.count
    }

    /// The item at an index, from 0.
    pub fn at(&self, index: usize) -> &T
        requires { index < length self.now }
        ensures { result.now ≡ get_or self.now index result.now }
    {
        let (block, at) = locate_item(self.blocks.as_slice(), index);
        if block < self.blocks.len() {
            &self.blocks[block].as_slice()[at]
        } else {
            &self.rest[at]
        }
    }

    /// The item at an index, if there is one.
    pub fn get(&self, index: usize) -> Option<&T>
        ensures { option_copied result ≡ slice_get self.now index }
    {
        if index < self.len() {
            Some(self.at(index))
        } else {
            None
        }
    }

    /// The blocks, and the items after them.
    pub fn blocks_and_rest(&self) -> (&[SharedBlock<T>], &[T])
        ensures { items_in result.0.now ++ result.1.now ≡ self.now }
    {
        (self.blocks.as_slice(), self.rest.as_slice())
    }
}

impl<T: TryClone + Drop> SharedList<T> {
    /// Puts an item after the others.
    ///
    /// # Errors
    /// `AllocError` where a growth is refused, and then nothing is claimed of what the list holds.
    pub fn push(&mut self, item: T) -> Result<(), AllocError>
        ensures { OnOk result (self.new ≡ self.old ++ item ∷ []) }
    {
        if self.count == usize::MAX {
            return Err(AllocError);
        }
        push_with_first_capacity(&mut self.rest, item)?;
        self.count += 1;
        if self.rest.len() == BLOCK_LEN {
            self.pack_into_blocks()?;
        }
        Ok(())
    }

    /// Makes room at once for so many items more, as far as they come before the next block.
    ///
    /// # Errors
    /// `AllocError` where a growth is refused.
    pub fn reserve(&mut self, more: usize) -> Result<(), AllocError>
        ensures { self.new ≡ self.old }
    {
        let room = more.min(BLOCK_LEN.saturating_sub(self.rest.len()));
        self.rest.reserve_exact(room)
    }

    /// Puts all items into blocks, so that lists of the first of them share them. The items that follow the blocks
    /// become one block with as many of the last ones as have no more items than follow them, and room: so a list
    /// that grows little by little has few blocks, and few of its items are copied.
    ///
    /// # Errors
    /// As for `push`.
    pub fn pack_into_blocks(&mut self) -> Result<(), AllocError>
        ensures { OnOk result (self.new ≡ self.old) }
    {
        if self.rest.is_empty() {
            return Ok(());
        }
        let alloc = *self.rest.allocator();
        let SharedList {
            mut blocks,
            rest,
            count,
        } = mem::replace(self, SharedList::new(alloc));
        let mut items = pop_and_merge_small_trailing_blocks(alloc, &mut blocks, rest)?;
        items.shrink_to_fit();
        blocks.push(SharedBlock::new(alloc, items)?)?;
        *self = SharedList {
            blocks,
            rest: Vec::new(alloc),
            count,
        };
        Ok(())
    }

    /// The first items: all blocks of them but the last are shared, and the last where that pays.
    ///
    /// # Errors
    /// `AllocError` where memory for what isn't shared is refused.
    pub fn share_first(&self, count: usize) -> Result<SharedList<T>, AllocError>
        requires { count ≤ length self.now }
        ensures { IfOk result (λ list. list ≡ take count self.now) }
    {
        let alloc = *self.rest.allocator();
        if count == 0 {
            return Ok(SharedList::new(alloc));
        }
        let (whole, last) = locate_item(self.blocks.as_slice(), count - 1);
        let mut blocks = share_first_with_room_for_two_more(alloc, self.blocks.as_slice(), whole)?;
        let rest = if whole < self.blocks.len() {
            push_first_items_shared_or_return_clones(
                alloc,
                &mut blocks,
                &self.blocks[whole],
                last + 1,
            )?
        } else {
            cloned_first_items(alloc, self.rest.as_slice(), last + 1)?
        };
        Ok(SharedList {
            blocks,
            rest,
            count,
        })
    }
}

/// In which block the item at an index stands, and where in it; after the blocks where it is in none.
fn locate_item<T: Drop>(blocks: &[SharedBlock<T>], index: usize) -> (usize, usize)
    ensures within { result.0 ≤ length blocks.now }
    ensures before { length (items_in (take result.0 blocks.now)) + result.1 ≡ index }
    ensures inside { result.0 < length blocks.now → result.1 < length (get_or blocks.now result.0 []) }
{
    let mut left = index;
    for i in 0..blocks.len() {
        let len = blocks[i].len();
        if left < len {
            return (i, left);
        }
        left -= len;
    }
    (blocks.len(), left)
}

/// The first blocks, shared, with room for two more: one that is shared in part, and one of what is put after it.
fn share_first_with_room_for_two_more<T: Drop>(
    alloc: Global,
    blocks: &[SharedBlock<T>],
    count: usize,
) -> Result<Vec<SharedBlock<T>>, AllocError>
    requires { count ≤ length blocks.now }
    ensures { IfOk result (λ shared_first_blocks. shared_first_blocks.items ≡ take count blocks.now) }
{
    let mut shared_first_blocks = Vec::with_capacity(alloc, count + 2)?;
    for i in 0..count {
        let block = &blocks[i];
        shared_first_blocks.push(block.share_first_without_copying(block.len())?)?;
    }
    Ok(shared_first_blocks)
}

/// Puts the first items of a block after these blocks where that pays, else gives copies of them.
fn push_first_items_shared_or_return_clones<T: TryClone + Drop>(
    alloc: Global,
    blocks: &mut Vec<SharedBlock<T>>,
    block: &SharedBlock<T>,
    count: usize,
) -> Result<Vec<T>, AllocError>
    requires { count ≤ length block.now }
    ensures { IfOk result (λ rest. items_in blocks.new.items ++ rest.items ≡ items_in blocks.old.items ++ take count block.now) }
{
    if block.should_share_rather_than_copy_first(count) {
        blocks.push(block.share_first_without_copying(count)?)?;
        return Ok(Vec::new(alloc));
    }
    cloned_first_items(alloc, block.as_slice(), count)
}

/// Takes away the last blocks that become one with the items after them, and gives all these items. Each has no more items
/// than are after it, and room for them.
fn pop_and_merge_small_trailing_blocks<T: TryClone + Drop>(
    alloc: Global,
    blocks: &mut Vec<SharedBlock<T>>,
    rest: Vec<T>,
) -> Result<Vec<T>, AllocError>
    ensures { IfOk result (λ items. items_in blocks.new.items ++ items.items ≡ items_in blocks.old.items ++ rest.items) }
{
    let mut items = rest;
    for i in (0..blocks.len()).rev() {
        let block = &blocks[i];
        let most = items.len().min(BLOCK_LEN.saturating_sub(items.len()));
        if most < block.len() {
            break;
        }
        let mut more = cloned_first_items(alloc, block.as_slice(), block.len())?;
        more.append(&mut items)?;
        items = more;
        blocks.truncate(i);
    }
    Ok(items)
}

/// Copies of the first items.
fn cloned_first_items<T: TryClone + Drop>(
    alloc: Global,
    items: &[T],
    count: usize,
) -> Result<Vec<T>, AllocError>
    requires { count ≤ length items.now }
    ensures { IfOk result (λ cloned_first_items. cloned_first_items.items ≡ take count items.now) }
{
    let mut cloned_first_items = Vec::with_capacity(alloc, count)?;
    for i in 0..count {
        cloned_first_items.push(items[i].try_clone()?)?;
    }
    Ok(cloned_first_items)
}

/// Puts an item after these, the first with room for some more where none was made.
fn push_with_first_capacity<T: Drop>(items: &mut Vec<T>, item: T) -> Result<(), AllocError>
    ensures ok { OnOk result (items.new.items ≡ items.old.items ++ item ∷ []) }
    ensures err { OnErr result (items.new.items ≡ items.old.items) }
{
    items.reserve(if items.capacity() == 0 {
        FIRST_CAPACITY
    } else {
        1
    })?;
    items.push_reserved(item);
    Ok(())
}
