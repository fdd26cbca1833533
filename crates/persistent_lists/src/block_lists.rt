//! A list in blocks, whose handles are in a row.
ghost use Rattle.std.specs.Prelude.{◌≡◌, ◌<◌, ◌++◌, ◌∷◌, [], set, true, IfOk, OnOk, OnErr, length, option_copied, slice_get};
ghost use Rattle.shared_blocks.specs.Copies.{AreSame};

use shared_blocks::{BLOCK_LIMIT, Block, MOST_BLOCKS, item_at, with_item};
use std::alloc::{AllocError, Global};
use std::marker::Model;

/// A list whose copies share all blocks that are full. Contracts see its items, and whether there is
/// room for one more.
#[derive(Drop)]
pub(crate) struct BlockList<T> {
    full: Vec<Block<T>>,
    last: Vec<T>,
}

impl<T> Model for BlockList<T> {
    ghost use Rattle.std.specs.Prelude.{◌++◌, ◌≤◌, ◌^◌, ◌&&◌, length, nat_lt, vec_len, vec_capacity};
    ghost use Rattle.shared_blocks.specs.Blocks.{AreFull, joined};
    ghost use Rattle.persistent_lists.specs.Lists.{Shared};

    ghost Value = { Shared T };

    ghost view = { λ l. record { items = joined l.full.items ++ l.last.items; has_room = nat_lt (vec_len l.last) 128 && nat_lt (vec_len l.last) (vec_capacity l.last) } };

    ghost invariant = { λ l. AreFull l.full.items × (length l.full.items ≤ 2 ^ 48) × (vec_len l.last ≤ 128) };
}

impl<T: Drop> BlockList<T> {
    /// A list without items, which takes no memory.
    pub(crate) fn new(alloc: Global) -> BlockList<T>
        ensures { result.items ≡ [] }
    {
        BlockList {
            full: Vec::new(alloc),
            last: Vec::new(alloc),
        }
    }

    /// The number of items.
    pub(crate) fn len(&self) -> usize
        ensures { result ≡ length self.now.items }
    {
        self.full.len() * BLOCK_LIMIT + self.last.len()
    }

    /// The item at a place, from 0 on.
    pub(crate) fn get(&self, place: usize) -> Option<&T>
        ensures { option_copied result ≡ slice_get self.now.items place }
    {
        let block = place / BLOCK_LIMIT;
        if block < self.full.len() {
            return item_at(self.full[block].as_slice(), place % BLOCK_LIMIT);
        }
        item_at(self.last.as_slice(), place - self.full.len() * BLOCK_LIMIT)
    }

    /// Makes room for one more item.
    pub(crate) fn reserve(&mut self) -> Result<(), AllocError>
    where
        T: Clone,
        requires clones { AreSame T.is_clone }
        ensures items { self.new.items ≡ self.old.items }
        ensures room { OnOk result (self.new.has_room ≡ true) }
    {
        let alloc = *self.last.allocator();
        if self.last.len() == BLOCK_LIMIT {
            if self.full.len() == MOST_BLOCKS {
                return Err(AllocError);
            }
            let block = Block::new(alloc, self.last.as_slice().to_vec(alloc)?)?;
            self.full.push(block)?;
            self.last.clear();
        }
        self.last.reserve(1)?;
        Ok(())
    }

    /// Adds an item at the end, for which there is room.
    pub(crate) fn push_reserved(&mut self, item: T)
        requires { self.old.has_room ≡ true }
        ensures { self.new.items ≡ self.old.items ++ item ∷ [] }
    {
        self.last.push_reserved(item);
    }

    /// Adds an item at the end.
    pub(crate) fn push(&mut self, item: T) -> Result<(), AllocError>
    where
        T: Clone,
        requires clones { AreSame T.is_clone }
        ensures ok { OnOk result (self.new.items ≡ self.old.items ++ item ∷ []) }
        ensures err { OnErr result (self.new.items ≡ self.old.items) }
    {
        self.reserve()?;
        self.push_reserved(item);
        Ok(())
    }

    /// Writes an item over the one at a place, from 0 on. On an error nothing changes. If the place is in a full block, that block is
    /// copied.
    pub(crate) fn set(&mut self, place: usize, item: T) -> Result<(), AllocError>
    where
        T: Clone,
        requires clones { AreSame T.is_clone }
        requires within { place < length self.old.items }
        ensures ok { OnOk result (self.new.items ≡ set self.old.items place item) }
        ensures err { OnErr result (self.new.items ≡ self.old.items) }
        ensures room { self.new.has_room ≡ self.old.has_room }
    {
        let block = place / BLOCK_LIMIT;
        if block < self.full.len() {
            let alloc = *self.last.allocator();
            let items = self.full[block].as_slice();
            self.full[block] = with_item(alloc, items, place % BLOCK_LIMIT, item)?;
        } else {
            let past = place - self.full.len() * BLOCK_LIMIT;
            self.last[past] = item;
        }
        Ok(())
    }

    /// A copy. It shares all full blocks, and counts one owner more for each.
    pub(crate) fn copy(&self) -> Result<BlockList<T>, AllocError>
    where
        T: Clone,
        requires clones { AreSame T.is_clone }
        ensures { IfOk result (λ copy. copy.items ≡ self.now.items) }
    {
        Ok(BlockList {
            full: self.full.clone()?,
            last: self.last.clone()?,
        })
    }
}
