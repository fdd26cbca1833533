//! Cutting written items into blocks.
ghost use Rattle.std.specs.Prelude.{◌≡◌, ◌++◌, IfOk, OnOk};
ghost use Rattle.shared_blocks.specs.Blocks.{joined};
ghost use Rattle.shared_blocks.specs.Copies.{AreSame};
ghost use Rattle.persistent_maps.specs.Maps.{HaveItems};

use shared_blocks::{BLOCK_LIMIT, Block};
use std::alloc::{AllocError, Global};
use std::mem;

/// The room of a block of pairs is a multiple of this number.
const ROOM_STEP: usize = 16;

/// How items are cut that are too many for one block.
#[derive(Clone, Copy)]
pub(crate) enum Cut {
    /// Evenly, so that each block has room for more.
    Even,
    /// Into full blocks and one with the rest: where items are added at the end, all blocks become full this way.
    Full,
}

/// How many items each block gets, if `count` items are cut this way.
fn piece_size(count: usize, cut: Cut) -> usize {
    match cut {
        Cut::Even => count / (count / BLOCK_LIMIT + 1) + 1,
        Cut::Full => BLOCK_LIMIT,
    }
}

/// For how many items a new block has room, if `left` items are still to be cut: a multiple of `ROOM_STEP`. With exact room, a block that
/// grows would have a new size for each item, and the memory that it leaves behind would be too small for its successor by one item.
fn room_of(left: usize, size: usize) -> usize {
    left.min(size).min(BLOCK_LIMIT).div_ceil(ROOM_STEP) * ROOM_STEP
}

/// Adds a block of these items, unless there are none.
fn push_piece<T: Drop>(blocks: &mut Vec<Block<T>>, items: Vec<T>) -> Result<(), AllocError>
    requires { HaveItems blocks.old.items }
    ensures joined { OnOk result (joined blocks.new.items ≡ joined blocks.old.items ++ items.items) }
    ensures filled { OnOk result (HaveItems blocks.new.items) }
{
    if items.is_empty() {
        return Ok(());
    }
    let alloc = *blocks.allocator();
    blocks.push(Block::new(alloc, items)?)?;
    Ok(())
}

/// Adds blocks of these items.
fn push_pieces<T: Drop>(
    blocks: &mut Vec<Block<T>>,
    items: Vec<T>,
    cut: Cut,
) -> Result<(), AllocError>
    requires { HaveItems blocks.old.items }
    ensures joined { OnOk result (joined blocks.new.items ≡ joined blocks.old.items ++ items.items) }
    ensures filled { OnOk result (HaveItems blocks.new.items) }
{
    let alloc = *blocks.allocator();
    let size = piece_size(items.len(), cut);
    let mut left = items.len();
    let mut piece = Vec::with_capacity(alloc, room_of(left, size))?;
    for item in items {
        piece.push(item)?;
        left = left.saturating_sub(1);
        if piece.len() == size {
            let next = Vec::with_capacity(alloc, room_of(left, size))?;
            push_piece(blocks, mem::replace(&mut piece, next))?;
        }
    }
    push_piece(blocks, piece)
}

/// Whether two blocks with this many items each are to become one.
fn are_few(count: usize, other: usize) -> bool {
    count <= BLOCK_LIMIT / 2 && other <= BLOCK_LIMIT / 2
}

/// These items after those of the last block, which is taken away, if both are few; else these items alone.
fn with_neighbour<T: Clone + Drop>(
    blocks: &mut Vec<Block<T>>,
    items: Vec<T>,
) -> Result<Vec<T>, AllocError>
    requires clones { AreSame T.is_clone }
    requires filled { HaveItems blocks.old.items }
    ensures joined { IfOk result (λ all. joined blocks.new.items ++ all.items ≡ joined blocks.old.items ++ items.items) }
    ensures filled { OnOk result (HaveItems blocks.new.items) }
{
    let Some(last) = blocks.last() else {
        return Ok(items);
    };
    if !are_few(last.as_slice().len(), items.len()) {
        return Ok(items);
    }
    let mut all = last.as_slice().to_vec(*blocks.allocator())?;
    for item in items {
        all.push(item)?;
    }
    let _ = blocks.pop();
    Ok(all)
}

/// Adds blocks of these items. If there are few, and few in the block before, they join that block.
pub(crate) fn push_items<T: Clone + Drop>(
    blocks: &mut Vec<Block<T>>,
    items: Vec<T>,
    cut: Cut,
) -> Result<(), AllocError>
    requires clones { AreSame T.is_clone }
    requires filled { HaveItems blocks.old.items }
    ensures joined { OnOk result (joined blocks.new.items ≡ joined blocks.old.items ++ items.items) }
    ensures filled { OnOk result (HaveItems blocks.new.items) }
{
    let all = with_neighbour(blocks, items)?;
    push_pieces(blocks, all, cut)
}
