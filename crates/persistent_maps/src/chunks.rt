//! Blocks of pairs in a row, which copies share.
ghost use Rattle.std.specs.Prelude.{◌≡◌, IfOk};
ghost use Rattle.shared_blocks.specs.Blocks.{joined};
ghost use Rattle.persistent_maps.specs.Maps.{HaveItems};

use shared_blocks::Block;
use std::alloc::AllocError;
use std::marker::Model;

/// Blocks of pairs in a row, at most as many as a block has pairs. Contracts see the pairs. Copies share them.
///
/// A write copies the handles of one chunk, a count for each, which takes less time than copying the pairs of a block. A copy of a map of
/// 1,000,000 pairs counts some hundred chunks (61 if all are full); with one level of blocks it would count ten thousand.
#[derive(Drop)]
pub(crate) struct Chunk<K, V> {
    blocks: Block<Block<(K, V)>>,
}

impl<K, V> Model for Chunk<K, V> {
    ghost use Rattle.std.specs.Prelude.{List};
    ghost use Rattle.shared_blocks.specs.Blocks.{joined};
    ghost use Rattle.persistent_maps.specs.Maps.{HaveItems};

    ghost Value = { List (K × V) };

    ghost view = { λ c. joined c.blocks };

    ghost invariant = { λ c. HaveItems c.blocks };
}

impl<K: Drop, V: Drop> Chunk<K, V> {
    /// The chunk of these blocks.
    pub(crate) fn new(blocks: Block<Block<(K, V)>>) -> Chunk<K, V>
        requires { HaveItems blocks }
        ensures { result ≡ joined blocks }
    {
        Chunk { blocks }
    }

    /// The blocks.
    pub(crate) fn as_slice(&self) -> &[Block<(K, V)>]
        ensures pairs { joined result.now ≡ self.now }
        ensures filled { HaveItems result.now }
    {
        self.blocks.as_slice()
    }

    /// The blocks, shared.
    pub(crate) fn share(&self) -> Result<Block<Block<(K, V)>>, AllocError>
        ensures pairs { IfOk result (λ blocks. joined blocks ≡ self.now) }
        ensures filled { IfOk result (λ blocks. HaveItems blocks) }
    {
        self.blocks.clone()
    }
}

impl<K: Drop, V: Drop> Clone for Chunk<K, V> {
    ghost is_clone = { λ chunk copy. copy ≡ chunk };

    fn clone(&self) -> Result<Chunk<K, V>, AllocError> {
        Ok(Chunk::new(self.share()?))
    }
}
