//! Chunks that a read takes in turn.
ghost use Rattle.std.specs.Prelude.{◌≡◌, ◌<◌, ◌≤◌, IfErr, IfOk, length};
ghost use Rattle.host_names.specs.Digests.{digest_of};
ghost use Rattle.world_read.specs.Taking.{Gives, GivesNot, Takes};

use byte_view::{BlobInfo, Chunk, Hold};
use chunk_reads::{ChunkReader, Holder, ReadFault, hold_stretch};
use host_names::Digest;
use std::alloc::Global;
use std::marker::Model;
use std::sync::Arc;

/// Chunks in the order in which they are taken, and the name of the first one that was missed.
#[derive(Drop)]
pub(crate) struct Gathered<'a> {
    pub(crate) alloc: Global,
    pub(crate) left: &'a [Arc<Chunk>],
    pub(crate) missed: Option<Digest>,
}

impl<'a> Model for Gathered<'a> {
    ghost use Rattle.std.specs.Prelude.{map};
    ghost use Rattle.world_read.specs.Taking.{Taking};

    ghost Value = { Taking };

    ghost view = { λ g. record { left = map (λ chunk. chunk.value) g.left.now; missed = g.missed } };
}

impl<'a> ChunkReader for Gathered<'a> {
    ghost reads = { Takes };

    fn read(&mut self, name: &Digest) -> Result<Arc<Chunk>, ReadFault> {
        let Some((chunk, left)) = self.left.split_first() else {
            self.missed = Some(*name);
            return Err(ReadFault::Missing);
        };
        if chunk.name() != *name {
            self.missed = Some(*name);
            return Err(ReadFault::Missing);
        }
        let share = Arc::try_clone(chunk).map_err(|_| ReadFault::OutOfMemory)?;
        self.left = left;
        Ok(share)
    }
}

impl<'a> Holder for Gathered<'a> {
    ghost gave = { Gives };

    ghost failed = { GivesNot };

    fn hold(&mut self, info: Arc<BlobInfo>, first: usize, last: usize) -> Result<Hold, ReadFault> {
        hold_stretch(self.alloc, self, info, first, last)
    }
}
