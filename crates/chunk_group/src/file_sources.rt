//! The source of a node that has a shelf.
ghost use Rattle.std.specs.Prelude.{◌≡◌, ⊤};
ghost use Rattle.chunk_group.specs.Stores.{LoadedOfFiles};

use crate::sources::Source;
use blob_store::{Files, Shelf};
use byte_view::Chunk;
use chunk_reads::ReadFault;
use host_names::Digest;

/// Gives the pieces of the files on a shelf, each checked once. It may answer any fault for any key.
#[derive(Drop)]
pub struct FileSource<S> {
    pub(crate) files: Files<S>,
}

impl<S: Shelf> FileSource<S> {
    /// The source of these files.
    pub fn new(files: Files<S>) -> FileSource<S>
        ensures { result.files ≡ files }
    {
        FileSource { files }
    }
}

impl<S: Shelf> Source for FileSource<S> {
    ghost allows = { λ _ _. ⊤ };

    ghost loaded = { LoadedOfFiles S.did S.failures };

    fn load(&mut self, key: &Digest) -> Result<Chunk, ReadFault> {
        self.files.chunk(key)
    }
}
