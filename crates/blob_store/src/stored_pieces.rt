//! The names of pieces that are on a shelf.
ghost use Rattle.std.specs.Prelude.{◌⊎◌, ◌↔◌, ◌≡◌, Contains, IsTrue, []};
ghost use Rattle.host_names.specs.declared.digests.Digest.{Digest as Name};

use host_names::Digest;
use std::alloc::Global;
use std::collections::BTreeSet;

/// The names of pieces of the files that a store knows. A name that there was no memory to keep is left out.
#[derive(Drop)]
pub(crate) struct StoredPieces {
    names: BTreeSet<Digest>,
}

impl StoredPieces {
    /// No names yet.
    pub(crate) fn new(alloc: Global) -> StoredPieces
        ensures { result.names.keys ≡ [] }
    {
        StoredPieces {
            names: BTreeSet::new(alloc),
        }
    }

    /// Whether it has a name.
    pub(crate) fn has(&self, name: &Digest) -> bool
        ensures { IsTrue result ↔ Contains self.now.names.keys name.now }
    {
        self.names.contains(name)
    }

    /// Adds names. A name that there is no memory to keep is left out.
    pub(crate) fn add(&mut self, names: &[Digest])
        ensures added { (name : Name) → Contains self.new.names.keys name
            → Contains self.old.names.keys name ⊎ Contains names.now name }
        ensures still { (name : Name) → Contains self.old.names.keys name → Contains self.new.names.keys name }
    {
        for name in names {
            let _ = self.names.insert(*name);
        }
    }
}
