//! A shelf in memory.
ghost use Rattle.std.specs.Prelude.{◌≡◌, None, OnErr, OnOk, Some, option_map};
ghost use Rattle.blob_store.specs.declared.shelves.ShelfName.{ShelfName};
ghost use Rattle.blob_store.specs.declared.shelves.ShelfName.TheVariants.{Part, Table};
ghost use Rattle.blob_store.specs.Shelves.{HasTheSame, IsPutAt, found_in};

use crate::shelves::{Shelf, ShelfFault, ShelfName};
use host_names::Digest;
use std::alloc::{AllocError, Global};
use std::collections::BTreeMap;

/// Pieces and tables in memory. Its device never fails.
#[derive(Drop)]
pub struct MemShelf {
    alloc: Global,
    parts: BTreeMap<Digest, Vec<u8>>,
    tables: BTreeMap<Digest, Vec<u8>>,
}

impl MemShelf {
    /// An empty shelf.
    pub fn new(alloc: Global) -> MemShelf
        ensures { (name : ShelfName) → found_in result name ≡ None }
    {
        MemShelf {
            alloc,
            parts: BTreeMap::new(alloc),
            tables: BTreeMap::new(alloc),
        }
    }

    /// Keeps a copy of some bytes under a name. If memory runs out, nothing changes.
    pub fn keep(&mut self, name: ShelfName, bytes: &[u8]) -> Result<(), AllocError>
        ensures ok { OnOk result (IsPutAt self.old self.new name bytes.now) }
        ensures err { OnErr result (HasTheSame self.old self.new) }
    {
        let copy = Vec::from_slice(self.alloc, bytes)?;
        match name {
            ShelfName::Part(digest) => self.keep_part(digest, copy),
            ShelfName::Table(digest) => self.keep_table(digest, copy),
        }
    }

    fn keep_part(&mut self, digest: Digest, bytes: Vec<u8>) -> Result<(), AllocError>
        ensures ok { OnOk result (IsPutAt self.old self.new (Part digest) bytes.items) }
        ensures err { OnErr result (HasTheSame self.old self.new) }
    {
        self.parts.insert(digest, bytes)?;
        Ok(())
    }

    fn keep_table(&mut self, digest: Digest, bytes: Vec<u8>) -> Result<(), AllocError>
        ensures ok { OnOk result (IsPutAt self.old self.new (Table digest) bytes.items) }
        ensures err { OnErr result (HasTheSame self.old self.new) }
    {
        self.tables.insert(digest, bytes)?;
        Ok(())
    }

    /// The bytes under a name.
    pub fn found(&self, name: ShelfName) -> Option<&Vec<u8>>
        ensures { option_map (λ bytes. bytes.now.items) result ≡ found_in self.now name }
    {
        match name {
            ShelfName::Part(digest) => self.parts.get(&digest),
            ShelfName::Table(digest) => self.tables.get(&digest),
        }
    }
}

impl Shelf for MemShelf {
    ghost use Rattle.blob_store.specs.Shelves.{Does};

    ghost failures = { λ shelf. 0 };

    ghost did = { Does };

    fn put(&mut self, name: ShelfName, bytes: &[u8]) -> Result<(), ShelfFault> {
        self.keep(name, bytes).map_err(|_| ShelfFault::OutOfMemory)
    }

    fn get(&mut self, name: ShelfName) -> Result<Option<Vec<u8>>, ShelfFault> {
        let Some(bytes) = self.found(name) else {
            return Ok(None);
        };
        let copy = Vec::from_slice(self.alloc, bytes.as_slice()).map_err(
            |_| ShelfFault::OutOfMemory,
        )?;
        Ok(Some(copy))
    }
}
