//! A shelf that is lent.
ghost use Rattle.std.specs.Prelude.{◌≡◌};

use crate::shelves::{Shelf, ShelfFault, ShelfName};

/// A shelf on loan: its owner has it again once this value is dropped. Each call is a call of the shelf.
#[derive(Drop)]
pub struct LentShelf<'a, S> {
    shelf: &'a mut S,
}

impl<'a, S: Shelf> LentShelf<'a, S> {
    /// Lends a shelf.
    pub fn new(shelf: &'a mut S) -> LentShelf<'a, S>
        ensures { result.shelf ≡ shelf.entry }
    {
        LentShelf { shelf }
    }
}

impl<S: Shelf> Shelf for LentShelf<'_, S> {
    ghost failures = { λ lent. S.failures lent.shelf.now };

    ghost did = { λ old call new. S.did old.shelf.now call new.shelf.now };

    fn put(&mut self, name: ShelfName, bytes: &[u8]) -> Result<(), ShelfFault> {
        self.shelf.put(name, bytes)
    }

    fn get(&mut self, name: ShelfName) -> Result<Option<Vec<u8>>, ShelfFault> {
        self.shelf.get(name)
    }
}
