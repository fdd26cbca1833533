//! A stop that is asked for while a store is opened.
ghost use Rattle.std.specs.Prelude.{◌≡◌};

use crate::processes::Process;
use blob_store::{Shelf, ShelfFault, ShelfName};
use std::sync::atomic::{AtomicBool, AtomicU64, Ordering};
use std::time::Clock;

/// How many milliseconds pass between two looks at the signals.
const TICK: u64 = 1_000;

/// Whether the end of the program was asked for while a store is opened.
#[derive(Drop)]
pub struct Halt<'a, R, P> {
    rt: &'a R,
    process: &'a P,
    looked: AtomicU64,
    is_asked: AtomicBool,
    is_opened: AtomicBool,
}

impl<'a, R: Clock, P: Process> Halt<'a, R, P> {
    /// The store isn't opened yet.
    pub fn new(rt: &'a R, process: &'a P) -> Halt<'a, R, P> {
        Halt {
            rt,
            process,
            looked: AtomicU64::new(0),
            is_asked: AtomicBool::new(false),
            is_opened: AtomicBool::new(false),
        }
    }

    /// The opening is over: from now on the nodes answer for the end of the program.
    pub fn end(&self) {
        self.is_opened.store(true, Ordering::SeqCst);
    }

    /// Whether the end was asked for.
    pub fn is_asked(&self) -> bool {
        self.is_asked.load(Ordering::SeqCst)
    }

    /// Looks once a second whether the end is asked for. Answers whether the opening is to stop.
    fn stops(&self) -> bool {
        if self.is_opened.load(Ordering::SeqCst) {
            return false;
        }
        let now = match self.rt.monotonic() {
            Ok(time) => u64::try_from(time.as_millis()).unwrap_or(u64::MAX),
            Err(_) => 0,
        };
        if now.saturating_sub(self.looked.load(Ordering::SeqCst)) >= TICK {
            self.looked.store(now, Ordering::SeqCst);
            if self.process.ends_asked() > 0 {
                self.is_asked.store(true, Ordering::SeqCst);
            }
        }
        self.is_asked()
    }
}

/// A shelf whose reads stop once the end of the program is asked for while its store is opened.
#[derive(Drop)]
pub struct HaltingShelf<'a, S, R, P> {
    shelf: S,
    halt: &'a Halt<'a, R, P>,
}

impl<'a, S, R, P> HaltingShelf<'a, S, R, P> {
    /// The same shelf until then.
    pub fn new(shelf: S, halt: &'a Halt<'a, R, P>) -> HaltingShelf<'a, S, R, P>
        ensures { result.shelf ≡ shelf }
    {
        HaltingShelf { shelf, halt }
    }
}

/// A read that is stopped fails for want of memory, which says nothing of the device.
impl<S: Shelf, R: Clock, P: Process> Shelf for HaltingShelf<'_, S, R, P> {
    ghost use Rattle.std.specs.Prelude.{◌≡◌, ◌⊎◌};
    ghost use Rattle.blob_store.specs.Calls.{GetFails};
    ghost use Rattle.blob_store.specs.declared.shelves.ShelfFault.TheVariants.{OutOfMemory};
    ghost use Rattle.blob_store.specs.declared.shelves.ShelfName.{ShelfName as Name};

    ghost failures = { λ halting. S.failures halting.shelf };

    ghost did = { λ old call new. S.did old.shelf call new.shelf
        ⊎ ((name : Name) × (call ≡ GetFails name OutOfMemory) × (new.shelf ≡ old.shelf)) };

    fn put(&mut self, name: ShelfName, bytes: &[u8]) -> Result<(), ShelfFault> {
        self.shelf.put(name, bytes)
    }

    fn get(&mut self, name: ShelfName) -> Result<Option<Vec<u8>>, ShelfFault> {
        if self.halt.stops() {
            return Err(ShelfFault::OutOfMemory);
        }
        self.shelf.get(name)
    }
}
