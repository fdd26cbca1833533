//! Calls of a disk and of a shelf that are held back for what another thread does. They go on by themselves also where that never comes.
use anyhow::Result;
use blob_store::{Shelf, ShelfFault, ShelfName};
use host_disk::{DeviceFault, Disk};
use std::io::Print;
use std::sync::atomic::{AtomicU64, Ordering};
use std::thread;

/// How often a call looks whether what it waits for has come. It comes, however busy the machine is.
const TURNS: u64 = 30_000_000;

/// A gate. Once it is shut, calls are held back and counted, until another thread opens it.
#[derive(Drop)]
pub(crate) struct Gate {
    is_shut: AtomicU64,
    held: AtomicU64,
    opened: AtomicU64,
    passed: AtomicU64,
}

/// The gates of a store.
#[derive(Drop)]
pub(crate) struct Gates {
    pub(crate) syncs: Gate,
    pub(crate) puts: Gate,
}

impl Gates {
    /// Gates that hold no call back yet.
    pub(crate) fn new() -> Gates {
        Gates {
            syncs: Gate::new(),
            puts: Gate::new(),
        }
    }

    /// Prints how many calls came, and how many of them went on since their gate was opened.
    pub(crate) fn tell(&self, rt: &impl Print) -> Result<()> {
        let (syncs, puts) = (&self.syncs, &self.puts);
        println!(rt; "syncs {} passed {}", syncs.held(), syncs.passed())?;
        println!(rt; "puts {} passed {}", puts.held(), puts.passed())?;
        Ok(())
    }
}

/// Whether a count comes to one before the turns are over.
fn comes(count: &AtomicU64) -> bool {
    for _ in 0..TURNS {
        if count.load(Ordering::SeqCst) > 0 {
            return true;
        }
        thread::yield_now();
    }
    false
}

impl Gate {
    /// A gate that holds no call back yet.
    fn new() -> Gate {
        Gate {
            is_shut: AtomicU64::new(0),
            held: AtomicU64::new(0),
            opened: AtomicU64::new(0),
            passed: AtomicU64::new(0),
        }
    }

    /// Holds calls back from now on.
    pub(crate) fn shut(&self) {
        self.is_shut.store(1, Ordering::SeqCst);
    }

    /// Waits until a call is held back.
    pub(crate) fn await_held(&self) -> bool {
        comes(&self.held)
    }

    /// Lets each call go on.
    pub(crate) fn open(&self) {
        self.opened.store(1, Ordering::SeqCst);
    }

    /// How many calls have come so far.
    pub(crate) fn held(&self) -> u64 {
        self.held.load(Ordering::SeqCst)
    }

    /// How many of them went on since the gate was opened, and not by themselves.
    fn passed(&self) -> u64 {
        self.passed.load(Ordering::SeqCst)
    }

    /// A call, which is held back until the gate is opened.
    fn hold(&self) {
        if self.is_shut.load(Ordering::SeqCst) == 0 {
            return;
        }
        self.held.fetch_add(1, Ordering::SeqCst);
        if comes(&self.opened) {
            self.passed.fetch_add(1, Ordering::SeqCst);
        }
    }
}

/// A disk whose syncs are held back.
#[derive(Drop)]
pub(crate) struct GatedDisk<'a, D> {
    disk: D,
    gate: &'a Gate,
}

impl<'a, D> GatedDisk<'a, D> {
    pub(crate) fn new(disk: D, gate: &'a Gate) -> GatedDisk<'a, D> {
        GatedDisk { disk, gate }
    }
}

impl<D: Disk> Disk for GatedDisk<'_, D> {
    ghost is_modelled = { D.is_modelled };

    ghost seen = { λ gated. D.seen gated.disk };

    ghost may_leave = { λ gated. D.may_leave gated.disk };

    ghost moment = { λ gated. D.moment gated.disk };

    ghost left_since = { λ gated. D.left_since gated.disk };

    ghost faults = { λ gated. D.faults gated.disk };

    ghost may_fail = { λ gated. D.may_fail gated.disk };

    ghost may_stay = { λ gated. D.may_stay gated.disk };

    ghost counts_now = { λ gated. D.counts_now gated.disk };

    ghost only_now = { λ gated. D.only_now gated.disk };

    fn failures(&self) -> u64 {
        self.disk.failures()
    }

    fn len(&mut self) -> Result<usize, DeviceFault> {
        self.disk.len()
    }

    fn read(&mut self, at: usize, bytes: &mut [u8]) -> Result<(), DeviceFault> {
        self.disk.read(at, bytes)
    }

    fn write_at(&mut self, at: usize, bytes: &[u8]) -> Result<(), DeviceFault> {
        self.disk.write_at(at, bytes)
    }

    fn cut(&mut self, size: usize) -> Result<(), DeviceFault> {
        self.disk.cut(size)
    }

    fn sync(&mut self) -> Result<(), DeviceFault> {
        self.gate.hold();
        self.disk.sync()
    }
}

/// A shelf whose puts are held back.
#[derive(Drop)]
pub(crate) struct GatedShelf<'a, S> {
    shelf: S,
    gate: &'a Gate,
}

impl<'a, S> GatedShelf<'a, S> {
    pub(crate) fn new(shelf: S, gate: &'a Gate) -> GatedShelf<'a, S> {
        GatedShelf { shelf, gate }
    }
}

impl<S: Shelf> Shelf for GatedShelf<'_, S> {
    ghost failures = { λ gated. S.failures gated.shelf };

    ghost did = { λ old call new. S.did old.shelf call new.shelf };

    fn put(&mut self, name: ShelfName, bytes: &[u8]) -> Result<(), ShelfFault> {
        self.gate.hold();
        self.shelf.put(name, bytes)
    }

    fn get(&mut self, name: ShelfName) -> Result<Option<Vec<u8>>, ShelfFault> {
        self.shelf.get(name)
    }
}
