//! The reads of visitors.
ghost use Rattle.std.specs.Prelude.{◌≡◌, ◌<◌, ◌++◌, ◌∷◌, [], IfOk, OnErr, OnOk, is_some, length, option_map, replicate};
ghost use Rattle.world_desk.specs.Desks.{Enter, change_at, happens};
ghost use Rattle.host_world.specs.Visits.{IsNextOf, in_hand, with_reading};

use byte_view::Chunk;
use std::alloc::{AllocError, Global};
use std::marker::Model;
use std::sync::Arc;
use world_desk::Desk;
use world_read::{FileRead, Reading};

/// The reads of a visitor, in the order in which they began. If the last one waits for a chunk, it is the read in hand.
#[derive(Drop)]
pub(crate) struct Visits {
    reads: Vec<FileRead>,
}

impl Model for Visits {
    ghost use Rattle.std.specs.Prelude.{List};
    ghost use Rattle.world_read.specs.Reads.{ReadState};

    ghost Value = { List ReadState };

    ghost view = { λ v. v.reads.items };
}

impl Visits {
    /// No read yet.
    fn new(alloc: Global) -> Visits
        ensures { result ≡ [] }
    {
        Visits {
            reads: Vec::new(alloc),
        }
    }

    /// All of them.
    pub(crate) fn reads(&self) -> &[FileRead]
        ensures { result.now ≡ self.now }
    {
        self.reads.as_slice()
    }

    /// Whether one is in hand.
    pub(crate) fn is_reading(&self) -> bool
        ensures { result ≡ is_some (in_hand self.now) }
    {
        match self.reads.last() {
            Some(read) => read.wants().is_some(),
            None => false,
        }
    }

    /// What the read in hand becomes with what is ready for its visitor, if there is a read in hand.
    pub(crate) fn next(
        &self,
        alloc: Global,
        taken: Option<Arc<Chunk>>,
    ) -> Result<Option<Reading>, AllocError>
        ensures { IfOk result (λ next. IsNextOf (in_hand self.now) (option_map (λ chunk. chunk.value) taken) next) }
    {
        match self.reads.last() {
            Some(read) => read.next(alloc, taken),
            None => Ok(None),
        }
    }

    /// The last read goes on with this reading.
    pub(crate) fn go_on(&mut self, reading: Reading)
        ensures { self.new ≡ with_reading reading self.old }
    {
        let count = self.reads.len();
        if count > 0 {
            let read = &mut self.reads[count - 1];
            read.go_on(reading);
        }
    }

    /// Its visitor looks, and begins a read with that. If memory runs out, nothing changes.
    pub(crate) fn begin(
        &mut self,
        desk: &mut Desk,
        visitor: usize,
        read: FileRead,
    ) -> Result<(), AllocError>
        ensures desk { OnOk result (desk.new ≡ happens desk.old (Enter visitor)) }
        ensures reads { OnOk result (self.new ≡ self.old ++ read ∷ []) }
        ensures err { OnErr result ((desk.new ≡ desk.old) × (self.new ≡ self.old)) }
    {
        self.reads.reserve(1)?;
        desk.enter(visitor)?;
        self.reads.push_reserved(read);
        Ok(())
    }
}

/// The reads of this many visitors, who have none yet.
pub(crate) fn visits_of(alloc: Global, count: usize) -> Result<Vec<Visits>, AllocError>
    ensures { IfOk result (λ visits. visits.items ≡ replicate count []) }
{
    let mut visits = Vec::new(alloc);
    for _ in 0..count {
        visits.push(Visits::new(alloc))?;
    }
    Ok(visits)
}

/// A visitor looks, and begins a read with that. If memory runs out, nothing changes.
pub(crate) fn begin_at(
    visits: &mut Vec<Visits>,
    desk: &mut Desk,
    visitor: usize,
    read: FileRead,
) -> Result<(), AllocError>
    requires { visitor < length visits.old.items }
    ensures desk { OnOk result (desk.new ≡ happens desk.old (Enter visitor)) }
    ensures reads { OnOk result (visits.new.items ≡
        change_at visitor (λ reads. reads ++ read ∷ []) visits.old.items) }
    ensures err { OnErr result ((desk.new ≡ desk.old) × (visits.new.items ≡ visits.old.items)) }
{
    let visits = &mut visits[visitor];
    visits.begin(desk, visitor, read)?;
    Ok(())
}

/// The last read of a visitor goes on with this reading.
pub(crate) fn go_on_at(visits: &mut Vec<Visits>, visitor: usize, reading: Reading)
    requires { visitor < length visits.old.items }
    ensures { visits.new.items ≡ change_at visitor (with_reading reading) visits.old.items }
{
    let visits = &mut visits[visitor];
    visits.go_on(reading);
}
