//! Looks at a list, as a worker looks at a desk, and further owners of what a look shows.
ghost use Rattle.std.specs.Prelude.{◌≡◌, IfOk};

use crate::group::Measured;
use crate::group::thread_reads::{Looker, time_threads};
use anyhow::{Result, anyhow};
use growing::Growing;
use left_right::WriteHandle;
use seen_lists::{ListName, Listed, NewList, Receipt, SeenList, Shown, Visitor};
use std::alloc::{AllocError, Global};
use std::marker::{Brand, Model};
use std::sync::{Arc, Wait};
use std::thread::Threads;
use std::time::{Clock, Instant};

/// How many visitors there is room for.
const VISITORS: usize = 16;

/// A snapshot: the items.
#[derive(Drop)]
struct Items {
    items: Vec<u64>,
}

/// How many items there are. Nothing is pushed, so which is later doesn't matter.
#[derive(Drop)]
struct Count {
    count: u64,
}

impl Model for Count {
    ghost use Rattle.std.specs.Prelude.{ℕ};

    ghost Value = { ℕ };

    ghost view = { λ c. c.count };
}

impl Growing for Count {
    ghost is_later = { λ old new. Unit {0} };

    ghost itself = { λ count. tt };

    ghost goes_on = { λ first mid last one other. tt };
}

impl ListName<Count> for Brand {
    ghost book = { record { number = 0; log_name = 0; cells_name = 0 } };

    ghost found = { 0 };
}

impl Listed<Count> for Items {
    ghost use Rattle.std.specs.Prelude.{length};

    ghost item = { λ snap. length snap.items.items };
}

/// Who looks.
type Reader<L> = Visitor<Count, L, Items>;

/// Who shows it.
type Writer<L, R> = WriteHandle<Shown<Count, L, Items>, Receipt<Count, L, Items>, R>;

/// What is measured.
#[derive(Clone, Copy)]
pub(crate) enum OfLooks {
    /// So many looks.
    Look,
    /// So many further owners of what a look shows.
    Own,
    /// Reads of chunks by so many threads, which look before each of them.
    Reads,
}

/// Looks once.
fn look<L: ListName<Count>>(reader: &mut Reader<L>) -> Result<Arc<Items>> {
    match reader.look() {
        Ok(snap) => Ok(snap),
        Err(_) => Err(anyhow!("a look has no memory")),
    }
}

impl<L: ListName<Count> + Send + Sync> Looker for Visitor<Count, L, Items> {
    fn again(&self) -> Result<Visitor<Count, L, Items>> {
        Ok(Visitor::again(self)?)
    }

    fn look(&mut self) -> Result<()> {
        let _ = look(self)?;
        Ok(())
    }
}

/// What a look or an owner counts: one, and the items.
fn counted(snap: &Items) -> u64 {
    (snap.items.len() as u64).wrapping_add(1)
}

/// Looks so often, and counts the looks with the items that they show.
fn look_often<L: ListName<Count>>(reader: &mut Reader<L>, looks: u64) -> Result<u64> {
    let mut sum = 0u64;
    for _ in 0..looks {
        let snap = look(reader)?;
        sum = sum.wrapping_add(counted(&snap));
    }
    Ok(sum)
}

/// Gives a snapshot a further owner for a moment, so often, and counts the owners with its items.
fn own_often(snap: &Arc<Items>, times: u64) -> Result<u64, AllocError> {
    let mut sum = 0u64;
    for _ in 0..times {
        let share = Arc::try_clone(snap)?;
        sum = sum.wrapping_add(counted(&share));
    }
    Ok(sum)
}

/// The time of so many looks.
fn time_looks<L: ListName<Count>, R: Clock>(
    rt: &R,
    reader: &mut Reader<L>,
    looks: u64,
) -> Result<Measured> {
    let begun = Instant::now(rt)?;
    let sum = look_often(reader, looks)?;
    Ok(Measured {
        took: begun.elapsed(rt)?,
        sum,
    })
}

/// The time in which this snapshot is given so many further owners, each for a moment.
fn time_owners<R: Clock>(rt: &R, snap: &Arc<Items>, times: u64) -> Result<Measured> {
    let begun = Instant::now(rt)?;
    let sum = own_often(snap, times)?;
    Ok(Measured {
        took: begun.elapsed(rt)?,
        sum,
    })
}

/// The receipt of no items.
fn empty_receipt<L: ListName<Count>>(
    alloc: Global,
    list: &SeenList<Count, L>,
) -> Result<Receipt<Count, L, Items>, AllocError>
    requires { list.now.now ≡ 0 }
    ensures { IfOk result (λ receipt. receipt ≡ 0) }
{
    let items = Items {
        items: Vec::new(alloc),
    };
    Ok(Receipt::of(Arc::new(alloc, items)?, list.front()))
}

/// Shows a receipt.
fn show<L: ListName<Count>, R: Wait + Drop>(
    alloc: Global,
    rt: R,
    receipt: &Receipt<Count, L, Items>,
) -> Result<Writer<L, R>, AllocError> {
    let one = Shown::of(receipt.again()?);
    let other = Shown::of(receipt.again()?);
    WriteHandle::new(alloc, rt, one, other, VISITORS)
}

/// A reader of what a writer shows, which begins with a receipt.
fn reader_of<L: ListName<Count>, R: Wait + Drop>(
    writer: &Writer<L, R>,
    first: &Receipt<Count, L, Items>,
) -> Result<Reader<L>, AllocError> {
    Ok(Visitor::of(writer.handle()?, first.again()?))
}

/// Shows an empty list, and gives its writer and a reader.
fn show_empty<L: ListName<Count>, R: Wait + Drop>(
    alloc: Global,
    rt: R,
    new: NewList<Count>,
) -> Result<(Writer<L, R>, Reader<L>), AllocError>
    requires book { new ≡ L.book }
    requires found { L.found ≡ 0 }
{
    let list = new.named::<L>();
    let first = empty_receipt(alloc, &list)?;
    let writer = show(alloc, rt, &first)?;
    let reader = reader_of(&writer, &first)?;
    Ok((writer, reader))
}

/// Makes the measurement by a reader.
fn time_by<L: ListName<Count> + Send + Sync, R: Threads + Wait + Clock + Sync>(
    rt: &R,
    alloc: Global,
    reader: &mut Reader<L>,
    wanted: OfLooks,
    count: u64,
) -> Result<Measured> {
    match wanted {
        OfLooks::Look => time_looks(rt, reader, count),
        OfLooks::Own => time_owners(rt, &look(reader)?, count),
        OfLooks::Reads => time_threads(rt, alloc, count, &*reader),
    }
}

/// Makes the measurement at a list without items.
fn time_named<L: ListName<Count> + Send + Sync, R: Threads + Wait + Clock + Sync>(
    rt: &R,
    alloc: Global,
    new: NewList<Count>,
    wanted: OfLooks,
    count: u64,
) -> Result<Measured>
    requires book { new ≡ L.book }
    requires found { L.found ≡ 0 }
{
    // While the writer stays there is something to look at.
    let (_writer, mut reader) = show_empty::<L, &R>(alloc, rt, new)?;
    time_by(rt, alloc, &mut reader, wanted, count)
}

/// Makes the measurement, with so many looks, owners or threads.
pub(crate) fn time<R: Threads + Wait + Clock + Sync>(
    rt: &R,
    alloc: Global,
    wanted: OfLooks,
    count: u64,
) -> Result<Measured> {
    time_named::<Brand, R>(rt, alloc, NewList::new(rt), wanted, count)
}
