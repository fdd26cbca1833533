//! A desk is opened over what is found in a store, and the lines are played at it.
ghost use Rattle.std.specs.Prelude.{◌≡◌, IfOk, IfSome};
ghost use Rattle.shared_desk.specs.NewDesks.{AreNames};

use crate::desk::Store;
use crate::desk::deployers::Reader;
use crate::desk::gates::{GatedDisk, GatedShelf};
use crate::desk::played::{Play, play_and_close};
use crate::desk::scripts::DEPLOYERS;
use anyhow::{Result, anyhow};
use blob_store::Shelf;
use change_log::Log;
use change_undo::GREATEST_LIMIT;
use found_host::Found;
use host_disk::Disk;
use left_right::Absorb;
use seen_lists::ListName;
use shared_desk::{Desk, NewDesk, open};
use site_desk::{DeskName, KnownFiles, Notice, Seats};
use std::alloc::{AllocError, Global};
use std::io::Print;
use std::marker::Brand;
use std::sync::Wait;
use std::thread::Threads;

/// How many visitors a desk has room for: each deployer, each reader, and the first one of all.
const VISITORS: usize = 17;

/// A value in a place of its own.
fn boxed<T: Drop>(alloc: Global, value: T) -> Result<Box<T>, AllocError> {
    Ok(Box::new(alloc, value)?)
}

/// Plays the lines at an open desk, and closes it. It knows no type of what is shown, so the proof that threads may share a desk holds for any.
fn play_over<
    J: DeskName + Send + Sync,
    K: ListName<KnownFiles> + Send + Sync,
    D: Disk + Drop + Send,
    S: Shelf + Drop + Send,
    T: Absorb<Notice<J>, State = Log> + Drop + Send + Sync,
    R: Wait + Drop + Send + Sync,
    W: Threads + Wait + Print + Sync,
>(
    rt: &W,
    alloc: Global,
    what: &Play<'_>,
    desk: &mut Desk<J, K, D, S, T, R>,
    seats: Seats<J>,
    reader: Reader<J>,
) -> Result<()> {
    play_and_close(rt, alloc, what, desk, seats, &reader)
}

/// Plays at the desk of what is found, and closes it. If there is no memory for the desk, hands back what is found.
fn play_at<
    J: DeskName + Send + Sync,
    K: ListName<KnownFiles> + Send + Sync,
    D: Disk + Drop + Send,
    S: Shelf + Drop + Send,
    R: Wait + Drop + Send + Sync,
    W: Threads + Wait + Print + Sync,
>(
    rt: &W,
    alloc: Global,
    shows: R,
    what: &Play<'_>,
    new: NewDesk,
    found: Found<D, S>,
) -> Result<Option<Found<D, S>>>
    requires names { AreNames J.name J.parts J.book K.book new }
    requires entries { J.found ≡ found.journal.entries }
    requires uploads { K.found ≡ found.store.known }
    requires limit { found.limit ≡ 1000000 }
    ensures { IfOk result (λ left. IfSome left (λ back. back ≡ found)) }
{
    match open::<J, K, D, S, R>(alloc, shows, new, found, VISITORS) {
        Ok((desk, seats, reader)) => {
            let mut desk = boxed(alloc, desk)?;
            play_over(rt, alloc, what, &mut *desk, seats, reader)?;
            Ok(None)
        }
        Err(back) => Ok(Some(back)),
    }
}

/// The same under names of its own.
fn play_anywhere<
    D: Disk + Drop + Send,
    S: Shelf + Drop + Send,
    R: Threads + Wait + Print + Send + Sync,
>(rt: &R, alloc: Global, what: &Play<'_>, found: Found<D, S>) -> Result<Option<Found<D, S>>>
    requires limit { found.limit ≡ 1000000 }
    ensures { IfOk result (λ left. IfSome left (λ back. back ≡ found)) }
{
    let new = NewDesk::new(rt, DEPLOYERS as u64);
    play_at::<Brand, Brand, D, S, &R, R>(rt, alloc, rt, what, new, found)
}

/// What is found in a store.
fn find<D: Disk + Drop, S: Shelf + Drop>(alloc: Global, store: Store<D, S>) -> Result<Found<D, S>>
    ensures { IfOk result (λ found. found.limit ≡ 1000000) }
{
    match Found::open(
        alloc,
        store.first,
        store.second,
        store.shelf,
        GREATEST_LIMIT,
    ) {
        Ok(found) => Ok(found),
        Err(stop) => Err(anyhow!("no host is found: {:?}", stop.fault)),
    }
}

/// Prints how many entries are found, and a word after that.
fn tell_found<D: Disk, S: Shelf>(rt: &impl Print, found: &Found<D, S>, word: &str) -> Result<()> {
    Ok(println!(rt; "found {}{word}", found.history().len())?)
}

/// Fails if what is found was handed back.
fn end<D: Disk + Drop, S: Shelf + Drop>(left: Option<Found<D, S>>) -> Result<()> {
    match left {
        Some(_) => Err(anyhow!("a desk has no memory twice")),
        None => Ok(()),
    }
}

/// Plays at the desk of what was handed back.
fn play_again<
    D: Disk + Drop + Send,
    S: Shelf + Drop + Send,
    R: Threads + Wait + Print + Send + Sync,
>(rt: &R, alloc: Global, what: &Play<'_>, back: Found<D, S>) -> Result<()>
    requires limit { back.limit ≡ 1000000 }
{
    tell_found(rt, &back, " again")?;
    end(play_anywhere(rt, alloc, what, back)?)
}

/// Plays at the desk of what is found. If there is no memory for the desk, it is opened once more.
fn play_found<
    D: Disk + Drop + Send,
    S: Shelf + Drop + Send,
    R: Threads + Wait + Print + Send + Sync,
>(rt: &R, alloc: Global, what: &Play<'_>, found: Found<D, S>) -> Result<()>
    requires limit { found.limit ≡ 1000000 }
{
    tell_found(rt, &found, "")?;
    match play_anywhere(rt, alloc, what, found)? {
        Some(back) => play_again(rt, alloc, what, back),
        None => Ok(()),
    }
}

/// Plays at the desk of what is found in a store, whose calls pass gates.
pub(crate) fn play_in<
    D: Disk + Drop + Send,
    S: Shelf + Drop + Send,
    R: Threads + Wait + Print + Send + Sync,
>(rt: &R, alloc: Global, what: &Play<'_>, store: Store<D, S>) -> Result<()> {
    let gated = Store {
        first: GatedDisk::new(store.first, &what.gates.syncs),
        second: GatedDisk::new(store.second, &what.gates.syncs),
        shelf: GatedShelf::new(store.shelf, &what.gates.puts),
    };
    play_found(rt, alloc, what, find(alloc, gated)?)?;
    what.gates.tell(rt)
}
