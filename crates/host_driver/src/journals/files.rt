//! Journals in files.
ghost use Rattle.std.specs.Prelude.{◌≡◌, ◌≤◌};
ghost use Rattle.change_log.specs.Logs.{last_number};
ghost use Rattle.entry_texts.specs.Spells.{IsInRange};

use crate::journals::entries::numbered;
use anyhow::{Result, anyhow};
use change_journal::{Journal, Prepared, prepare};
use change_log::Log;
use host_disk::{Disk, FileDisk, LockedFolder};
use record_file::OpenFault;
use site_change::Entry;
use std::alloc::{AllocError, Global};
use std::path::{Path, PathBuf};
use std::time::{Duration, Instant};

/// The disks of the two slots of a journal.
#[derive(Drop)]
struct Slots<D> {
    first: D,
    second: D,
}

/// Those of a journal in files: the first slot is the file at the path, and the name of the second one has `.2` behind it.
fn slots_at<'a>(rt: &'a HostRuntime, path: &str) -> Result<Slots<FileDisk<'a, HostRuntime>>> {
    let folder = match Path::new(path).parent() {
        Some(parent) if !parent.as_str().is_empty() => parent.as_str(),
        _ => ".",
    };
    let locked = LockedFolder::lock(rt, folder)?;
    let beside = format!(in rt.alloc(); "{path}.2")?;
    let first = PathBuf::from_str(rt.alloc(), path)?;
    let second = PathBuf::from_str(rt.alloc(), beside.as_str())?;
    let (first, second) = FileDisk::open_both(rt, locked, first, second)?;
    Ok(Slots { first, second })
}

/// A journal that is open, and how many entries it has at most.
#[derive(Drop)]
struct Filled<D: Disk> {
    journal: Journal<D>,
    count: u64,
    ghost counted: { last_number journal.entries ≤ count },
}

impl<D: Disk + Drop> Filled<D> {
    fn open(alloc: Global, slots: Slots<D>) -> Result<Filled<D>> {
        match Journal::open(alloc, slots.first, slots.second) {
            Ok((journal, log)) => Ok(Filled {
                journal,
                count: log.len(),
            }),
            Err(stop) => Err(anyhow!("the journal isn't opened: {:?}", stop.fault)),
        }
    }

    fn put(&mut self, entry: Prepared) -> Result<()> {
        if self.count >= 1_000_000 {
            return Err(anyhow!("the journal is full"));
        }
        self.journal.put(entry)?;
        self.count += 1;
        Ok(())
    }
}

/// Puts an entry so often into the journal of two slots, and answers the time, in which it is also prepared.
fn put_again<D: Disk + Drop>(
    rt: &HostRuntime,
    slots: Slots<D>,
    entry: &Entry,
    times: u64,
) -> Result<Duration>
    requires { IsInRange entry.now }
{
    let mut journal = Filled::open(rt.alloc(), slots)?;
    let begun = Instant::now(rt)?;
    for _ in 0..times {
        journal.put(prepare(rt.alloc(), entry)?)?;
    }
    Ok(begun.elapsed(rt)?)
}

/// Opens a journal, and puts an entry so often.
pub(crate) fn put_same(rt: &HostRuntime, path: &str, entry: &Entry, times: u64) -> Result<Duration>
    requires { IsInRange entry.now }
{
    put_again(rt, slots_at(rt, path)?, entry, times)
}

/// Puts the entry of a number.
fn put_one<D: Disk + Drop>(rt: &HostRuntime, journal: &mut Filled<D>, number: u64) -> Result<()> {
    let entry = numbered(rt.alloc(), number)?;
    journal.put(prepare(rt.alloc(), &entry)?)
}

/// Puts the entries of the numbers from 1 on into the journal of two slots.
fn put_each<D: Disk + Drop>(rt: &HostRuntime, slots: Slots<D>, entries: u64) -> Result<()> {
    let mut journal = Filled::open(rt.alloc(), slots)?;
    for number in 1..=entries {
        put_one(rt, &mut journal, number)?;
    }
    Ok(())
}

/// Opens a journal, and puts the entries of the numbers from 1 on.
pub(crate) fn put_numbered(rt: &HostRuntime, path: &str, entries: u64) -> Result<()> {
    put_each(rt, slots_at(rt, path)?, entries)
}

/// How many entries a log has, in words.
fn said(alloc: Global, log: &Log) -> Result<String, AllocError> {
    format!(in alloc; "{} entries", log.len())
}

fn said_fault(alloc: Global, fault: OpenFault) -> Result<String, AllocError> {
    match fault {
        OpenFault::BadRecord(number) => format!(in alloc; "BadRecord {number}"),
        fault => format!(in alloc; "{fault:?}"),
    }
}

/// What is opened of two slots, and the time.
fn open_slots<D: Disk + Drop>(rt: &HostRuntime, slots: Slots<D>) -> Result<(String, Duration)> {
    let begun = Instant::now(rt)?;
    match Journal::open(rt.alloc(), slots.first, slots.second) {
        Ok((_, log)) => {
            let took = begun.elapsed(rt)?;
            Ok((said(rt.alloc(), &log)?, took))
        }
        Err(stop) => Ok((said_fault(rt.alloc(), stop.fault)?, begun.elapsed(rt)?)),
    }
}

/// How many entries the journal at a path has, or why it isn't opened, and the time of that.
pub(crate) fn open(rt: &HostRuntime, path: &str) -> Result<(String, Duration)> {
    match slots_at(rt, path) {
        Ok(slots) => open_slots(rt, slots),
        Err(_) => Ok((said_fault(rt.alloc(), OpenFault::Device)?, Duration::ZERO)),
    }
}
