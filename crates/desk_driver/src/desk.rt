//! Deployers and readers at one desk over a store in a folder, in steps or in threads: a line says what a deployer asks for, and what is answered and seen
//! is printed.

mod asked;
mod deployers;
pub(crate) mod desks;
pub(crate) mod gates;
pub(crate) mod played;
mod scripts;
mod stages;
mod threads;
mod works;

use anyhow::{Result, anyhow};
use blob_store::DirShelf;
use gates::Gates;
use host_disk::{FileDisk, LockedFolder};
use played::Play;
use stages::stage_of;
use std::io::{BufRead, BufReader};
use std::path::PathBuf;

/// The lines on standard input.
pub(crate) fn read_lines(rt: &HostRuntime) -> Result<Vec<String>> {
    let alloc = rt.alloc();
    let mut lines = Vec::new(alloc);
    for line in BufReader::new(alloc, rt.reader())?.lines(alloc) {
        lines.push(line?)?;
    }
    Ok(lines)
}

/// What a store is kept on: the disks of its journal's two slots, and its shelf.
#[derive(Drop)]
pub(crate) struct Store<D, S> {
    pub(crate) first: D,
    pub(crate) second: D,
    pub(crate) shelf: S,
}

/// What a folder keeps a store on.
pub(crate) fn open_folder<'a>(
    rt: &'a HostRuntime,
    folder: &str,
) -> Result<Store<FileDisk<'a, HostRuntime>, DirShelf<'a, HostRuntime>>> {
    let alloc = rt.alloc();
    let first = PathBuf::from_str(alloc, folder)?.join(alloc, "journal")?;
    let second = PathBuf::from_str(alloc, folder)?.join(alloc, "journal.2")?;
    let locked = LockedFolder::lock(rt, folder)?;
    let (first, second) = FileDisk::open_both(rt, locked, first, second)?;
    Ok(Store {
        first,
        second,
        shelf: DirShelf::new(rt, alloc, folder)?,
    })
}

/// What is played, by the word `desk` and that of a stage.
pub(crate) fn play_of<'a>(
    word: &str,
    stage: &str,
    gates: &'a Gates,
    lines: &'a [String],
) -> Result<Play<'a>> {
    if word != "desk" {
        return Err(anyhow!("no run has these words"));
    }
    let stage = stage_of(stage).ok_or(anyhow!("there is no such stage"))?;
    Ok(Play {
        stage,
        gates,
        lines,
    })
}
