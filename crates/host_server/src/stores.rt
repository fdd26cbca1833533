//! A run over a store: it is opened, and one connection is served.
ghost use Rattle.std.specs.Prelude.{◌≡◌, ◌≢◌, ◌⊎◌, [], IfErr, OnOk};
ghost use Rattle.host_server.specs.Solo.{RunsFolder, RunsStore, SaysFault};
ghost use Rattle.found_host.specs.declared.faults.OpenFault.TheVariants.{JournalDevice, OutOfMemory};

use crate::kept_files::keep_files;
use crate::lost_journals::tell_of_lost_journal;
use crate::opening_lines::{line_of, status_of};
use crate::runs::{fail, serve_server};
use crate::servers::Server;
use blob_store::{DirShelf, Shelf};
use change_undo::GREATEST_LIMIT;
use found_host::OpenFault;
use host_disk::{Disk, FileDisk, LockedFolder};
use http_wire::{Sink, Steady};
use std::alloc::Global;
use std::fs::File;
use std::io::Eprint;
use std::path::PathBuf;
use std::rt::Files;

/// The names of the journal's two slots in a folder.
pub(crate) const FIRST: &str = "journal";

pub(crate) const SECOND: &str = "journal.2";

/// What a store is kept on: the disks of its journal's two slots, and its shelf.
#[derive(Drop)]
pub struct Store<D, S> {
    pub first: D,
    pub second: D,
    pub shelf: S,
}

/// Serves one connection over a store, and answers the exit status. If it isn't 0, `errors` is told why: either the store can't be opened, and
/// nothing is answered, or the connection failed.
pub fn run_store<S: Shelf + Drop, D: Disk + Drop, X: Steady, E: Sink>(
    alloc: Global,
    store: Store<D, S>,
    duplex: &mut X,
    errors: &mut E,
) -> u8
    ensures { RunsStore D.Disk S.did S.failures X.Duplex E.may_fail store.first store.second store.shelf result
        duplex.old duplex.new (E.held errors.old) (E.held errors.new) }
{
    match Server::open(
        alloc,
        store.first,
        store.second,
        store.shelf,
        GREATEST_LIMIT,
    ) {
        Ok(server) => serve_server(alloc, server, duplex, errors),
        Err(stop) => refuse(errors, &stop.fault),
    }
}

/// Writes why a store can't be opened, and answers the exit status.
fn refuse<E: Sink>(errors: &mut E, fault: &OpenFault) -> u8
    ensures { SaysFault E.may_fail fault.now result (E.held errors.old) (E.held errors.new) }
{
    fail(errors, status_of(fault), line_of(fault).as_str())
}

/// The disks of the journal's slots in a folder, which is locked before anything is looked for there. A file of which the opening would drop more
/// than one unfinished record may have left is kept first.
fn open_slots<'a, R: Files<File = File> + Eprint>(
    rt: &'a R,
    alloc: Global,
    folder: &str,
) -> Result<(FileDisk<'a, R>, FileDisk<'a, R>), OpenFault>
    ensures fault { IfErr result (λ why. (why ≡ JournalDevice) ⊎ (why ≡ OutOfMemory)) }
{
    let first = PathBuf::from_str(alloc, folder)?.join(alloc, FIRST)?;
    let second = PathBuf::from_str(alloc, folder)?.join(alloc, SECOND)?;
    let locked = LockedFolder::lock(rt, folder).map_err(|_| OpenFault::JournalDevice)?;
    tell_of_lost_journal(rt, alloc, folder, first.as_str(), second.as_str())?;
    let (first, second) = FileDisk::open_both(rt, locked, first, second).map_err(
        |_| OpenFault::JournalDevice,
    )?;
    keep_files(rt, alloc, folder, first, second)
}

/// What an existing folder keeps a store on. If it has files of a store and no journal, one line on standard error says so.
pub fn open_folder<'a, R: Files<File = File> + Eprint>(
    rt: &'a R,
    alloc: Global,
    folder: &str,
) -> Result<Store<FileDisk<'a, R>, DirShelf<'a, R>>, OpenFault>
    ensures named { OnOk result (folder.now ≢ []) }
    ensures fault { IfErr result (λ why. (why ≡ JournalDevice) ⊎ (why ≡ OutOfMemory)) }
{
    if folder.is_empty() {
        return Err(OpenFault::JournalDevice);
    }
    let (first, second) = open_slots(rt, alloc, folder)?;
    let shelf = DirShelf::new(rt, alloc, folder)?;
    Ok(Store {
        first,
        second,
        shelf,
    })
}

/// The same over the store in a folder.
pub(crate) fn run_folder<R: Files<File = File> + Eprint, X: Steady, E: Sink>(
    rt: &R,
    alloc: Global,
    folder: &str,
    duplex: &mut X,
    errors: &mut E,
) -> u8
    ensures { RunsFolder ⟦<FileDisk<'static, R> as Disk>⟧ ⟦<DirShelf<'static, R> as Shelf>⟧ X.Duplex E.may_fail
        folder.now result duplex.old duplex.new (E.held errors.old) (E.held errors.new) }
{
    match open_folder(rt, alloc, folder) {
        Ok(store) => run_store(alloc, store, duplex, errors),
        Err(fault) => refuse(errors, &fault),
    }
}
