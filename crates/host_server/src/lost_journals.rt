//! What is said of a folder that has files of a store and no journal.
ghost use Rattle.std.specs.Prelude.{◌≡◌, ◌⊎◌, IfErr};
ghost use Rattle.found_host.specs.declared.faults.OpenFault.TheVariants.{JournalDevice, OutOfMemory};

use found_host::OpenFault;
use std::alloc::Global;
use std::fs;
use std::io::{self, Eprint, ErrorKind};
use std::rt::Files;

/// What the operator is told before a journal without entries is made there.
const BEGINS_EMPTY: &str =
    "filehost: the folder has files of a store and no journal: it begins with an empty history\n";

/// Whether a file of this name is a piece or a table on a shelf, or a file of the journal that was kept.
fn is_of_store(name: &str) -> bool {
    name.starts_with("c-") || name.starts_with("t-") || name.starts_with("journal.kept-")
}

/// Whether a folder has such files. A name that is no text is not one of them.
fn has_files<R: Files>(rt: &R, alloc: Global, folder: &str) -> io::Result<bool> {
    for entry in fs::read_dir(&(rt, alloc), folder)? {
        let is_found = match entry {
            Ok(found) => is_of_store(found.file_name()),
            Err(error) if error.kind() == ErrorKind::InvalidFilename => false,
            Err(error) => return Err(error),
        };
        if is_found {
            return Ok(true);
        }
    }
    Ok(false)
}

/// Whether a slot may have a file of the journal. One of at most a byte has none.
fn may_have_journal<R: Files>(rt: &R, slot: &str) -> io::Result<bool> {
    match fs::metadata(rt, slot) {
        Ok(found) => Ok(found.len() > 1),
        Err(error) if error.kind() == ErrorKind::NotFound => Ok(false),
        Err(error) => Err(error),
    }
}

/// Whether a folder has such files, but neither slot has a file of its journal.
fn lacks_journal<R: Files>(
    rt: &R,
    alloc: Global,
    folder: &str,
    first: &str,
    second: &str,
) -> io::Result<bool> {
    if may_have_journal(rt, first)? || may_have_journal(rt, second)? {
        return Ok(false);
    }
    has_files(rt, alloc, folder)
}

/// Why a folder that can't be looked through isn't opened.
pub(crate) fn fault_of(error: &io::Error) -> OpenFault
    ensures { (result ≡ JournalDevice) ⊎ (result ≡ OutOfMemory) }
{
    match error.kind() {
        ErrorKind::OutOfMemory => OpenFault::OutOfMemory,
        _ => OpenFault::JournalDevice,
    }
}

/// Says on standard error, as far as that can be written, if a folder lacks the journal that its files had. An operator who restored the files
/// alone learns of it before the folder has an empty journal.
pub(crate) fn tell_of_lost_journal<R: Files + Eprint>(
    rt: &R,
    alloc: Global,
    folder: &str,
    first: &str,
    second: &str,
) -> Result<(), OpenFault>
    ensures fault { IfErr result (λ why. (why ≡ JournalDevice) ⊎ (why ≡ OutOfMemory)) }
{
    match lacks_journal(rt, alloc, folder, first, second) {
        Ok(true) => {
            let _ = rt.eprint(BEGINS_EMPTY);
            Ok(())
        }
        Ok(false) => Ok(()),
        Err(error) => Err(fault_of(&error)),
    }
}
