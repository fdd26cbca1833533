//! Files of a journal that are kept beside it, before an opening drops a part of them.
ghost use Rattle.std.specs.Prelude.{◌≡◌, ◌⊎◌, ◌<◌, IfErr, length};
ghost use Rattle.found_host.specs.declared.faults.OpenFault.TheVariants.{JournalDevice, OutOfMemory};

use crate::lost_journals::fault_of;
use crate::stores::{FIRST, SECOND};
use change_journal::look;
use found_host::OpenFault;
use host_disk::{Disk, FileDisk};
use record_file::{Looked, Loss, OpenFault as JournalFault};
use std::alloc::Global;
use std::fs::{self, File, OpenFile, OpenOptions};
use std::io::{self, Eprint, ErrorKind, Write};
use std::os::unix::fs::OpenOptionsExt;
use std::path::Path;
use std::rt::Files;

/// The name of a copy until all of it is synced.
const TEMPORARY: &str = "journal.kept.tmp";

/// The most files that are kept.
const MOST_KEPT: u64 = 1_000_000;

/// Who may read and write a file that is kept: its owner.
const OWNER_ONLY: u32 = 0o600;

/// How many bytes are copied at once.
const PIECE: usize = 1 << 16;

/// Writes bytes of a disk to a file, all of them up to this size.
fn copy_bytes<D: Disk, W: Write>(
    disk: &mut D,
    file: &mut W,
    size: usize,
    buffer: &mut [u8],
) -> Result<(), OpenFault>
    requires { 0 < length buffer.old }
    ensures fault { IfErr result (λ why. (why ≡ JournalDevice) ⊎ (why ≡ OutOfMemory)) }
{
    let mut at = 0;
    while at < size {
        let count = buffer.len().min(size - at);
        let bytes = &mut buffer[..count];
        disk.read(at, bytes).map_err(|_| OpenFault::JournalDevice)?;
        file.write_all(bytes).map_err(|error| fault_of(&error))?;
        at += count;
    }
    Ok(())
}

/// Makes a file anew, for its owner alone. What a stopped program left under its name is removed first.
fn make_anew<R: Files<File = File>>(rt: &R, path: &str) -> io::Result<File> {
    match fs::remove_file(rt, path) {
        Err(error) if error.kind() != ErrorKind::NotFound => return Err(error),
        _ => {}
    }
    let mut options = OpenOptions::new();
    options.write(true).create_new(true);
    options.mode(OWNER_ONLY);
    options.open(rt, path)
}

/// Writes all bytes of a disk to a new file at a path, and syncs it. So many bytes are copied at once as the buffer has.
fn write_by<R: Files<File = File>, D: Disk>(
    rt: &R,
    disk: &mut D,
    path: &str,
    buffer: &mut [u8],
) -> Result<(), OpenFault>
    requires { 0 < length buffer.old }
    ensures fault { IfErr result (λ why. (why ≡ JournalDevice) ⊎ (why ≡ OutOfMemory)) }
{
    let size = disk.len().map_err(|_| OpenFault::JournalDevice)?;
    let mut file = make_anew(rt, path).map_err(|error| fault_of(&error))?;
    copy_bytes(disk, &mut file, size, buffer)?;
    file.sync_all().map_err(|error| fault_of(&error))
}

/// The same with a buffer of its own.
fn write_copy<R: Files<File = File>, D: Disk>(
    rt: &R,
    alloc: Global,
    disk: &mut D,
    path: &str,
) -> Result<(), OpenFault>
    ensures fault { IfErr result (λ why. (why ≡ JournalDevice) ⊎ (why ≡ OutOfMemory)) }
{
    let mut buffer = vec![in alloc; 0; PIECE]?;
    write_by(rt, disk, path, buffer.as_mut_slice())
}

/// Whether nothing has this path.
fn is_free<R: Files>(rt: &R, path: &str) -> Result<bool, OpenFault>
    ensures fault { IfErr result (λ why. (why ≡ JournalDevice) ⊎ (why ≡ OutOfMemory)) }
{
    match fs::symlink_metadata(rt, path) {
        Ok(_) => Ok(false),
        Err(error) if error.kind() == ErrorKind::NotFound => Ok(true),
        Err(error) => Err(fault_of(&error)),
    }
}

/// The first name for a kept file that nothing in a folder has.
fn free_name<R: Files>(rt: &R, alloc: Global, folder: &str) -> Result<String, OpenFault>
    ensures fault { IfErr result (λ why. (why ≡ JournalDevice) ⊎ (why ≡ OutOfMemory)) }
{
    for number in 1..=MOST_KEPT {
        let name = format!(in alloc; "journal.kept-{}", number)?;
        let path = Path::new(folder).join(alloc, name.as_str())?;
        if is_free(rt, path.as_str())? {
            return Ok(name);
        }
    }
    Err(OpenFault::JournalDevice)
}

/// Gives the copy at a path its own name in a folder, and syncs the folder, so that the name lasts.
fn name_copy<R: Files<File = File>>(rt: &R, folder: &str, path: &str, own: &str) -> io::Result<()> {
    fs::rename(rt, path, own)?;
    File::open(rt, folder)?.sync_all()
}

/// Copies all of a disk into a folder under this name. Nothing is left of a copy that can't be made.
fn keep_as<R: Files<File = File>, D: Disk>(
    rt: &R,
    alloc: Global,
    folder: &str,
    disk: &mut D,
    name: &str,
) -> Result<(), OpenFault>
    ensures fault { IfErr result (λ why. (why ≡ JournalDevice) ⊎ (why ≡ OutOfMemory)) }
{
    let temporary = Path::new(folder).join(alloc, TEMPORARY)?;
    let own = Path::new(folder).join(alloc, name)?;
    let written = write_copy(rt, alloc, disk, temporary.as_str());
    if written.is_err() {
        let _ = fs::remove_file(rt, temporary.as_str());
        return written;
    }
    name_copy(rt, folder, temporary.as_str(), own.as_str()).map_err(|error| fault_of(&error))
}

/// Keeps a slot of this name if the opening would drop a part of it, and says so on standard error, as far as that can be written.
fn keep_slot<R: Files<File = File> + Eprint, D: Disk>(
    rt: &R,
    alloc: Global,
    folder: &str,
    slot: &str,
    disk: &mut D,
    loss: Option<Loss>,
) -> Result<(), OpenFault>
    ensures fault { IfErr result (λ why. (why ≡ JournalDevice) ⊎ (why ≡ OutOfMemory)) }
{
    let Some(
        Loss {
            from,
            bytes,
            records,
        },
    ) = loss
    else {
        return Ok(());
    };
    let kept = free_name(rt, alloc, folder)?;
    let line = format!(in alloc;
        "filehost: {}: the opening drops {} bytes from {} on, {} whole records among them, which a stop may have left: {} has all of the file\n",
        slot,
        bytes,
        from,
        records,
        kept.as_str()
    )?;
    keep_as(rt, alloc, folder, disk, kept.as_str())?;
    let _ = rt.eprint(line.as_str());
    Ok(())
}

/// Passes over a fault that the opening tells itself, before it drops anything.
fn told_by_opening(fault: JournalFault) -> Result<(), OpenFault>
    ensures fault { IfErr result (λ why. (why ≡ JournalDevice) ⊎ (why ≡ OutOfMemory)) }
{
    match fault {
        JournalFault::BadHeader | JournalFault::BadRecord(_) => Ok(()),
        JournalFault::Device => Err(OpenFault::JournalDevice),
        JournalFault::OutOfMemory => Err(OpenFault::OutOfMemory),
    }
}

/// Keeps the files of two slots of which the opening would drop more than one unfinished record may have left. Where a copy can't be made, nothing
/// may be dropped, so the opening has failed.
pub(crate) fn keep_files<'a, R: Files<File = File> + Eprint>(
    rt: &'a R,
    alloc: Global,
    folder: &str,
    first: FileDisk<'a, R>,
    second: FileDisk<'a, R>,
) -> Result<(FileDisk<'a, R>, FileDisk<'a, R>), OpenFault>
    ensures fault { IfErr result (λ why. (why ≡ JournalDevice) ⊎ (why ≡ OutOfMemory)) }
{
    let Looked {
        mut first,
        mut second,
        outcome,
    } = look(alloc, first, second);
    match outcome {
        Ok(losses) => {
            keep_slot(rt, alloc, folder, FIRST, &mut first, losses.first)?;
            keep_slot(rt, alloc, folder, SECOND, &mut second, losses.second)?;
        }
        Err(fault) => told_by_opening(fault)?,
    }
    Ok((first, second))
}
