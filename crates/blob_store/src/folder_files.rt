//! The files of a shelf in a folder.
ghost use Rattle.std.specs.Prelude.{◌≡◌, ◌↔◌, ◌∷◌, [], IfErr, IfOk, IsTrue, OnErr, OnOk};
ghost use Rattle.std.specs.Path.{path_buf_bytes};
ghost use Rattle.blob_store.specs.FileCalls.{IsGiven, IsNotGiven, IsNotPut, IsPut, Made, Makes, Stops, moves, path_of, puts};
ghost use Rattle.blob_store.specs.FileFaults.{HasNoDescriptor, LacksDescriptor};
ghost use Rattle.blob_store.specs.declared.access_faults.AccessFault.TheVariants as access_fault;
ghost use Rattle.blob_store.specs.declared.folder_files.FileFault.TheVariants as file_fault;

use crate::access_faults::AccessFault;
use crate::file_calls::{FileCalls, Looked};
use crate::shelves::ShelfName;
use byte_view::PIECE_SIZE;
use std::alloc::{AllocError, Global};
use std::io;
use std::path::{Path, PathBuf};

/// The bytes of the longest table: that of a file of 256 pieces.
const MAX_TABLE: usize = 8 + 256 * 20;

/// The numbers of the system's errors if no descriptor is left: in the whole system (ENFILE), and for this process (EMFILE).
const ENFILE: i32 = 23;

const EMFILE: i32 = 24;

/// Why a file of a shelf can't be read or written.
#[derive(Drop)]
pub(crate) enum FileFault {
    /// A call of the system failed, of a read or a put of the file at this path.
    Failed(PathBuf, io::Error),
    OutOfMemory,
}

impl From<AllocError> for FileFault {
    ghost use Rattle.std.specs.Prelude.{◌≡◌};
    ghost use Rattle.blob_store.specs.declared.folder_files.FileFault.TheVariants.{OutOfMemory};

    ghost from_gives = { λ _ why. why ≡ OutOfMemory };

    fn from(_: AllocError) -> FileFault {
        FileFault::OutOfMemory
    }
}

impl FileFault {
    /// What those who call the shelf are told. Each error of the system but the lack of a descriptor is a failure of the device.
    pub(crate) fn told(&self) -> AccessFault
        ensures memory { (result ≡ access_fault.OutOfMemory) ↔ (self.now ≡ file_fault.OutOfMemory) }
        ensures descriptor { (result ≡ access_fault.NoDescriptor) ↔ LacksDescriptor self.now }
    {
        match self {
            FileFault::Failed(_, error) if lacks_descriptor(error) => AccessFault::NoDescriptor,
            FileFault::Failed(..) => AccessFault::Device,
            FileFault::OutOfMemory => AccessFault::OutOfMemory,
        }
    }
}

/// Whether a call failed since no descriptor is left.
fn lacks_descriptor(error: &io::Error) -> bool
    ensures { IsTrue result ↔ HasNoDescriptor error.now }
{
    matches!(error.raw_os_error(), Some(ENFILE | EMFILE))
}

/// The path of the file under a name in a folder: `c-` or `t-`, and the 40 digits of its digest.
fn path_in(alloc: Global, folder: &str, name: ShelfName) -> Result<PathBuf, AllocError>
    ensures { IfOk result (λ path. path_buf_bytes path ≡ path_of folder.now name) }
{
    let text = match name {
        ShelfName::Part(digest) => format!(in alloc; "c-{}", digest.to_hex().as_str())?,
        ShelfName::Table(digest) => format!(in alloc; "t-{}", digest.to_hex().as_str())?,
    };
    Path::new(folder).join(alloc, text.as_str())
}

/// The most bytes that the file under a name has.
fn most_of(name: ShelfName) -> usize {
    match name {
        ShelfName::Part(_) => PIECE_SIZE,
        ShelfName::Table(_) => MAX_TABLE,
    }
}

/// What there is under a name in a folder.
#[derive(Drop)]
pub(crate) enum Given {
    Nothing,
    /// Something that is not read: no file, or a file that is too long.
    Other,
    Bytes(Vec<u8>),
}

/// What there is under a name in a folder. Something that is no file, or is too long, is not read.
pub(crate) fn read_in<C: FileCalls>(
    calls: &mut C,
    alloc: Global,
    folder: &str,
    name: ShelfName,
) -> Result<Given, FileFault>
    ensures given { IfOk result (λ given. IsGiven folder.now name given (C.calls calls.old) (C.calls calls.new)) }
    ensures fault { IfErr result (λ fault. IsNotGiven folder.now name fault (C.calls calls.old) (C.calls calls.new)) }
{
    let path = path_in(alloc, folder, name)?;
    let len = match calls.look(path.as_str(), most_of(name)) {
        Ok(Looked::Nothing) => return Ok(Given::Nothing),
        Ok(Looked::Other) => return Ok(Given::Other),
        Ok(Looked::File(len)) => len,
        Err(error) => return Err(FileFault::Failed(path, error)),
    };
    let mut bytes = vec![in alloc; 0; len]?;
    match calls.read(path.as_str(), bytes.as_mut_slice()) {
        Ok(()) => Ok(Given::Bytes(bytes)),
        Err(error) => Err(FileFault::Failed(path, error)),
    }
}

/// Makes the file of a temporary name anew. Whatever has that name is removed first: a program that was stopped may have left its file there, and
/// a symbolic link must not lead out of the folder.
fn make_anew<C: FileCalls>(calls: &mut C, temporary: &str) -> io::Result<()>
    ensures ok { OnOk result (Makes (Made temporary.now ∷ []) temporary.now (C.calls calls.old) (C.calls calls.new)) }
    ensures failed { OnErr result (Stops (Made temporary.now ∷ []) temporary.now (C.calls calls.old) (C.calls calls.new)) }
{
    let Err(error) = calls.make(temporary) else {
        return Ok(());
    };
    if error.kind() != io::ErrorKind::AlreadyExists {
        return Err(error);
    }
    calls.remove(temporary)?;
    calls.make(temporary)
}

/// Writes bytes under a temporary name, syncs them, and renames the file to its own name, where it replaces what was there.
fn move_in<C: FileCalls>(calls: &mut C, temporary: &str, path: &str, bytes: &[u8]) -> io::Result<()>
    ensures ok { OnOk result (Makes (moves temporary.now path.now bytes.now) temporary.now (C.calls calls.old) (C.calls calls.new)) }
    ensures failed { OnErr result (Stops (moves temporary.now path.now bytes.now) temporary.now (C.calls calls.old) (C.calls calls.new)) }
{
    make_anew(calls, temporary)?;
    calls.write_all(bytes)?;
    calls.sync()?;
    calls.rename(temporary, path)
}

/// Writes the file of a name, which has this path. Once a table is written, its name lasts, and so do those of all files written before.
fn put_at<C: FileCalls>(
    calls: &mut C,
    folder: &str,
    temporary: &str,
    name: ShelfName,
    path: &str,
    bytes: &[u8],
) -> io::Result<()>
    requires { path.now ≡ path_of folder.now name }
    ensures ok { OnOk result (IsPut folder.now temporary.now name bytes.now (C.calls calls.old) (C.calls calls.new)) }
    ensures failed { OnErr result (Stops (puts folder.now temporary.now name bytes.now) temporary.now (C.calls calls.old) (C.calls calls.new)) }
{
    move_in(calls, temporary, path, bytes)?;
    match name {
        ShelfName::Part(_) => Ok(()),
        ShelfName::Table(_) => calls.sync_folder(folder),
    }
}

/// Writes the file of a name in a folder, first under a temporary name, which nobody else may use meanwhile. If a call fails, the temporary file is removed,
/// so that a full disk doesn't keep it; if that fails too, the next put under the temporary name removes it.
pub(crate) fn write_in<C: FileCalls>(
    calls: &mut C,
    alloc: Global,
    folder: &str,
    temporary: &str,
    name: ShelfName,
    bytes: &[u8],
) -> Result<(), FileFault>
    ensures put { OnOk result (IsPut folder.now temporary.now name bytes.now (C.calls calls.old) (C.calls calls.new)) }
    ensures fault { IfErr result (λ fault. IsNotPut folder.now temporary.now name bytes.now fault (C.calls calls.old) (C.calls calls.new)) }
{
    let path = path_in(alloc, folder, name)?;
    match put_at(calls, folder, temporary, name, path.as_str(), bytes) {
        Ok(()) => Ok(()),
        Err(error) => {
            let _ = calls.remove(temporary);
            Err(FileFault::Failed(path, error))
        }
    }
}
