//! An open file, and the path that names it.
ghost use Rattle.std.specs.Prelude.{◌≡◌, ◌+◌, ◌≤◌, IfOk};

use crate::file_faults::FileFault;
use std::fs::{self, File, Metadata, OpenOptions};
use std::io;
use std::os::unix::fs::{FileExt, MetadataExt, OpenOptionsExt};
use std::path::PathBuf;
use std::rt::Files;

/// The greatest offset of a file. The system takes offsets as signed numbers.
const MAX_OFFSET: usize = (1 << 63) - 1;

/// Who may read and write a file that is made: its owner.
const OWNER_ONLY: u32 = 0o600;

/// A file under a lock. No other program is to write it, or to take its name from it: the next call on the file tells of it, if that shows.
#[derive(Drop)]
pub(crate) struct NamedFile<'a, R> {
    rt: &'a R,
    path: PathBuf,
    file: File,
    device: u64,
    inode: u64,
    /// How many bytes the calls so far left it, unless one of them failed halfway.
    size: Option<usize>,
}

impl<'a, R: Files<File = File>> NamedFile<'a, R> {
    /// Opens the file at a path, and creates it if there is none. Its lock is tried once and never waited for.
    pub(crate) fn open(rt: &'a R, path: PathBuf) -> io::Result<NamedFile<'a, R>> {
        let file = OpenOptions::new()
            .read(true)
            .write(true)
            .create(true)
            .mode(OWNER_ONLY)
            .open(rt, path.as_str())?;
        file.try_lock()?;
        let found = file.metadata()?;
        if !found.is_file() {
            return Err(io::ErrorKind::Unsupported.into());
        }
        Ok(NamedFile {
            rt,
            path,
            file,
            device: found.dev(),
            inode: found.ino(),
            size: Some(size_in(&found)),
        })
    }

    /// The number of its bytes.
    pub(crate) fn len(&self) -> Result<usize, FileFault> {
        let found = self.file.metadata().map_err(FileFault::NotRead)?;
        Ok(size_in(&found))
    }

    /// Reads the bytes from `at` on, which have to be all there.
    pub(crate) fn read(&self, at: usize, bytes: &mut [u8]) -> Result<(), FileFault> {
        end_of(self.len()?, at, bytes.len()).map_err(FileFault::NotRead)?;
        self.file
            .read_exact_at(bytes, at as u64)
            .map_err(FileFault::NotRead)
    }

    /// Writes bytes from `at` on, which may not be past the end.
    pub(crate) fn write(&mut self, at: usize, bytes: &[u8]) -> Result<(), FileFault> {
        let size = self.own_size()?;
        let end = end_of(size, at, bytes.len()).map_err(FileFault::NotWritten)?;
        self.size = None;
        self.file
            .write_all_at(bytes, at as u64)
            .map_err(FileFault::NotWritten)?;
        self.size = Some(size.max(end));
        Ok(())
    }

    /// Cuts it to `size` bytes, if it has more. The system's call would make a shorter one longer.
    pub(crate) fn cut(&mut self, size: usize) -> Result<(), FileFault> {
        if self.own_size()? <= size {
            return Ok(());
        }
        self.size = None;
        self.file
            .set_len(size as u64)
            .map_err(FileFault::NotWritten)?;
        self.size = Some(size);
        Ok(())
    }

    /// Syncs its bytes and its length, by `fdatasync`. Then its path has to name it, so that what was synced is what the next opening finds.
    pub(crate) fn sync(&self) -> Result<(), FileFault> {
        self.file.sync_data().map_err(FileFault::NotSynced)?;
        let named = fs::metadata(self.rt, self.path.as_str()).map_err(FileFault::Removed)?;
        if named.dev() != self.device || named.ino() != self.inode {
            return Err(FileFault::Replaced);
        }
        self.check_size(size_in(&named))
    }

    /// The number of its bytes, which no other program has changed.
    fn own_size(&self) -> Result<usize, FileFault> {
        let size = self.len()?;
        self.check_size(size)?;
        Ok(size)
    }

    /// Refuses a size that its own calls didn't leave.
    fn check_size(&self, size: usize) -> Result<(), FileFault> {
        match self.size {
            Some(own) if own != size => Err(FileFault::Resized),
            _ => Ok(()),
        }
    }
}

/// How many bytes a file has.
fn size_in(found: &Metadata) -> usize {
    found.len() as usize
}

/// Where a stretch ends. One that begins past the end of a file, or would go past the greatest offset, is refused.
fn end_of(size: usize, at: usize, len: usize) -> io::Result<usize>
    ensures end { IfOk result (λ end. end ≡ at + len) }
    ensures within { IfOk result (λ end. at ≤ size) }
{
    if at > size || at > MAX_OFFSET || len > MAX_OFFSET - at {
        return Err(io::ErrorKind::InvalidInput.into());
    }
    Ok(at + len)
}
