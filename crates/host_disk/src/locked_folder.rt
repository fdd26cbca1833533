//! The folder of a file, under a lock.
use crate::faults::DeviceFault;
use std::fs::{self, File};
use std::io;
use std::rt::Files;

/// A folder that this program has locked, as long as this value is there. Nobody else can lock it meanwhile, whatever becomes of the files in it.
#[derive(Drop)]
pub struct LockedFolder {
    folder: File,
}

impl LockedFolder {
    /// Locks an existing folder. It fails if another program has it locked, and if the path is not a folder's.
    pub fn lock<R: Files<File = File>>(rt: &R, path: &str) -> Result<LockedFolder, DeviceFault> {
        let folder = lock(rt, path).map_err(|_| DeviceFault)?;
        Ok(LockedFolder { folder })
    }

    /// The same folder once more: it is locked until both values are gone.
    pub(crate) fn shared(&self) -> io::Result<LockedFolder> {
        Ok(LockedFolder {
            folder: self.folder.try_clone()?,
        })
    }

    /// Syncs it, so that the names in it last.
    pub(crate) fn sync(&self) -> io::Result<()> {
        self.folder.sync_all()
    }
}

/// Opens a folder under a lock, which is tried once and never waited for. Only a folder is opened: to open a pipe may wait for ever.
fn lock<R: Files<File = File>>(rt: &R, path: &str) -> io::Result<File> {
    if !fs::metadata(rt, path)?.is_dir() {
        return Err(io::ErrorKind::NotADirectory.into());
    }
    let folder = File::open(rt, path)?;
    folder.try_lock()?;
    Ok(folder)
}
