//! A shelf in a folder.
ghost use Rattle.std.specs.Prelude.{◌≡◌, [], IfOk};
ghost use Rattle.blob_store.specs.Folders.{calls_of};

use crate::call_logs::{CallLog, logged_get, logged_put};
use crate::receipts::{Found, get_in, put_in};
use crate::shelves::{Shelf, ShelfFault, ShelfName};
use std::alloc::{AllocError, Global};
use std::path::PathBuf;
use std::rt::Files;

/// The name under which each file is written at first.
const TEMPORARY: &str = "blob.tmp";

/// A folder with a file for each piece and each table. It keeps what is put there as long as each of its answers is what was put last under
/// the name, or was there at first (`folders_keep`). That its answers are so is a premise, which tests support.
#[derive(Drop)]
pub struct DirShelf<'a, R> {
    rt: &'a R,
    alloc: Global,
    folder: PathBuf,
    temporary: PathBuf,
    log: CallLog,
}

impl<'a, R: Files> DirShelf<'a, R> {
    /// The shelf of a folder. It asks the system for nothing yet. While it is used, nobody else may write in the folder.
    pub fn new(rt: &'a R, alloc: Global, folder: &str) -> Result<DirShelf<'a, R>, AllocError>
        ensures { IfOk result (λ shelf. calls_of shelf.log ≡ []) }
    {
        let folder = PathBuf::from_str(alloc, folder)?;
        let temporary = folder.join(alloc, TEMPORARY)?;
        Ok(DirShelf {
            rt,
            alloc,
            folder,
            temporary,
            log: CallLog::Empty,
        })
    }
}

impl<R: Files> Shelf for DirShelf<'_, R> {
    ghost use Rattle.std.specs.Prelude.{◌≡◌, ◌∷◌, ⊤};
    ghost use Rattle.std.specs.Path.{path_buf_bytes};
    ghost use Rattle.blob_store.specs.Folders.{calls_of, failures_in};
    ghost use Rattle.blob_store.specs.Receipts.{IsShown};
    ghost use Rattle.blob_store.specs.declared.receipts.Written.{Written};
    ghost use Rattle.blob_store.specs.declared.receipts.Absent.{Absent};

    ghost failures = { λ shelf. failures_in (calls_of shelf.log) };

    ghost did = { λ old call new. (calls_of new.log ≡ call ∷ calls_of old.log)
        × IsShown (λ (written : Written) name bytes. (written.folder.numbers ≡ path_buf_bytes old.folder) × (written.name.value ≡ name) × (written.bytes.numbers ≡ bytes))
        (λ (absent : Absent) name. (absent.folder.numbers ≡ path_buf_bytes old.folder) × (absent.name.value ≡ name)) (λ failing. ⊤) call };

    fn put(&mut self, name: ShelfName, bytes: &[u8]) -> Result<(), ShelfFault> {
        let (folder, temporary) = (self.folder.as_str(), self.temporary.as_str());
        match put_in(self.rt, self.alloc, folder, temporary, name, bytes) {
            Ok(_receipt) => logged_put(&mut self.log, name, bytes, Ok(())),
            Err(fault) => logged_put(&mut self.log, name, bytes, Err(fault.told().on_shelf())),
        }
    }

    fn get(&mut self, name: ShelfName) -> Result<Option<Vec<u8>>, ShelfFault> {
        match get_in(self.rt, self.alloc, self.folder.as_str(), name) {
            Ok(Found::Nothing(_receipt)) => logged_get(&mut self.log, name, Ok(None)),
            Ok(Found::Bytes(bytes)) => logged_get(&mut self.log, name, Ok(Some(bytes))),
            Err(fault) => logged_get(&mut self.log, name, Err(fault.told().on_shelf())),
        }
    }
}
