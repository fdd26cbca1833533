//! How threads reach the files of a shelf that they share.
ghost use Rattle.std.specs.Prelude.{◌≡◌, IfErr, IfOk, ⊤};
ghost use Rattle.blob_store.specs.Calls.{Call, GetFails, PutFails};
ghost use Rattle.blob_store.specs.Receipts.{IsAbsent, told_fault};
ghost use Rattle.blob_store.specs.TemporaryNames.{temporary_path};

use crate::access_faults::AccessFault;
use crate::folder_files::FileFault;
use crate::receipts::{
    AbsenceReceipt, Absent, Found, PutReceipt, ShelfLacks, ShelfPut, Written, get_in, get_of,
    put_in, put_on,
};
use crate::shelf_files::Files;
use crate::shelves::{Shelf, ShelfName};
use crate::temporary_names::{TemporaryNames, temporary_in};
use operator_notices::{Kind, Notices, reason_of};
use std::alloc::Global;
use std::sync::{Mutex, Wait};

/// Why a file can't be opened if no descriptor is left.
const NO_DESCRIPTOR: &str = "no descriptor is left";

/// Makes calls of a shelf that threads share. Who puts bytes, or finds nothing, hands over a receipt for that: `U` shows that bytes were
/// put, and `N` that nothing was found. They are parameters, and no associated types, since bounds of those can't go to threads.
pub trait ShelfAccess<S, U: PutReceipt + Drop, N: AbsenceReceipt + Drop> {
    /// What a call that failed shows. Each way to a shelf chooses it. Whoever reaches a shelf by any way can show a failure only by making the
    /// call.
    ghost failed: { Call → Type 0 };

    /// Puts bytes under a name.
    fn put<W: Wait>(
        &self,
        rt: &W,
        files: &Mutex<Files<S>>,
        name: ShelfName,
        bytes: &[u8],
    ) -> Result<U, AccessFault>
        ensures put { IfOk result (λ receipt. (U.put_name receipt ≡ name) × (U.put_bytes receipt ≡ bytes.now)) }
        ensures failed { IfErr result (λ why. failed (PutFails name bytes.now (told_fault why))) };

    /// What the shelf has under a name.
    fn get<W: Wait>(
        &self,
        rt: &W,
        files: &Mutex<Files<S>>,
        name: ShelfName,
    ) -> Result<Found<N>, AccessFault>
        ensures absent { IfOk result (λ found. IsAbsent N.absent_name name found) }
        ensures failed { IfErr result (λ why. failed (GetFails name (told_fault why))) };
}

/// Locks the shelf for each call: so one call is made at a time.
#[derive(Drop)]
pub struct LockedAccess;

impl<S: Shelf> ShelfAccess<S, ShelfPut<S>, ShelfLacks<S>> for LockedAccess {
    // A shelf made the call.
    ghost failed = { λ call. (old : S) × (new : S) × S.did old call new };

    fn put<W: Wait>(
        &self,
        rt: &W,
        files: &Mutex<Files<S>>,
        name: ShelfName,
        bytes: &[u8],
    ) -> Result<ShelfPut<S>, AccessFault> {
        let mut files = files.lock(rt);
        put_on(files.shelf_mut(), name, bytes).map_err(AccessFault::of_shelf)
    }

    fn get<W: Wait>(
        &self,
        rt: &W,
        files: &Mutex<Files<S>>,
        name: ShelfName,
    ) -> Result<Found<ShelfLacks<S>>, AccessFault> {
        let mut files = files.lock(rt);
        get_of(files.shelf_mut(), name).map_err(AccessFault::of_shelf)
    }
}

/// Reads and writes in the folder of a shelf. No lock is held during a read, a write or a sync: so no call waits for those of another one. A file
/// comes into the folder whole, by its name: so a read gives all of it, or nothing if it isn't there yet. Each put has a temporary name of its
/// own, which it takes and gives back under a lock. The operator is told of a file that can't be read or written, and why.
#[derive(Drop)]
pub struct FolderAccess<'a, R> {
    rt: &'a R,
    alloc: Global,
    folder: &'a str,
    notices: &'a Notices,
    temporaries: Mutex<TemporaryNames>,
}

impl<'a, R> FolderAccess<'a, R> {
    /// Reads and writes in this folder. It has to be that of the shelf, in which nobody else may write then. Its failures are noted among these
    /// notices.
    pub fn new(
        rt: &'a R,
        alloc: Global,
        folder: &'a str,
        notices: &'a Notices,
    ) -> FolderAccess<'a, R> {
        FolderAccess {
            rt,
            alloc,
            folder,
            notices,
            temporaries: Mutex::new(TemporaryNames::new(alloc)),
        }
    }

    /// Tells the operator which file failed and why, and answers the fault.
    fn tell(&self, fault: FileFault) -> AccessFault {
        let told = fault.told();
        if let FileFault::Failed(path, error) = &fault {
            let (kind, why) = match told {
                AccessFault::NoDescriptor => (Kind::Descriptors, NO_DESCRIPTOR),
                _ => (Kind::Device, reason_of(error)),
            };
            self.notices.tell(kind, path.as_str(), why);
        }
        told
    }
}

impl<R: std::rt::Files> FolderAccess<'_, R> {
    /// Puts bytes under a name, first under the temporary name of a number.
    fn put_as(&self, number: usize, name: ShelfName, bytes: &[u8]) -> Result<Written, FileFault>
        ensures place { IfOk result (λ written. (written.folder.numbers ≡ self.now.folder.now) × (written.temporary.numbers ≡ temporary_path self.now.folder.now number)) }
        ensures put { IfOk result (λ written. (written.name.value ≡ name) × (written.bytes.numbers ≡ bytes.now)) }
    {
        let temporary = temporary_in(self.alloc, self.folder, number)?;
        put_in(
            self.rt,
            self.alloc,
            self.folder,
            temporary.as_str(),
            name,
            bytes,
        )
    }
}

impl<S, R: std::rt::Files> ShelfAccess<S, Written, Absent> for FolderAccess<'_, R> {
    // Nothing is said of a failure of a folder.
    ghost failed = { λ call. ⊤ };

    fn put<W: Wait>(
        &self,
        rt: &W,
        _: &Mutex<Files<S>>,
        name: ShelfName,
        bytes: &[u8],
    ) -> Result<Written, AccessFault> {
        let taken = self.temporaries.lock(rt).take();
        let number = taken.map_err(|_| AccessFault::OutOfMemory)?;
        let outcome = self.put_as(number, name, bytes);
        self.temporaries.lock(rt).give_back(number);
        outcome.map_err(|fault| self.tell(fault))
    }

    fn get<W: Wait>(
        &self,
        _: &W,
        _: &Mutex<Files<S>>,
        name: ShelfName,
    ) -> Result<Found<Absent>, AccessFault> {
        get_in(self.rt, self.alloc, self.folder, name).map_err(|fault| self.tell(fault))
    }
}
