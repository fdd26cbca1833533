//! A shelf that threads share.
ghost use Rattle.std.specs.Prelude.{◌≡◌, []};
ghost use Rattle.blob_store.specs.Folders.{calls_of};

use crate::call_logs::{CallLog, logged_get, logged_put};
use crate::receipts::{AbsenceReceipt, Found, PutReceipt};
use crate::shelf_access::ShelfAccess;
use crate::shelf_files::Files;
use crate::shelves::{Shelf, ShelfFault, ShelfName};
use std::marker::PhantomData;
use std::sync::{Mutex, Wait};

/// The shelf of files that threads share. Each call reaches them by a `ShelfAccess`, and calls of other threads come in between. So nothing is
/// known of the shelf: contracts see the calls that were made by this value, of a put or of a missing name also its receipt, and of a failure what the
/// `ShelfAccess` says of it. The lack of a descriptor is a failure of its device.
#[derive(Drop)]
pub struct SharedShelf<'a, R, S, A, U, N> {
    rt: &'a R,
    files: &'a Mutex<Files<S>>,
    access: &'a A,
    log: CallLog,
    put: PhantomData<U>,
    absence: PhantomData<N>,
}

impl<'a, R, S, A, U, N> SharedShelf<'a, R, S, A, U, N> {
    /// The shelf of these files, for a thread that reaches it this way and waits for locks by this handle.
    pub fn new(
        rt: &'a R,
        files: &'a Mutex<Files<S>>,
        access: &'a A,
    ) -> SharedShelf<'a, R, S, A, U, N>
        ensures { calls_of result.log ≡ [] }
    {
        SharedShelf {
            rt,
            files,
            access,
            log: CallLog::Empty,
            put: PhantomData,
            absence: PhantomData,
        }
    }
}

impl<R: Wait, S, A: ShelfAccess<S, U, N>, U: PutReceipt + Drop, N: AbsenceReceipt + Drop> Shelf
    for SharedShelf<'_, R, S, A, U, N> {
    ghost use Rattle.std.specs.Prelude.{◌≡◌, ◌∷◌};
    ghost use Rattle.blob_store.specs.Folders.{calls_of, failures_in};
    ghost use Rattle.blob_store.specs.Receipts.{IsFor, IsShown};

    ghost failures = { λ shelf. failures_in (calls_of shelf.log) };

    ghost did = { λ old call new. (calls_of new.log ≡ call ∷ calls_of old.log)
        × IsShown (IsFor U.put_name U.put_bytes) (λ receipt name. N.absent_name receipt ≡ name) A.failed call };

    fn put(&mut self, name: ShelfName, bytes: &[u8]) -> Result<(), ShelfFault> {
        match self.access.put(self.rt, self.files, name, bytes) {
            Ok(_receipt) => logged_put(&mut self.log, name, bytes, Ok(())),
            Err(fault) => logged_put(&mut self.log, name, bytes, Err(fault.on_shelf())),
        }
    }

    fn get(&mut self, name: ShelfName) -> Result<Option<Vec<u8>>, ShelfFault> {
        match self.access.get(self.rt, self.files, name) {
            Ok(Found::Nothing(_receipt)) => logged_get(&mut self.log, name, Ok(None)),
            Ok(Found::Bytes(bytes)) => logged_get(&mut self.log, name, Ok(Some(bytes))),
            Err(fault) => logged_get(&mut self.log, name, Err(fault.on_shelf())),
        }
    }
}
