//! The source of nodes that share a shelf.
ghost use Rattle.std.specs.Prelude.{◌≡◌, ⊤};
ghost use Rattle.chunk_group.specs.Faults.{IsBlamedFor};
ghost use Rattle.chunk_group.specs.Stores.{LoadedOfShared};

use crate::sources::Source;
use blob_store::{AbsenceReceipt, Files, PutReceipt, SharedShelf, ShelfAccess, read_chunk};
use byte_view::Chunk;
use chunk_reads::ReadFault;
use host_names::Digest;
use std::alloc::AllocError;
use std::marker::PhantomData;
use std::sync::{Mutex, Wait};

/// Gives the pieces of the files on a shelf that nodes share. Each piece is checked once, after it was read and under no lock, so that no node waits
/// for another one's hash. It may say of any key that the piece is missing or damaged, and blames the device only if that failed at the call.
pub struct SharedSource<'a, R, S, A, U, N> {
    rt: &'a R,
    files: &'a Mutex<Files<S>>,
    access: &'a A,
    put: PhantomData<U>,
    absence: PhantomData<N>,
}

impl<'a, R, S, A, U, N> SharedSource<'a, R, S, A, U, N> {
    /// The source of these files, for threads that reach them this way and wait for locks by this handle.
    pub fn new(
        rt: &'a R,
        files: &'a Mutex<Files<S>>,
        access: &'a A,
    ) -> SharedSource<'a, R, S, A, U, N>
        ensures { result.files.now ≡ files.now }
    {
        SharedSource {
            rt,
            files,
            access,
            put: PhantomData,
            absence: PhantomData,
        }
    }
}

impl<R, S, A, U, N> Copy for SharedSource<'_, R, S, A, U, N> {}

impl<R, S, A, U, N> Clone for SharedSource<'_, R, S, A, U, N> {
    ghost is_clone = { λ source copy. copy ≡ source };

    ghost is_infallible = { λ _. ⊤ };

    fn clone(&self) -> Result<Self, AllocError> {
        Ok(*self)
    }
}

impl<R: Wait, S, A: ShelfAccess<S, U, N>, U: PutReceipt + Drop, N: AbsenceReceipt + Drop> Source
    for SharedSource<'_, R, S, A, U, N> {
    ghost allows = { IsBlamedFor A.failed };

    ghost loaded = { LoadedOfShared };

    fn load(&mut self, key: &Digest) -> Result<Chunk, ReadFault> {
        let mut shelf = SharedShelf::new(self.rt, self.files, self.access);
        read_chunk(&mut shelf, *key)
    }
}
