//! Why a host can't be opened.
ghost use Rattle.std.specs.Prelude.{◌≡◌};
ghost use Rattle.found_host.specs.Openings as spec;
ghost use Rattle.found_host.specs.declared.faults.OpenFault.TheVariants.{OutOfMemory};

use host_names::Digest;
use host_opening::ReplayFault;
use std::alloc::AllocError;

/// Why a host can't be opened.
#[derive(Clone, Copy, Debug, PartialEq, Eq)]
pub enum OpenFault {
    /// A slot in use has no header of a journal, or both have one generation.
    BadHeader,
    /// The record of this number in the journal is none.
    BadRecord(u64),
    /// The entry of this number isn't accepted after those before it.
    NotLegal(u64),
    /// The device of the journal failed.
    JournalDevice,
    /// The shelf has no table of a file that a published deploy lists.
    MissingBlob(Digest),
    /// The shelf has a table of such a file, and not all of the file.
    DamagedBlob(Digest),
    /// The device of the shelf failed.
    BlobsDevice,
    OutOfMemory,
}

impl From<AllocError> for OpenFault {
    ghost from_gives = { λ _ fault. fault ≡ OutOfMemory };

    fn from(_error: AllocError) -> OpenFault {
        OpenFault::OutOfMemory
    }
}

/// A host that couldn't be opened: why, and the disks of its slots and its shelf as they are then.
#[derive(Drop)]
pub struct NotOpened<S, D> {
    pub fault: OpenFault,
    pub first: D,
    pub second: D,
    pub shelf: S,
}

/// What an opening answers for a fault of the journal.
pub(crate) fn of_journal(fault: record_file::OpenFault) -> OpenFault
    ensures { result ≡ spec.of_journal fault }
{
    match fault {
        record_file::OpenFault::BadHeader => OpenFault::BadHeader,
        record_file::OpenFault::BadRecord(number) => OpenFault::BadRecord(number),
        record_file::OpenFault::Device => OpenFault::JournalDevice,
        record_file::OpenFault::OutOfMemory => OpenFault::OutOfMemory,
    }
}

/// What it answers for a fault of the files.
pub(crate) fn of_blobs(fault: blob_store::OpenFault) -> OpenFault
    ensures { result ≡ spec.of_blobs fault }
{
    match fault {
        blob_store::OpenFault::MissingBlob(digest) => OpenFault::MissingBlob(digest),
        blob_store::OpenFault::DamagedBlob(digest) => OpenFault::DamagedBlob(digest),
        blob_store::OpenFault::Device => OpenFault::BlobsDevice,
        blob_store::OpenFault::OutOfMemory => OpenFault::OutOfMemory,
    }
}

/// What it answers where the entries aren't accepted in turn.
pub(crate) fn of_replay(fault: ReplayFault) -> OpenFault
    ensures { result ≡ spec.of_replay fault }
{
    match fault {
        ReplayFault::NotLegal(number) => OpenFault::NotLegal(number),
        ReplayFault::OutOfMemory => OpenFault::OutOfMemory,
    }
}
