//! Which files a store is opened with, and what is read of them.
ghost use Rattle.std.specs.Prelude.{◌≡◌, ◌<◌, ◌≤◌, IfErr, IfOk, List, ℕ, OnOk, Option};
ghost use Rattle.blob_store.specs.declared.openings.OpenFault.TheVariants as open_fault;
ghost use Rattle.blob_store.specs.Openings.{IsOpenFault, IsOpened, IsTaken, IsTakeFault, known_with};

use crate::blob_indexes::BlobIndex;
use crate::files::read_file;
use crate::shelves::Shelf;
use chunk_reads::ReadFault;
use host_names::Digest;
use std::alloc::Global;
use std::sync::Arc;
use thiserror::Error;

/// A file that a store is opened with.
#[derive(Clone, Copy, Debug, PartialEq, Eq)]
pub struct Wanted {
    pub digest: Digest,
    /// Whether the store can't be opened without it.
    pub must: bool,
}

/// Why a store can't be opened.
#[derive(Clone, Copy, Debug, PartialEq, Eq, Error)]
pub enum OpenFault {
    /// The shelf has no table of a file that must be there.
    #[error("a file is missing")]
    MissingBlob(Digest),
    /// The shelf has a table for a file that must be there, but doesn't give that file whole.
    #[error("a file is damaged")]
    DamagedBlob(Digest),
    #[error("the device failed")]
    Device,
    #[error("out of memory")]
    OutOfMemory,
}

/// Reads a file whole, and adds it to those that are known. A file that need not be there may be missing or damaged: it is then unknown,
/// and can be uploaded again.
fn take_file<S: Shelf>(
    alloc: Global,
    shelf: &mut S,
    known: &mut BlobIndex,
    digest: &Digest,
    must: bool,
) -> Result<(), OpenFault>
    ensures taken { OnOk result ((file : Option (List ℕ))
        × IsTaken S.did shelf.old (record { digest = digest.now; must = must }) file shelf.new
        × (known.new ≡ known_with known.old file)) }
    ensures fault { IfErr result (λ fault.
        IsTakeFault S.did shelf.old (record { digest = digest.now; must = must }) fault shelf.new) }
    ensures device { IfErr result (λ fault. fault ≡ open_fault.Device → S.failures shelf.old < S.failures shelf.new) }
    ensures count { S.failures shelf.old ≤ S.failures shelf.new }
{
    match read_file(alloc, shelf, digest) {
        Ok(info) => {
            let info = Arc::new(alloc, info).map_err(|_| OpenFault::OutOfMemory)?;
            known.keep(info).map_err(|_| OpenFault::OutOfMemory)?;
            Ok(())
        }
        Err(ReadFault::Missing) if must => Err(OpenFault::MissingBlob(*digest)),
        Err(ReadFault::Damaged) if must => Err(OpenFault::DamagedBlob(*digest)),
        Err(ReadFault::Missing | ReadFault::Damaged) => Ok(()),
        Err(ReadFault::Device) => Err(OpenFault::Device),
        Err(ReadFault::OutOfMemory) => Err(OpenFault::OutOfMemory),
    }
}

/// Reads each wanted file in turn, up to the first without which the store can't be opened.
pub(crate) fn open_files<S: Shelf>(
    alloc: Global,
    shelf: &mut S,
    wanted: &[Wanted],
) -> Result<BlobIndex, OpenFault>
    ensures opened { IfOk result (λ known. IsOpened S.did shelf.old wanted.now known shelf.new) }
    ensures fault { IfErr result (λ fault. IsOpenFault S.did shelf.old wanted.now fault shelf.new) }
    ensures device { IfErr result (λ fault. fault ≡ open_fault.Device → S.failures shelf.old < S.failures shelf.new) }
    ensures count { S.failures shelf.old ≤ S.failures shelf.new }
{
    let mut known = BlobIndex::new(alloc);
    for one in wanted {
        take_file(alloc, shelf, &mut known, &one.digest, one.must)?;
    }
    Ok(known)
}
