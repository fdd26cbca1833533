//! What is read from a shelf.
ghost use Rattle.std.specs.Prelude.{◌≡◌, ◌<◌, ◌≤◌, IfErr, IfOk, Some};
ghost use Rattle.host_names.specs.Digests.{digest_of};
ghost use Rattle.blob_store.specs.declared.shelves.ShelfFault.TheVariants as shelf_fault;
ghost use Rattle.blob_store.specs.declared.shelves.ShelfName.TheVariants.{Part};
ghost use Rattle.chunk_reads.specs.declared.faults.ReadFault.TheVariants as read_fault;
ghost use Rattle.blob_store.specs.Calls.{Got};
ghost use Rattle.blob_store.specs.Faults.{IsChunkFault};

use crate::shelves::{Shelf, ShelfFault, ShelfName};
use byte_view::Chunk;
use chunk_reads::ReadFault;
use host_names::Digest;

/// The fault of a read whose shelf failed this way.
pub(crate) fn of_shelf(fault: ShelfFault) -> ReadFault
    ensures device { fault ≡ shelf_fault.Device → result ≡ read_fault.Device }
    ensures memory { fault ≡ shelf_fault.OutOfMemory → result ≡ read_fault.OutOfMemory }
{
    match fault {
        ShelfFault::Device => ReadFault::Device,
        ShelfFault::OutOfMemory => ReadFault::OutOfMemory,
    }
}

/// The chunk with this name, as a shelf gives it now. It is checked after the shelf's call: it has that name.
pub fn read_chunk<S: Shelf>(shelf: &mut S, name: Digest) -> Result<Chunk, ReadFault>
    ensures given { IfOk result (λ chunk. S.did shelf.old (Got (Part name) (Some chunk)) shelf.new) }
    ensures named { IfOk result (λ chunk. digest_of chunk ≡ name) }
    ensures fault { IfErr result (λ fault. IsChunkFault S.did shelf.old name fault shelf.new) }
    ensures device { IfErr result (λ fault. fault ≡ read_fault.Device → S.failures shelf.old < S.failures shelf.new) }
    ensures count { S.failures shelf.old ≤ S.failures shelf.new }
{
    match shelf.get(ShelfName::Part(name)) {
        Err(fault) => Err(of_shelf(fault)),
        Ok(None) => Err(ReadFault::Missing),
        Ok(Some(bytes)) => Chunk::check(name, bytes).map_err(|_| ReadFault::Damaged),
    }
}
