//! Files that are read from a shelf whole.
ghost use Rattle.std.specs.Prelude.{◌≡◌, ◌<◌, ◌≤◌, IfErr, IfOk, Some};
ghost use Rattle.byte_view.specs.Cuts.{names_of};
ghost use Rattle.chunk_reads.specs.declared.faults.ReadFault.TheVariants as read_fault;
ghost use Rattle.blob_store.specs.declared.shelves.ShelfName.TheVariants as shelf_name;
ghost use Rattle.blob_store.specs.Calls.{Got};
ghost use Rattle.blob_store.specs.Reads.{ArePiecesFault, GivesInTurn, IsFileFault, IsFileRead, IsNextFault, IsNextRead, IsTableFault, pieces_given};
ghost use Rattle.blob_store.specs.Tables.{Spells};

use crate::reading::{of_shelf, read_chunk};
use crate::shelves::{Shelf, ShelfName};
use crate::tables::{Table, TableFault};
use byte_view::{BlobBuilder, BlobInfo, JoinFault};
use chunk_reads::ReadFault;
use host_names::Digest;
use std::alloc::Global;

/// The table of the file of a digest.
fn read_table<S: Shelf>(alloc: Global, shelf: &mut S, digest: Digest) -> Result<Table, ReadFault>
    ensures read { IfOk result (λ table. (text : _) × Spells text table.size table.names.items × S.did shelf.old (Got (shelf_name.Table digest) (Some text)) shelf.new) }
    ensures fault { IfErr result (λ fault. IsTableFault S.did shelf.old digest fault shelf.new) }
    ensures device { IfErr result (λ fault. fault ≡ read_fault.Device → S.failures shelf.old < S.failures shelf.new) }
    ensures count { S.failures shelf.old ≤ S.failures shelf.new }
{
    match shelf.get(ShelfName::Table(digest)) {
        Err(fault) => Err(of_shelf(fault)),
        Ok(None) => Err(ReadFault::Missing),
        Ok(Some(text)) => match Table::read(alloc, text.as_slice()) {
            Ok(table) => Ok(table),
            Err(TableFault::Damaged) => Err(ReadFault::Damaged),
            Err(TableFault::OutOfMemory) => Err(ReadFault::OutOfMemory),
        },
    }
}

/// Reads the piece of a name, and appends it to those before it.
fn read_next<S: Shelf>(
    shelf: &mut S,
    name: Digest,
    joined: &mut BlobBuilder,
) -> Result<(), ReadFault>
    ensures read { IfOk result (λ _. IsNextRead S.did shelf.old name joined.old joined.new shelf.new) }
    ensures fault { IfErr result (λ fault. IsNextFault S.did shelf.old name joined.old fault shelf.new) }
    ensures device { IfErr result (λ fault. fault ≡ read_fault.Device → S.failures shelf.old < S.failures shelf.new) }
    ensures count { S.failures shelf.old ≤ S.failures shelf.new }
{
    let chunk = match read_chunk(shelf, name) {
        Err(ReadFault::Missing) => return Err(ReadFault::Damaged),
        read => read?,
    };
    match joined.add(&chunk) {
        Ok(()) => Ok(()),
        Err(JoinFault::Misfit) => Err(ReadFault::Damaged),
        Err(JoinFault::OutOfMemory) => Err(ReadFault::OutOfMemory),
    }
}

/// The file whose pieces have these names.
fn read_pieces<S: Shelf>(
    alloc: Global,
    shelf: &mut S,
    names: &[Digest],
) -> Result<BlobBuilder, ReadFault>
    ensures read { IfOk result (λ file. (names_of file ≡ names.now) × GivesInTurn S.did shelf.old (pieces_given file) shelf.new) }
    ensures fault { IfErr result (λ fault. ArePiecesFault S.did shelf.old names.now fault shelf.new) }
    ensures device { IfErr result (λ fault. fault ≡ read_fault.Device → S.failures shelf.old < S.failures shelf.new) }
    ensures count { S.failures shelf.old ≤ S.failures shelf.new }
{
    let mut joined = BlobBuilder::new(alloc);
    for name in names {
        read_next(shelf, *name, &mut joined)?;
    }
    Ok(joined)
}

/// Reads the file of a digest whole: its table, and each of its pieces. The answer is what is known of a file, without bytes. A file for
/// which the shelf has no table is missing; if anything else is wrong with it, it is damaged.
pub(crate) fn read_file<S: Shelf>(
    alloc: Global,
    shelf: &mut S,
    digest: &Digest,
) -> Result<BlobInfo, ReadFault>
    ensures read { IfOk result (λ file. IsFileRead S.did shelf.old digest.now file shelf.new) }
    ensures fault { IfErr result (λ fault. IsFileFault S.did shelf.old digest.now fault shelf.new) }
    ensures device { IfErr result (λ fault. fault ≡ read_fault.Device → S.failures shelf.old < S.failures shelf.new) }
    ensures count { S.failures shelf.old ≤ S.failures shelf.new }
{
    let table = read_table(alloc, shelf, *digest)?;
    let info = read_pieces(alloc, shelf, table.names.as_slice())?.finish();
    if info.len() != table.size || info.digest() != *digest {
        return Err(ReadFault::Damaged);
    }
    Ok(info)
}
