//! Files on their way to a shelf.
ghost use Rattle.std.specs.Prelude.{◌≡◌, ◌↔◌, ◌<◌, ◌≤◌, Contains, IfErr, IsTrue, length};
ghost use Rattle.byte_view.specs.Cuts.{names_of};
ghost use Rattle.blob_store.specs.declared.shelves.ShelfName.TheVariants.{Part};
ghost use Rattle.blob_store.specs.declared.shelves.ShelfFault.TheVariants as shelf_fault;
ghost use Rattle.blob_store.specs.Calls.{HoldsOfFault, PutsNew, PutsOthers};
ghost use Rattle.blob_store.specs.Tables.{text_of};

use crate::shelves::{Shelf, ShelfFault, ShelfName};
use crate::stored_pieces::StoredPieces;
use byte_view::{BlobInfo, PIECE_SIZE};
use host_names::Digest;

/// Whether a name is among these.
fn is_among(name: &Digest, names: &[Digest]) -> bool
    ensures { IsTrue result ↔ Contains names.now name.now }
{
    names.contains(name)
}

/// Puts a piece on a shelf, unless its name is stored or is among those before it.
fn put_new<S: Shelf>(
    shelf: &mut S,
    stored: &StoredPieces,
    before: &[Digest],
    name: &Digest,
    piece: &[u8],
) -> Result<(), ShelfFault>
    ensures put { HoldsOfFault result (λ fault.
        PutsNew S.did shelf.old stored.now.names.keys before.now (Part name.now, piece.now) name.now fault shelf.new) }
    ensures device { IfErr result (λ fault. fault ≡ shelf_fault.Device → S.failures shelf.old < S.failures shelf.new) }
    ensures count { S.failures shelf.old ≤ S.failures shelf.new }
{
    if stored.has(name) || is_among(name, before) {
        return Ok(());
    }
    shelf.put(ShelfName::Part(*name), piece)
}

/// Puts a file on a shelf: its pieces, of each name that isn't stored the first one, and then its table.
pub(crate) fn put_file<S: Shelf>(
    shelf: &mut S,
    stored: &StoredPieces,
    info: &BlobInfo,
    bytes: &[u8],
    table: &[u8],
) -> Result<(), ShelfFault>
    requires info { info.now ≡ bytes.now }
    requires table { table.now ≡ text_of (length bytes.now) (names_of bytes.now) }
    ensures put { HoldsOfFault result (λ fault.
        PutsOthers S.did stored.now.names.keys shelf.old bytes.now fault shelf.new) }
    ensures device { IfErr result (λ fault. fault ≡ shelf_fault.Device → S.failures shelf.old < S.failures shelf.new) }
    ensures count { S.failures shelf.old ≤ S.failures shelf.new }
{
    let names = info.names();
    let mut rest = bytes;
    for (index, name) in names.iter().enumerate() {
        let (piece, after) = rest.split_at(rest.len().min(PIECE_SIZE));
        put_new(shelf, stored, &names[..index], name, piece)?;
        rest = after;
    }
    shelf.put(ShelfName::Table(info.digest()), table)
}
