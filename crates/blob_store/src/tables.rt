//! Tables: what is kept of a file next to its pieces.
ghost use Rattle.std.specs.Prelude.{◌≡◌, ◌≢◌, ◌↔◌, ◌*◌, ◌%◌, ◌<◌, All, IfErr, IfOk, IfSome, IsOk, IsSome, length, map, take};
ghost use Rattle.std.specs.Int.{to_be_bytes, w64};
ghost use Rattle.std.specs.List.{concat};
ghost use Rattle.blob_store.specs.declared.tables.TableFault.TheVariants.{OutOfMemory};
ghost use Rattle.blob_store.specs.Tables.{IsTable, Spells, size_of, text_of};

use byte_view::{MAX_SIZE, PIECE_SIZE};
use host_names::Digest;
use std::alloc::{AllocError, Global};
use thiserror::Error;

/// The size of a file and the names of its pieces.
#[derive(Debug, Drop)]
pub(crate) struct Table {
    pub size: usize,
    pub names: Vec<Digest>,
}

/// Why a table can't be read.
#[derive(Clone, Copy, Debug, PartialEq, Eq, Error)]
pub(crate) enum TableFault {
    /// No file has a table with these bytes.
    #[error("no file has this table")]
    Damaged,
    #[error("out of memory")]
    OutOfMemory,
}

/// The text of a file's table: its size in 8 bytes, most significant first, and the 20 bytes of each name.
pub(crate) fn table_text(
    alloc: Global,
    size: usize,
    names: &[Digest],
) -> Result<Vec<u8>, AllocError>
    ensures { IfOk result (λ text. text.items ≡ text_of size names.now) }
{
    let mut text = Vec::from_slice(alloc, &(size as u64).to_be_bytes())?;
    for name in names {
        text.extend_from_slice(&name.0)?;
    }
    Ok(text)
}

/// The size that a text tells, if a table has this text.
#[tactic(auto, using(std::proofs::lemmas::Nat::be_bytes_8))]
fn size_in(text: &[u8]) -> Option<usize>
    ensures table { IsSome result ↔ IsTable text.now }
    ensures size { IfSome result (λ size. size ≡ size_of text.now) }
    ensures spelled { IfSome result (λ size. to_be_bytes w64 size ≡ take 8 text.now) }
{
    let (size, names) = text.split_first_chunk::<8>()?;
    let size = u64::from_be_bytes(*size);
    if size > MAX_SIZE as u64 {
        return None;
    }
    let size = size as usize;
    if names.len() != size.div_ceil(PIECE_SIZE) * 20 {
        return None;
    }
    Some(size)
}

/// The names that follow one another in some bytes.
fn names_in(alloc: Global, bytes: &[u8]) -> Result<Vec<Digest>, AllocError>
    requires { length bytes.now % 20 ≡ 0 }
    ensures names { IfOk result (λ names. concat (map (λ name. name.0) names.items) ≡ bytes.now) }
    ensures count { IfOk result (λ names. length names.items * 20 ≡ length bytes.now) }
    ensures sized { IfOk result (λ names. All (λ name. length name.0 ≡ 20) names.items) }
    ensures empty { length bytes.now ≡ 0 → IsOk result }
{
    let (arrays, _) = bytes.as_chunks::<20>();
    let mut names = Vec::with_capacity(alloc, arrays.len())?;
    for array in arrays {
        names.push(Digest(*array))?;
    }
    Ok(names)
}

impl Table {
    /// The table with this text. Only the names take memory, and only for a file of at most `MAX_SIZE` bytes that isn't empty.
    pub(crate) fn read(alloc: Global, text: &[u8]) -> Result<Table, TableFault>
        ensures read { IfOk result (λ table. Spells text.now table.size table.names.items) }
        ensures judged { IfErr result (λ fault. (fault ≡ OutOfMemory) ↔ IsTable text.now) }
        ensures memory { IfErr result (λ fault. fault ≡ OutOfMemory
            → (size : _) × (names : _) × Spells text.now size names × (size ≢ 0)) }
    {
        let size = size_in(text).ok_or(TableFault::Damaged)?;
        let names = names_in(alloc, &text[8..]).map_err(|_| TableFault::OutOfMemory)?;
        Ok(Table { size, names })
    }
}
