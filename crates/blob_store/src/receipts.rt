//! What shows that a shelf did what it says.
ghost use Rattle.std.specs.Prelude.{◌≡◌, ◌∷◌, [], IfErr, IfOk, None};
ghost use Rattle.blob_store.specs.Calls.{GetFails, Got, Put, PutFails};
ghost use Rattle.blob_store.specs.FileCalls.{IsPut, calls_in, path_of};
ghost use Rattle.blob_store.specs.FileCalls as call;
ghost use Rattle.blob_store.specs.Receipts.{IsAbsent};
ghost use Rattle.blob_store.specs.declared.file_calls.Looked.TheVariants as looked;

use crate::folder_files::{FileFault, Given, read_in, write_in};
use crate::shelves::{Shelf, ShelfFault, ShelfName};
use crate::system_calls::{FileLog, SystemCalls};
use crate::tags::tag_of;
use boxcar::tag::Tag;
use std::alloc::Global;
use std::rt::Files;
use std::snapshot::Snapshot;

/// Shows that bytes were put under a name: who has one got it of the calls that did that.
pub trait PutReceipt {
    ghost use Rattle.std.specs.Prelude.{List, ℕ};
    ghost use Rattle.blob_store.specs.declared.shelves.ShelfName.{ShelfName};

    ghost put_name: { Self → ShelfName };

    ghost put_bytes: { Self → List ℕ };
}

/// Shows that nothing was found under a name.
pub trait AbsenceReceipt {
    ghost use Rattle.blob_store.specs.declared.shelves.ShelfName.{ShelfName};

    ghost absent_name: { Self → ShelfName };
}

/// A put into a folder by these calls: a new file was written, synced and renamed, and after a table the folder was synced. Only the function that makes the
/// calls makes one.
#[derive(Drop)]
pub struct Written {
    log: FileLog,
    folder: Tag,
    temporary: Tag,
    name: Snapshot<ShelfName>,
    bytes: Tag,
    ghost put: { ∥ IsPut folder.numbers temporary.numbers name.value bytes.numbers [] (calls_in log) ∥₁ },
}

impl PutReceipt for Written {
    ghost put_name = { λ written. written.name.value };

    ghost put_bytes = { λ written. written.bytes.numbers };
}

/// A look into a folder by this call, which found no file of the name there. Only the function that makes the call makes one.
#[derive(Drop)]
pub struct Absent {
    log: FileLog,
    folder: Tag,
    name: Snapshot<ShelfName>,
    ghost found: { ∥ calls_in log ≡ call.Found (path_of folder.numbers name.value) looked.Nothing ∷ [] ∥₁ },
}

impl AbsenceReceipt for Absent {
    ghost absent_name = { λ absent. absent.name.value };
}

/// What a shelf has under a name.
#[derive(Drop)]
pub enum Found<A> {
    /// Nothing, as this shows.
    Nothing(A),
    Bytes(Vec<u8>),
}

/// Puts bytes under a name in a folder.
pub(crate) fn put_in<R: Files>(
    rt: &R,
    alloc: Global,
    folder: &str,
    temporary: &str,
    name: ShelfName,
    bytes: &[u8],
) -> Result<Written, FileFault>
    ensures put { IfOk result (λ written. (written.folder.numbers ≡ folder.now) × (written.name.value ≡ name) × (written.bytes.numbers ≡ bytes.now)) }
    ensures temporary { IfOk result (λ written. written.temporary.numbers ≡ temporary.now) }
{
    let mut calls = SystemCalls::new(rt);
    write_in(&mut calls, alloc, folder, temporary, name, bytes)?;
    Ok(Written {
        log: calls.log(),
        folder: tag_of(folder.as_bytes()),
        temporary: tag_of(temporary.as_bytes()),
        name: Snapshot::of(&name),
        bytes: tag_of(bytes),
    })
}

/// What is under a name in a folder. Something that can't be read counts as no bytes, which are neither a piece nor a table.
pub(crate) fn get_in<R: Files>(
    rt: &R,
    alloc: Global,
    folder: &str,
    name: ShelfName,
) -> Result<Found<Absent>, FileFault>
    ensures name { IfOk result (λ found. IsAbsent (λ absent. absent.name.value) name found) }
    ensures folder { IfOk result (λ found. IsAbsent (λ absent. absent.folder.numbers) folder.now found) }
{
    let mut calls = SystemCalls::new(rt);
    match read_in(&mut calls, alloc, folder, name)? {
        Given::Nothing => Ok(Found::Nothing(Absent {
            log: calls.log(),
            folder: tag_of(folder.as_bytes()),
            name: Snapshot::of(&name),
        })),
        Given::Other => Ok(Found::Bytes(Vec::new(alloc))),
        Given::Bytes(bytes) => Ok(Found::Bytes(bytes)),
    }
}

/// A put by a shelf that is in memory, or that somebody locked: its call said so.
#[derive(Drop)]
pub struct ShelfPut<S: Shelf> {
    before: Snapshot<S>,
    after: Snapshot<S>,
    name: Snapshot<ShelfName>,
    bytes: Tag,
    ghost did: { ∥ S.did before.value (Put name.value bytes.numbers) after.value ∥₁ },
}

impl<S: Shelf> PutReceipt for ShelfPut<S> {
    ghost put_name = { λ put. put.name.value };

    ghost put_bytes = { λ put. put.bytes.numbers };
}

/// A get of such a shelf that found nothing.
#[derive(Drop)]
pub struct ShelfLacks<S: Shelf> {
    before: Snapshot<S>,
    after: Snapshot<S>,
    name: Snapshot<ShelfName>,
    ghost did: { ∥ S.did before.value (Got name.value None) after.value ∥₁ },
}

impl<S: Shelf> AbsenceReceipt for ShelfLacks<S> {
    ghost absent_name = { λ lacks. lacks.name.value };
}

/// Puts bytes under a name on a shelf.
pub(crate) fn put_on<S: Shelf>(
    shelf: &mut S,
    name: ShelfName,
    bytes: &[u8],
) -> Result<ShelfPut<S>, ShelfFault>
    ensures put { IfOk result (λ put. (put.name.value ≡ name) × (put.bytes.numbers ≡ bytes.now)) }
    ensures failed { IfErr result (λ fault. S.did shelf.old (PutFails name bytes.now fault) shelf.new) }
{
    let before = Snapshot::of(&*shelf);
    shelf.put(name, bytes)?;
    Ok(ShelfPut {
        before,
        after: Snapshot::of(&*shelf),
        name: Snapshot::of(&name),
        bytes: tag_of(bytes),
    })
}

/// What a shelf has under a name.
pub(crate) fn get_of<S: Shelf>(
    shelf: &mut S,
    name: ShelfName,
) -> Result<Found<ShelfLacks<S>>, ShelfFault>
    ensures absent { IfOk result (λ found. IsAbsent (λ lacks. lacks.name.value) name found) }
    ensures failed { IfErr result (λ fault. S.did shelf.old (GetFails name fault) shelf.new) }
{
    let before = Snapshot::of(&*shelf);
    match shelf.get(name)? {
        Some(bytes) => Ok(Found::Bytes(bytes)),
        None => Ok(Found::Nothing(ShelfLacks {
            before,
            after: Snapshot::of(&*shelf),
            name: Snapshot::of(&name),
        })),
    }
}
