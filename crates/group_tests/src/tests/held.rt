//! Stretches of files that are held through a node.
use super::fixtures::{Giver, bytes_of, names};
use super::gates::assert_count;
use super::node_fixtures::first_node;
use blob_store::{Blobs, Files, MemShelf};
use byte_view::{BlobInfo, Hold};
use chunk_group::{Counter, FileSource, Group, SoloGroup};
use chunk_reads::{Holder, ReadFault};
use host_names::Digest;
use peer_link::NoLink;
use peer_ring::{DigestHash, Ring};
use std::alloc::{AllocError, Global};
use std::process::Abort;
use std::sync::atomic::AtomicU64;
use std::sync::{Arc, Wait};
use std::test::Fail;

/// The bytes of all that is held.
fn held(alloc: Global, hold: &Hold) -> Result<Vec<u8>, AllocError> {
    let (first, last) = hold.stretch();
    let mut bytes: Vec<u8> = Vec::new(alloc);
    for piece in hold.pieces(first, last) {
        bytes.extend_from_slice(piece)?;
    }
    Ok(bytes)
}

/// What is held of a file, from its first to its last byte.
fn hold<H: Holder>(
    holder: &mut H,
    info: &Arc<BlobInfo>,
    first: usize,
    last: usize,
) -> Result<Hold, ReadFault> {
    if first > last || last >= info.len() {
        return Err(ReadFault::Missing);
    }
    let info = Arc::try_clone(info).map_err(|_| ReadFault::OutOfMemory)?;
    holder.hold(info, first, last)
}

/// A file of so many bytes, no two pieces of which are the same.
fn file_of(alloc: Global, size: u32) -> Result<Vec<u8>, AllocError> {
    let mut file = Vec::new(alloc);
    for place in 0..size {
        file.push((place % 251) as u8)?;
    }
    Ok(file)
}

fn assert_bytes(rt: &impl Abort, bytes: &Vec<u8>, wanted: &[u8]) {
    assert_eq!(rt; bytes.as_slice(), wanted);
}

type StoredNode = SoloGroup<DigestHash, FileSource<MemShelf>, NoLink, Counter>;

/// A node over a shelf.
fn stored_node(alloc: Global, shelf: Files<MemShelf>) -> Result<StoredNode, Fail> {
    let ring = Ring::new(alloc, &["node0", "node1"], &DigestHash)?;
    let source = FileSource::new(shelf);
    Ok(SoloGroup::new(alloc, 100_000, ring, 0, source, NoLink, Counter::new())?)
}

/// The bytes of a stretch that is held.
fn read<H: Holder>(
    alloc: Global,
    node: &mut H,
    info: &Arc<BlobInfo>,
    first: usize,
    last: usize,
) -> Result<Vec<u8>, Fail> {
    let hold = hold(node, info, first, last)?;
    Ok(held(alloc, &hold)?)
}

/// Asserts the bytes of a stretch.
fn assert_stretch<H: Holder>(
    rt: &impl Abort,
    alloc: Global,
    node: &mut H,
    info: &Arc<BlobInfo>,
) -> Result<(), Fail> {
    let bytes = read(alloc, node, info, 65_535, 65_536)?;
    assert_bytes(rt, &bytes, &[24, 25]);
    Ok(())
}

/// Asserts that a file that wasn't uploaded is missing.
fn assert_missing<H: Holder>(rt: &impl Abort, alloc: Global, node: &mut H) -> Result<(), Fail> {
    let other = Arc::new(alloc, BlobInfo::of(alloc, b"not there")?)?;
    let fault = hold(node, &other, 0, 8).err();
    assert_eq!(rt; fault, Some(ReadFault::Missing));
    Ok(())
}

/// Asserts the bytes of a stretch of a file, from the shelf and then from the cache, and that another file is missing.
fn assert_file<H: Holder>(
    rt: &impl Abort,
    alloc: Global,
    node: &mut H,
    info: &Arc<BlobInfo>,
) -> Result<(), Fail> {
    assert_stretch(rt, alloc, node, info)?;
    assert_stretch(rt, alloc, node, info)?;
    assert_missing(rt, alloc, node)
}

/// Asserts this of a file on a shelf.
fn assert_on_shelf(
    rt: &impl Abort,
    alloc: Global,
    shelf: Files<MemShelf>,
    info: &Arc<BlobInfo>,
) -> Result<(), Fail> {
    let mut node = stored_node(alloc, shelf)?;
    assert_file(rt, alloc, &mut node, info)
}

/// Asserts this of a file that is put on a shelf.
fn assert_stored(rt: &impl Abort, alloc: Global, file: &[u8]) -> Result<(), Fail> {
    let mut blobs = Blobs::new(alloc, MemShelf::new(alloc));
    let info = blobs.upload(file)?;
    assert_on_shelf(rt, alloc, blobs.into_parts().1, &info)
}

#[test]
fn a_stretch_of_a_stored_file_is_held_across_the_edge_of_a_chunk(
    rt: HostRuntime,
) -> Result<(), Fail> {
    let file = file_of(rt.alloc(), 65_537)?;
    assert_stored(&rt, rt.alloc(), file.as_slice())
}

type SharedNode<'a> = Group<DigestHash, Giver<'a>, NoLink, Counter>;

/// The bytes of a stretch of this file, which has one chunk.
fn read_shared<R: Wait>(
    rt: &R,
    alloc: Global,
    node: &SharedNode<'_>,
    info: Arc<BlobInfo>,
) -> Result<Vec<u8>, Fail> {
    if info.len() < 9 {
        return Err(Fail::from("the file has no such stretch"));
    }
    let hold = node.hold(rt, &mut node.link(), info, 5, 8)?;
    Ok(held(alloc, &hold)?)
}

/// The same from the caches alone; none, if they don't have it.
fn read_cached<R: Wait>(
    rt: &R,
    alloc: Global,
    node: &SharedNode<'_>,
    file: &[u8],
) -> Result<Option<Vec<u8>>, Fail> {
    let info = Arc::new(alloc, BlobInfo::of(alloc, file)?)?;
    if info.len() < 9 {
        return Err(Fail::from("the file has no such stretch"));
    }
    match node.hold_cached(rt, info, 5, 8) {
        Some(hold) => Ok(Some(held(alloc, &hold)?)),
        None => Ok(None),
    }
}

/// Asserts these bytes.
fn assert_sevens<R: Abort + Wait>(
    rt: &R,
    alloc: Global,
    node: &SharedNode<'_>,
    file: &[u8],
) -> Result<(), Fail> {
    let info = Arc::new(alloc, BlobInfo::of(alloc, file)?)?;
    let bytes = read_shared(rt, alloc, node, info)?;
    assert_bytes(rt, &bytes, &[7, 7, 7, 7]);
    Ok(())
}

/// Asserts that two holds of one stretch of a file through a node give its bytes, and that the caches have it after that and not before.
fn assert_held_twice<R: Abort + Wait>(
    rt: &R,
    alloc: Global,
    node: &SharedNode<'_>,
    file: &[u8],
) -> Result<(), Fail> {
    let before = read_cached(rt, alloc, node, file)?;
    assert_eq!(rt; before.is_none(), true, "before it was read");
    assert_sevens(rt, alloc, node, file)?;
    assert_sevens(rt, alloc, node, file)?;
    let after = read_cached(rt, alloc, node, file)?.ok_or("it is in the caches")?;
    assert_bytes(rt, &after, &[7, 7, 7, 7]);
    Ok(())
}

/// Asserts this of a node over a source.
fn assert_held<R: Abort + Wait>(
    rt: &R,
    alloc: Global,
    source: Giver<'_>,
    file: &[u8],
) -> Result<(), Fail> {
    let node = first_node(alloc, 10_000, &["node0"], source, NoLink)?;
    assert_held_twice(rt, alloc, &node, file)
}

/// Asserts this of the file of the eighth chunk, and counts the loads.
fn assert_sevens_held<R: Abort + Wait>(
    rt: &R,
    alloc: Global,
    names: &[Digest],
    loads: &AtomicU64,
) -> Result<(), Fail> {
    let file = bytes_of(alloc, 7)?;
    let source = Giver::new(alloc, names, &[], loads);
    assert_held(rt, alloc, source, file.as_slice())
}

#[test]
fn a_stretch_is_held_through_a_node_that_threads_share(rt: HostRuntime) -> Result<(), Fail> {
    let names = names(rt.alloc(), 8)?;
    let calls = AtomicU64::new(0);
    assert_sevens_held(&rt, rt.alloc(), names.as_slice(), &calls)?;
    assert_count(&rt, &calls, 1, "loads");
    Ok(())
}
