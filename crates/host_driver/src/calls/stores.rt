//! Uploads to a store in memory, and reads from it.
ghost use Rattle.std.specs.Prelude.{◌≡◌};

use crate::contents::random;
use anyhow::{Result, anyhow};
use blob_store::{Blobs, MemShelf};
use byte_view::{BlobInfo, MAX_SIZE, PIECE_SIZE};
use chunk_group::NodeFiles;
use host_names::Digest;
use http_wire::FieldText;
use range_reply::{Parts, read_body};
use range_spec::Choice;
use std::alloc::{AllocError, Global};
use std::sync::Arc;
use std::time::{Duration, Instant};

/// So many bytes, about, in pieces that are all the same.
fn equal(alloc: Global, bytes: usize) -> Result<Vec<u8>, AllocError> {
    let piece = random(alloc, PIECE_SIZE, 1)?;
    let mut file = Vec::with_capacity(alloc, bytes)?;
    for _ in 0..bytes / PIECE_SIZE {
        file.extend_from_slice(piece.as_slice())?;
    }
    Ok(file)
}

/// A store in memory without files.
pub(crate) fn empty_store(alloc: Global) -> Blobs<MemShelf> {
    Blobs::new(alloc, MemShelf::new(alloc))
}

/// Uploads a file, and gives what is kept of it, and the time.
fn upload(
    rt: &HostRuntime,
    blobs: &mut Blobs<MemShelf>,
    file: &[u8],
) -> Result<(Arc<BlobInfo>, Duration)> {
    let begun = Instant::now(rt)?;
    let info = blobs.upload(file)?;
    Ok((info, begun.elapsed(rt)?))
}

/// The time of a pass of SHA-1 over so many bytes.
pub(crate) fn time_digest(rt: &HostRuntime, bytes: usize) -> Result<Duration> {
    let file = random(rt.alloc(), bytes, 1)?;
    let begun = Instant::now(rt)?;
    let digest = Digest::of_bytes(file.as_slice());
    let took = begun.elapsed(rt)?;
    if digest == Digest::of_bytes(b"") {
        return Err(anyhow!("the bytes have the digest of the empty file"));
    }
    Ok(took)
}

/// The time of an upload of so many bytes.
pub(crate) fn time_upload(rt: &HostRuntime, bytes: usize) -> Result<Duration> {
    let file = random(rt.alloc(), bytes, 1)?;
    let mut blobs = empty_store(rt.alloc());
    let (_, took) = upload(rt, &mut blobs, file.as_slice())?;
    Ok(took)
}

/// The same of pieces that are all the same, of which the store keeps one.
pub(crate) fn time_equal(rt: &HostRuntime, bytes: usize) -> Result<Duration> {
    let file = equal(rt.alloc(), bytes)?;
    let mut blobs = empty_store(rt.alloc());
    let (info, took) = upload(rt, &mut blobs, file.as_slice())?;
    let first = info.names().first();
    if info.names().iter().any(|name| Some(name) != first) {
        return Err(anyhow!("two pieces have different names"));
    }
    Ok(took)
}

/// The time of so many uploads of the largest file to one store, each of other bytes, which are then dropped.
pub(crate) fn time_distinct(rt: &HostRuntime, files: u64) -> Result<Duration> {
    let mut blobs = empty_store(rt.alloc());
    let mut sum = Duration::ZERO;
    for number in 0..files {
        let file = random(rt.alloc(), MAX_SIZE, number.saturating_add(1))?;
        let (_, took) = upload(rt, &mut blobs, file.as_slice())?;
        sum = sum.saturating_add(took);
    }
    Ok(sum)
}

/// Whether parts are these bytes, one after another.
fn are_bytes(parts: Parts<'_>, mut bytes: &[u8]) -> bool {
    for part in parts {
        let Some(rest) = bytes.strip_prefix(part.bytes()) else {
            return false;
        };
        bytes = rest;
    }
    bytes.is_empty()
}

/// A node over the files of a store.
fn node_over(alloc: Global, blobs: Blobs<MemShelf>) -> Result<NodeFiles<MemShelf>> {
    let (_, files) = blobs.into_parts();
    let node = NodeFiles::new(alloc, files);
    node.map_err(|_| anyhow!("there is no memory for a node"))
}

/// The time of a read of a whole file, which has these bytes, through a node into the body that lends it.
fn time_body(
    rt: &HostRuntime,
    node: &mut NodeFiles<MemShelf>,
    info: &Arc<BlobInfo>,
    file: &[u8],
) -> Result<Duration> {
    let plain = FieldText::new("text/plain");
    let begun = Instant::now(rt)?;
    let body = read_body(rt.alloc(), node, info, &Choice::Whole, plain)?;
    let took = begun.elapsed(rt)?;
    if !are_bytes(body.parts(), file) {
        return Err(anyhow!("other bytes were read"));
    }
    Ok(took)
}

/// The time of a read of a whole file of so many bytes.
pub(crate) fn time_read(rt: &HostRuntime, bytes: usize) -> Result<Duration> {
    let file = random(rt.alloc(), bytes, 1)?;
    let mut blobs = empty_store(rt.alloc());
    let (info, _) = upload(rt, &mut blobs, file.as_slice())?;
    let mut node = node_over(rt.alloc(), blobs)?;
    time_body(rt, &mut node, &info, file.as_slice())
}
