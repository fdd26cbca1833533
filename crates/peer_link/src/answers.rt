//! What a peer is answered.
ghost use Rattle.std.specs.Prelude.{◌≡◌, IfOk, IfSome, IsErrOf, Ok, ℕ, codes, option_map};
ghost use Rattle.http_wire.specs.Replies.{fields_of};
ghost use Rattle.host_names.specs.Digests.{digest_of};
ghost use Rattle.peer_link.specs.Answers.{Answers, answer_head};
ghost use Rattle.peer_link.specs.Paths.{IsPathOf};

use crate::faults::ServeFault;
use crate::paths::key_of_path;
use byte_view::Chunk;
use host_names::Digest;
use http::{StatusCode, Version};
use http_wire::{Head, HeadFault, ReplyHead, check_body};
use std::sync::{Arc, Wait};

/// How many requests of a peer one connection answers.
pub(crate) const MOST_REQUESTS: u32 = 100;

/// Gives the chunks that a node has by itself: no peer is asked.
pub trait LocalChunks {
    /// A share of the chunk of a key, if there is one.
    fn local<R: Wait>(&self, rt: &R, key: &Digest) -> Option<Arc<Chunk>>
        ensures named { IfSome result (λ chunk. digest_of chunk.value ≡ key.now) };
}

// The head of an answer.
pub(crate) fn head_of(status: StatusCode) -> ReplyHead<'static>
    ensures { (size : ℕ) → fields_of result size ≡ answer_head status size }
{
    ReplyHead {
        status,
        content_type: None,
        etag: None,
        accept_ranges: false,
        content_range: None,
        allow: None,
        close: false,
    }
}

// Which chunk is asked for, if one is.
fn asked_key(head: &Head) -> Option<Digest>
    ensures { IfSome result (λ key. (head.now.method ≡ codes "GET") × IsPathOf head.now.target key) }
{
    if head.method().as_str() == "GET" {
        key_of_path(head.target())
    } else {
        None
    }
}

// The chunk that a request is answered with, of those that a node has by itself; none for another method, for a path that isn't a chunk's, and for a chunk
// that the node doesn't have.
pub(crate) fn chunk_for<R: Wait, C: LocalChunks>(
    rt: &R,
    chunks: &C,
    head: &Head,
) -> Option<Arc<Chunk>>
    ensures { Answers head.now (option_map (λ chunk. chunk.value) result) }
{
    let key = asked_key(head)?;
    chunks.local(rt, &key)
}

// The request that was read; none where the input ended.
pub(crate) fn request(read: Result<Head, HeadFault>) -> Result<Option<Head>, ServeFault>
    ensures head { IfOk result (λ found. IfSome found (λ head. read ≡ Ok head)) }
    ensures failed { IsErrOf result ServeFault.ReadFault → IsErrOf read HeadFault.ReadFault }
    ensures read { IsErrOf result ServeFault.WriteFault → ⊥ }
{
    match read {
        Ok(head) if check_body(&head, 0).is_ok() => Ok(Some(head)),
        Ok(_) => Err(ServeFault::BadHead),
        Err(HeadFault::Ended) => Ok(None),
        Err(HeadFault::ReadFault) => Err(ServeFault::ReadFault),
        Err(HeadFault::HeadTooLarge | HeadFault::BadHead) => Err(ServeFault::BadHead),
        Err(HeadFault::OutOfMemory) => Err(ServeFault::OutOfMemory),
    }
}

// Whether the connection ends after this request: the request asks for that, or its version is HTTP/1.0.
pub(crate) fn is_last(head: &Head) -> bool {
    head.asks_close() || head.version() != Version::HTTP_11
}
