//! What flights come to.
ghost use Rattle.std.specs.Prelude.{◌≡◌, IfOk, Some, option_map};
ghost use Rattle.world_node.specs.Nodes.{checked};

use byte_view::Chunk;
use host_names::Digest;
use std::alloc::{AllocError, Global};
use std::marker::Model;
use std::sync::Arc;

/// The chunk of the flight's key, or a fault. A fault has no kind: which fault a read is told is outside what the laws of worlds say.
/// Contracts see the chunk's bytes.
#[derive(Drop)]
pub struct Outcome {
    chunk: Option<Arc<Chunk>>,
}

impl Model for Outcome {
    ghost use Rattle.std.specs.Prelude.{ℕ, List, Option, option_map};

    ghost Value = { Option (List ℕ) };

    ghost view = { λ o. option_map (λ chunk. chunk.value) o.chunk };
}

impl Outcome {
    ghost use Rattle.std.specs.Prelude.{◌≡◌, IfOk, None, Some, is_none, option_map};

    /// This chunk.
    pub(crate) fn of(chunk: Arc<Chunk>) -> Outcome
        ensures { result ≡ Some chunk.value }
    {
        Outcome { chunk: Some(chunk) }
    }

    /// A fault.
    pub(crate) fn fault() -> Outcome
        ensures { result ≡ None }
    {
        Outcome { chunk: None }
    }

    /// Whether it is a fault.
    pub fn is_fault(&self) -> bool
        ensures { result ≡ is_none self.now }
    {
        self.chunk.is_none()
    }

    /// A share of its chunk; none if it is a fault.
    pub fn chunk(&self) -> Result<Option<Arc<Chunk>>, AllocError>
        ensures { IfOk result (λ chunk. option_map (λ it. it.value) chunk ≡ self.now) }
    {
        match &self.chunk {
            Some(chunk) => Ok(Some(Arc::try_clone(chunk)?)),
            None => Ok(None),
        }
    }

    /// A share of the same outcome.
    pub(crate) fn share(&self) -> Result<Outcome, AllocError>
        ensures { IfOk result (λ other. other ≡ self.now) }
    {
        match &self.chunk {
            Some(chunk) => Ok(Outcome {
                chunk: Some(Arc::try_clone(chunk)?),
            }),
            None => Ok(Outcome { chunk: None }),
        }
    }
}

/// The outcome of bytes that were given for a key.
fn check_bytes(alloc: Global, key: Digest, bytes: Vec<u8>) -> Result<Outcome, AllocError>
    ensures { IfOk result (λ outcome. outcome ≡ checked key (Some bytes.items)) }
{
    match Chunk::check(key, bytes) {
        Ok(chunk) => Ok(Outcome::of(Arc::new(alloc, chunk)?)),
        Err(_) => Ok(Outcome::fault()),
    }
}

/// The outcome of an answer for a key.
pub(crate) fn check(
    alloc: Global,
    key: Digest,
    answer: &Option<Vec<u8>>,
) -> Result<Outcome, AllocError>
    ensures { IfOk result (λ outcome. outcome ≡ checked key (option_map (λ bytes. bytes.items) answer.now)) }
{
    match answer {
        Some(bytes) => {
            let bytes = bytes.clone()?;
            check_bytes(alloc, key, bytes)
        }
        None => Ok(Outcome::fault()),
    }
}
