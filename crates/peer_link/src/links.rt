//! Links to peers.
ghost use Rattle.std.specs.Prelude.{MatchResult, None, Some};

use host_names::Digest;
use thiserror::Error;

/// A peer gave no bytes, for whatever cause: it has none, it can't be reached, or there is no memory for them.
#[derive(Clone, Copy, Debug, PartialEq, Eq, Error)]
#[error("the peer gave no bytes")]
pub struct PeerFault;

/// Asks peers for chunks. Peers are not trusted: what one gives may be any bytes.
pub trait PeerLink {
    ghost use Rattle.std.specs.Prelude.{ℕ, List, Option};
    ghost use Rattle.host_names.specs.declared.digests.Digest.{Digest};

    /// What a call of a peer for a key, with the bytes that it gave, or none, leads from and to.
    ghost fetched: { Self → ℕ → Digest → Option (List ℕ) → Self → Type 0 };

    /// What a peer gives for a key. Peers are known by their places in the ring.
    fn fetch(&mut self, peer: usize, key: &Digest) -> Result<Vec<u8>, PeerFault>
        ensures { MatchResult result (λ bytes. fetched self.old peer key.now (Some bytes.items) self.new) (λ _. fetched self.old peer key.now None self.new) };
}

/// The link of a node that has no peers: no peer gives anything.
#[derive(Clone, Copy, Debug)]
pub struct NoLink;

impl PeerLink for NoLink {
    ghost use Rattle.std.specs.Prelude.{◌≡◌, None};

    ghost fetched = { λ _ _ _ answer _. answer ≡ None };

    fn fetch(&mut self, _peer: usize, _key: &Digest) -> Result<Vec<u8>, PeerFault> {
        Err(PeerFault)
    }
}
