//! How a node loads what its caches don't have.
ghost use Rattle.std.specs.Prelude.{◌≡◌, true, Err, IfErr, IfOk, MatchOption, Ok, Some};
ghost use Rattle.host_names.specs.Digests.{digest_of};
ghost use Rattle.chunk_group.specs.declared.loads.Giver.TheVariants as giver;
ghost use Rattle.chunk_group.specs.Faults.{MayAnswer};
ghost use Rattle.chunk_group.specs.Loads.{IsAsked, IsGivenFault, IsNoChunk};
ghost use Rattle.chunk_group.specs.Owners.{Owns};

use crate::places::RingPlace;
use crate::sources::Source;
use byte_view::Chunk;
use chunk_reads::ReadFault;
use host_names::Digest;
use peer_link::PeerLink;
use peer_ring::RingHash;

/// Who gave a chunk.
#[derive(Clone, Copy, Debug, PartialEq, Eq)]
pub(crate) enum Giver {
    Source,
    Peer,
}

/// A chunk, and who gave it.
#[derive(Drop)]
pub(crate) struct Given {
    pub(crate) chunk: Chunk,
    pub(crate) giver: Giver,
}

/// Whom a node asks for chunks.
#[derive(Clone, Copy, Drop)]
pub(crate) struct Suppliers<S, L> {
    pub(crate) source: S,
    pub(crate) link: L,
}

/// The chunk of a key, from a peer.
fn from_peer<L: PeerLink>(link: &mut L, peer: usize, key: &Digest) -> Option<Chunk>
    ensures { MatchOption result (IsNoChunk L.fetched link.old peer key.now link.new) (λ chunk. (digest_of chunk ≡ key.now) × L.fetched link.old peer key.now (Some chunk) link.new) }
{
    let bytes = link.fetch(peer, key).ok()?;
    Chunk::check(*key, bytes).ok()
}

/// The chunk of a key, from the source.
pub(crate) fn from_source<S: Source>(source: &mut S, key: &Digest) -> Result<Chunk, ReadFault>
    ensures named { IfOk result (λ chunk. (digest_of chunk ≡ key.now) × S.loaded source.old key.now (Ok chunk) source.new) }
    ensures fault { IfErr result (λ fault. IsGivenFault S.loaded source.old key.now fault source.new) }
    ensures allowed { IfErr result (λ fault. MayAnswer S.allows key.now fault) }
{
    let chunk = source.load(key)?;
    if chunk.name() != *key {
        return Err(ReadFault::Damaged);
    }
    Ok(chunk)
}

impl<S: Source, L: PeerLink> Suppliers<S, L> {
    /// The chunk of a key: from the peer that owns it, if that is another node and gives it, else from the source.
    pub(crate) fn ask<H: RingHash + Copy + Drop>(
        &mut self,
        place: &RingPlace<H>,
        key: &Digest,
    ) -> Result<Given, ReadFault>
        ensures given { IfOk result (λ given. IsAsked S.loaded L.fetched (Owns H.hashed place.now.ring key.now) place.now.me given.giver self.old key.now (Ok given.chunk) self.new) }
        ensures named { IfOk result (λ given. digest_of given.chunk ≡ key.now) }
        ensures fault { IfErr result (λ fault. IsAsked S.loaded L.fetched (Owns H.hashed place.now.ring key.now) place.now.me giver.Source self.old key.now (Err fault) self.new) }
        ensures allowed { IfErr result (λ fault. MayAnswer S.allows key.now fault) }
    {
        if let Some(peer) = place.other_owner(key) {
            if let Some(chunk) = from_peer(&mut self.link, peer, key) {
                return Ok(Given {
                    chunk,
                    giver: Giver::Peer,
                });
            }
        }
        Ok(Given {
            chunk: from_source(&mut self.source, key)?,
            giver: Giver::Source,
        })
    }
}
