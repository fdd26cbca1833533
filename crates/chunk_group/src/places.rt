//! The place of a node in the ring of its peers.
ghost use Rattle.std.specs.Prelude.{◌≡◌, ◌<◌, MatchOption, length};
ghost use Rattle.chunk_group.specs.Owners.{IsOther, Owns};

use host_names::Digest;
use peer_ring::{Ring, RingHash};

/// The ring, and which of its peers this node is.
#[derive(Drop)]
pub(crate) struct RingPlace<H: RingHash + Drop> {
    ring: Ring<H>,
    me: usize,
}

impl<H: RingHash + Copy + Drop> RingPlace<H> {
    pub(crate) fn new(ring: Ring<H>, me: usize) -> RingPlace<H>
        requires { me < length ring.names }
        ensures ring { result.ring ≡ ring }
        ensures me { result.me ≡ me }
    {
        RingPlace { ring, me }
    }

    /// The peer that owns a key, unless this node does.
    pub(crate) fn other_owner(&self, key: &Digest) -> Option<usize>
        ensures { MatchOption result (Owns H.hashed self.now.ring key.now self.now.me) (IsOther (Owns H.hashed self.now.ring key.now) self.now.me) }
    {
        let owner = self.ring.owner(key.to_hex().as_bytes());
        if owner == self.me { None } else { Some(owner) }
    }
}
