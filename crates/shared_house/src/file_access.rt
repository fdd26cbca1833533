//! How a node's files are reached.
ghost use Rattle.std.specs.Prelude.{◌≡◌, ◌<◌, ◌≤◌, IfErr, IfOk, length};
ghost use Rattle.chunk_group.specs.Holding.{MayNotHold};
ghost use Rattle.shared_house.specs.Desks.{HoldFault};

use byte_view::{BlobInfo, Hold};
use chunk_group::{Coin, Group, Outcome, Source};
use chunk_reads::ReadFault;
use peer_link::PeerLink;
use peer_ring::RingHash;
use std::sync::{Arc, Wait};

/// Holds stretches of files, for many threads at once.
pub trait FileAccess {
    /// What a stretch of a file shows that isn't held. Each way to files chooses it. A house is proved over any of them, so it can show that a stretch isn't
    /// held only by asking for it.
    ghost fails: { HoldFault };

    /// A stretch of a file, with the chunks that it meets. It is given by its first and its last byte, both included.
    fn hold(&mut self, info: Arc<BlobInfo>, first: usize, last: usize) -> Result<Hold, ReadFault>
        requires ordered { first ≤ last }
        requires within { last < length info.value }
        ensures stretch { IfOk result (λ hold.
            (hold.file ≡ info.value) × (hold.first ≡ first) × (hold.last ≡ last)) }
        ensures fault { IfErr result (λ why. fails info.value first last why) };
}

/// The files that are read through a node of a group, for one request: all that is asked of peers for it shares one budget of time. No lock is held while a
/// chunk is loaded or hashed.
#[derive(Drop)]
pub struct GroupFiles<'a, W, G, L> {
    rt: &'a W,
    group: &'a G,
    link: L,
}

impl<
    'a,
    W,
    H: RingHash + Copy + Drop,
    S: Source + Copy,
    L: PeerLink + Copy,
    C: Coin + Drop,
> GroupFiles<'a, W, Group<H, S, L, C>, L> {
    /// The files of a node, for a thread that waits for its locks and flights by this handle.
    pub fn new(rt: &'a W, group: &'a Group<H, S, L, C>) -> GroupFiles<'a, W, Group<H, S, L, C>, L> {
        let link = group.link();
        GroupFiles { rt, group, link }
    }
}

impl<
    W: Wait,
    H: RingHash + Copy + Drop,
    S: Source + Copy,
    L: PeerLink + Copy,
    C: Coin + Drop,
> FileAccess for GroupFiles<'_, W, Group<H, S, L, C>, L> {
    ghost fails = { MayNotHold S.allows };

    fn hold(&mut self, info: Arc<BlobInfo>, first: usize, last: usize) -> Result<Hold, ReadFault> {
        self.group.hold(self.rt, &mut self.link, info, first, last)
    }
}

/// The files of which each piece is in the caches of a node. Nothing is waited for. There is no memory for other files: so a quick guest leaves requests that
/// read them.
#[derive(Drop)]
pub struct CachedFiles<'a, W, G> {
    rt: &'a W,
    group: &'a G,
}

impl<'a, W, G> CachedFiles<'a, W, G> {
    /// The files of a node, for a thread that waits for the lock of its caches by this handle.
    pub fn new(rt: &'a W, group: &'a G) -> CachedFiles<'a, W, G> {
        CachedFiles { rt, group }
    }
}

impl<
    W: Wait,
    H: RingHash + Copy + Drop,
    S: Source + Copy,
    L: PeerLink + Copy,
    C: Coin + Drop,
> FileAccess for CachedFiles<'_, W, Group<H, S, L, C>> {
    // As of the files of the node: so steps of both kinds of guests are steps of one connection.
    ghost fails = { MayNotHold S.allows };

    fn hold(&mut self, info: Arc<BlobInfo>, first: usize, last: usize) -> Result<Hold, ReadFault> {
        match self.group.hold_cached(self.rt, info, first, last) {
            Some(hold) => Ok(hold),
            None => Err(ReadFault::OutOfMemory),
        }
    }
}
