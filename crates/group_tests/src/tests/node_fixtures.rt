//! How tests make a node that threads share.
ghost use Rattle.std.specs.Prelude.{◌<◌, length};

use chunk_group::{Counter, Group, Source};
use peer_link::PeerLink;
use peer_ring::{DigestHash, Ring};
use std::alloc::Global;
use std::test::Fail;

/// The first of the nodes of these names, over this source and this link.
pub(super) fn first_node<S: Source + Copy, L: PeerLink + Copy>(
    alloc: Global,
    limit: usize,
    names: &[&str],
    source: S,
    link: L,
) -> Result<Group<DigestHash, S, L, Counter>, Fail>
    requires { 0 < length names.now }
{
    let ring = Ring::new(alloc, names, &DigestHash)?;
    Ok(Group::new(alloc, limit, ring, 0, source, link, Counter::new())?)
}
