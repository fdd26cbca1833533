//! The points of peers.
ghost use Rattle.std.specs.Prelude.{◌≡◌, ◌+◌, ◌++◌, IfOk, OnOk, length};
ghost use Rattle.peer_ring.specs.Points.{point_of, points_of_peer};

use crate::ring_hashes::RingHash;
use std::alloc::{AllocError, Global};
use std::cmp::Reverse;

/// How many points each peer has.
pub(crate) const POINTS: usize = 50;

/// A place on the ring, and the peer that it belongs to. Points are ordered by their hashes; at one hash the later peer is first.
#[derive(Clone, Copy, Debug, PartialEq, Eq, PartialOrd, Ord)]
pub(crate) struct Point {
    pub(crate) hash: u32,
    pub(crate) peer: Reverse<usize>,
}

/// The point of a peer with this number.
fn numbered_point<H: RingHash>(
    alloc: Global,
    hash: &H,
    name: &str,
    peer: usize,
    number: usize,
) -> Result<Point, AllocError>
    ensures { IfOk result (λ point. point ≡ point_of (H.hashed hash.now) name.now peer number) }
{
    let text = format!(in alloc; "{number}{name}")?;
    Ok(Point {
        hash: hash.hash(text.as_bytes()),
        peer: Reverse(peer),
    })
}

/// Adds the points of a peer.
pub(crate) fn push_points<H: RingHash>(
    alloc: Global,
    hash: &H,
    name: &str,
    peer: usize,
    points: &mut Vec<Point>,
) -> Result<(), AllocError>
    ensures count { OnOk result (length points.new.items ≡ length points.old.items + 50) }
    ensures points { OnOk result (points.new.items ≡ points.old.items ++ points_of_peer (H.hashed hash.now) name.now peer 50) }
{
    for number in 0..POINTS {
        points.push(numbered_point(alloc, hash, name, peer, number)?)?;
    }
    Ok(())
}
