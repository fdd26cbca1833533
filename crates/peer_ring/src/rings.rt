//! Rings of peers.
ghost use Rattle.std.specs.Prelude.{◌≡◌, ◌↔◌, ◌*◌, ◌<◌, Err, IfOk, Some, length, map, slice_get};
ghost use Rattle.std.specs.List.Sorted.{IsPermutation, IsSorted};
ghost use Rattle.std.specs.String.{string_bytes};
ghost use Rattle.peer_ring.specs.Points.{point_cmp, points_of};
ghost use Rattle.peer_ring.specs.Owners.{IsOwner};
ghost use Rattle.peer_ring.specs.declared.rings.RingFault.TheVariants.{NoPeers, TooManyPeers};

use crate::points::{Point, push_points};
use crate::ring_hashes::RingHash;
use std::alloc::{AllocError, Global};
use std::marker::Model;
use thiserror::Error;

/// The most peers of a ring.
const MAX_PEERS: usize = 8;

/// Why there is no ring of some peers.
#[derive(Clone, Copy, Debug, PartialEq, Eq, Error)]
pub enum RingFault {
    #[error("a ring has at least one peer")]
    NoPeers,
    #[error("a ring has at most 8 peers")]
    TooManyPeers,
    #[error("out of memory")]
    OutOfMemory,
}

/// One to eight peers on a ring, each with 50 points. Contracts see the hash and the names of the peers, and the points are always theirs.
/// So whoever is given a ring knows the owner of each key by the names alone, and whoever connects to an owner has its name from the ring.
#[derive(Drop)]
pub struct Ring<H: RingHash + Drop> {
    hash: H,
    names: Vec<String>,
    points: Vec<Point>,
}

impl<H: RingHash + Drop> Model for Ring<H> {
    ghost use Rattle.std.specs.Prelude.{map};
    ghost use Rattle.std.specs.String.{string_bytes};
    ghost use Rattle.peer_ring.specs.Rings.{HasPoints, Peers, coded_peers};

    ghost Value = { Peers H };

    ghost coded = { coded_peers H.code };

    ghost view = { λ r. record { hash = r.hash; names = map string_bytes r.names.items } };

    ghost invariant = { λ r. HasPoints (H.hashed r.hash) (map string_bytes r.names.items) r.points.items };
}

/// The points of peers, in the order of the ring.
fn sorted_points<H: RingHash>(
    alloc: Global,
    names: &[&str],
    hash: &H,
) -> Result<Vec<Point>, AllocError>
    ensures count { IfOk result (λ points. length points.items ≡ 50 * length names.now) }
    ensures points { IfOk result (λ points. IsPermutation (points_of (H.hashed hash.now) (map (λ name. name.now) names.now) 0) points.items) }
    ensures sorted { IfOk result (λ points. IsSorted point_cmp points.items) }
{
    let mut points = Vec::new(alloc);
    for (peer, name) in names.iter().enumerate() {
        push_points(alloc, hash, name, peer, &mut points)?;
    }
    points.as_mut_slice().sort_unstable();
    Ok(points)
}

/// Copies of names.
fn copied(alloc: Global, names: &[&str]) -> Result<Vec<String>, AllocError>
    ensures { IfOk result (λ copies. map string_bytes copies.items ≡ map (λ name. name.now) names.now) }
{
    let mut copies = Vec::new(alloc);
    for name in names {
        copies.push(String::from_str(alloc, name)?)?;
    }
    Ok(copies)
}

/// The peer of the first point from a hash on, around the ring.
fn owner_among(points: &[Point], hash: u32) -> usize
    requires sorted { IsSorted point_cmp points.now }
    requires some { 0 < length points.now }
    ensures { IsOwner points.now hash result }
{
    let place = points.partition_point(|point| point.hash < hash);
    if place < points.len() {
        points[place].peer.0
    } else {
        points[0].peer.0
    }
}

impl<H: RingHash + Copy + Drop> Ring<H> {
    /// The ring of the peers with these names. A peer is known by its place among them.
    pub fn new(alloc: Global, names: &[&str], hash: &H) -> Result<Ring<H>, RingFault>
        ensures none { (result ≡ Err NoPeers) ↔ (length names.now ≡ 0) }
        ensures many { (result ≡ Err TooManyPeers) ↔ (8 < length names.now) }
        ensures ring { IfOk result (λ ring. ring ≡ record { hash = hash.now; names = map (λ name. name.now) names.now }) }
    {
        if names.is_empty() {
            return Err(RingFault::NoPeers);
        }
        if names.len() > MAX_PEERS {
            return Err(RingFault::TooManyPeers);
        }
        let points = sorted_points(alloc, names, hash).map_err(|_| RingFault::OutOfMemory)?;
        let names = copied(alloc, names).map_err(|_| RingFault::OutOfMemory)?;
        Ok(Ring {
            hash: *hash,
            names,
            points,
        })
    }

    /// The name of a peer, by its place.
    pub fn name(&self, peer: usize) -> &str
        requires { peer < length self.now.names }
        ensures { slice_get self.now.names peer ≡ Some result.now }
    {
        self.names[peer].as_str()
    }

    /// The peer that owns a key, by its place.
    pub fn owner(&self, key: &[u8]) -> usize
        ensures owner { IsOwner (points_of (H.hashed self.now.hash) self.now.names 0) (H.hashed self.now.hash key.now) result }
        ensures peer { result < length self.now.names }
    {
        owner_among(&self.points, self.hash.hash(key))
    }
}
