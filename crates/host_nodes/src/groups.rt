//! How the nodes ask each other for chunks.
ghost use Rattle.std.specs.Prelude.{◌≡◌, ◌<◌, IfOk, length, vec_len};

use crate::ports::Ports;
use blob_store::{AbsenceReceipt, Files, PutReceipt, ShelfAccess};
use chunk_group::{Counter, Group, SharedSource};
use operator_notices::Notices;
use peer_link::{Peer, TcpLink};
use peer_ring::{DigestHash, Ring, RingFault};
use std::alloc::{AllocError, Global};
use std::net::{Net, TcpStream};
use std::sync::{Mutex, Wait};
use std::time::Clock;

/// How many bytes the cache of a node counts at most: 64 MiB.
const CACHE_LIMIT: usize = 67_108_864;

/// A node of the group, which reads the shelf that all nodes share.
pub(crate) type HostGroup<'a, 'b, R, S, Q, U, N> = Group<
    DigestHash,
    SharedSource<'a, R, S, Q, U, N>,
    TcpLink<'b, R>,
    Counter,
>;

/// How a node knows all nodes: each as a peer, and its own place among them.
#[derive(Drop)]
pub(crate) struct View {
    peers: Vec<Peer>,
    me: usize,
    ghost within: { me < vec_len peers },
}

/// The nodes at these ports as peers.
fn peers_of(alloc: Global, all: &[Ports]) -> Result<Vec<Peer>, AllocError>
    ensures { IfOk result (λ peers. vec_len peers ≡ length all.now) }
{
    let mut peers = Vec::new(alloc);
    for ports in all {
        peers.push(Peer::new(ports.peer_address))?;
    }
    Ok(peers)
}

/// How each of the nodes at these ports knows them.
pub(crate) fn views_of(alloc: Global, all: &[Ports]) -> Result<Vec<View>, AllocError> {
    let mut views = Vec::new(alloc);
    for me in 0..all.len() {
        let peers = peers_of(alloc, all)?;
        views.push(View { peers, me })?;
    }
    Ok(views)
}

/// The names of the nodes in the ring: the texts of their addresses.
fn names_of(alloc: Global, peers: &[Peer]) -> Result<Vec<String>, AllocError>
    ensures { IfOk result (λ names. vec_len names ≡ length peers.now) }
{
    let mut names = Vec::new(alloc);
    for peer in peers {
        let address = peer.address();
        names.push(format!(in alloc; "{address}")?)?;
    }
    Ok(names)
}

/// The ring of these nodes.
fn ring_of(alloc: Global, peers: &[Peer]) -> Result<Ring<DigestHash>, RingFault>
    ensures { IfOk result (λ ring. length ring.names ≡ length peers.now) }
{
    let Ok(texts) = names_of(alloc, peers) else {
        return Err(RingFault::OutOfMemory);
    };
    let mut names = Vec::new(alloc);
    for text in &texts {
        if names.push(text.as_str()).is_err() {
            return Err(RingFault::OutOfMemory);
        }
    }
    Ring::new(alloc, names.as_slice(), &DigestHash)
}

/// The node that knows all nodes so, with empty caches. There is none only for want of memory.
fn group_at<
    'a,
    R: Net<Stream = TcpStream> + Clock + Wait,
    S,
    Q: ShelfAccess<S, U, N>,
    U: PutReceipt + Drop,
    N: AbsenceReceipt + Drop,
>(
    rt: &'a R,
    alloc: Global,
    files: &'a Mutex<Files<S>>,
    access: &'a Q,
    view: &'a View,
    notices: &'a Notices,
) -> Result<HostGroup<'a, 'a, R, S, Q, U, N>, AllocError> {
    let peers = view.peers.as_slice();
    let Ok(ring) = ring_of(alloc, peers) else {
        return Err(AllocError);
    };
    let source = SharedSource::new(rt, files, access);
    let link = TcpLink::new(alloc, rt, peers, notices);
    Group::new(
        alloc,
        CACHE_LIMIT,
        ring,
        view.me,
        source,
        link,
        Counter::new(),
    )
}

/// A node for each of these views, which reach the shelf this way.
pub(crate) fn groups_of<
    'a,
    R: Net<Stream = TcpStream> + Clock + Wait,
    S,
    Q: ShelfAccess<S, U, N>,
    U: PutReceipt + Drop,
    N: AbsenceReceipt + Drop,
>(
    rt: &'a R,
    alloc: Global,
    files: &'a Mutex<Files<S>>,
    access: &'a Q,
    views: &'a [View],
    notices: &'a Notices,
) -> Result<Vec<HostGroup<'a, 'a, R, S, Q, U, N>>, AllocError> {
    let mut groups = Vec::new(alloc);
    for view in views {
        groups.push(group_at(rt, alloc, files, access, view, notices)?)?;
    }
    Ok(groups)
}
