//! The first of three nodes, on one thread and as threads share it.

use super::fixtures::Giver;
use super::gates::assert_count;
use super::node_fixtures::first_node;
use chunk_group::{Counter, Group, Outcome, SoloGroup};
use host_names::Digest;
use peer_ring::{DigestHash, Ring};
use std::alloc::Global;
use std::process::Abort;
use std::sync::Wait;
use std::sync::atomic::AtomicU64;
use std::test::Fail;

/// The names of the nodes. The first of them is read through.
pub(super) const PEERS: [&str; 3] = ["node0", "node1", "node2"];

/// The number of the first chunk that another node owns.
pub(super) fn number_of_others(alloc: Global, names: &[Digest]) -> Result<usize, Fail> {
    let ring = Ring::new(alloc, &PEERS, &DigestHash)?;
    let number = names
        .iter()
        .position(|name| ring.owner(name.to_hex().as_bytes()) != 0);
    Ok(number.ok_or("the node owns all")?)
}

/// What chunks are read through.
pub(super) trait Reads {
    fn read(&mut self, name: &Digest) -> Outcome;
}

pub(super) type LoneNode<'a> = SoloGroup<DigestHash, Giver<'a>, Giver<'a>, Counter>;

impl<'a> Reads for SoloGroup<DigestHash, Giver<'a>, Giver<'a>, Counter> {
    fn read(&mut self, name: &Digest) -> Outcome {
        self.get(name)
    }
}

pub(super) type SharedNode<'a> = Group<DigestHash, Giver<'a>, Giver<'a>, Counter>;

/// A node that threads share, for one of them.
#[derive(Drop)]
pub(super) struct Visitor<'v, 'a, R> {
    pub(super) rt: &'v R,
    pub(super) node: &'v SharedNode<'a>,
}

impl<R: Wait> Reads for Visitor<'_, '_, R> {
    fn read(&mut self, name: &Digest) -> Outcome {
        self.node.get(self.rt, name)
    }
}

/// How often the peers and the source were asked.
#[derive(Drop)]
pub(super) struct Asked {
    pub(super) peers: AtomicU64,
    pub(super) source: AtomicU64,
}

impl Asked {
    pub(super) fn new() -> Asked {
        Asked {
            peers: AtomicU64::new(0),
            source: AtomicU64::new(0),
        }
    }

    pub(super) fn assert(&self, rt: &impl Abort, peers: u64, source: u64) {
        assert_count(rt, &self.peers, peers, "calls of peers");
        assert_count(rt, &self.source, source, "calls of the source");
    }
}

pub(super) fn lone_node<'a>(
    alloc: Global,
    limit: usize,
    source: Giver<'a>,
    link: Giver<'a>,
) -> Result<LoneNode<'a>, Fail> {
    let ring = Ring::new(alloc, &PEERS, &DigestHash)?;
    Ok(SoloGroup::new(alloc, limit, ring, 0, source, link, Counter::new())?)
}

pub(super) fn shared_node<'a>(
    alloc: Global,
    limit: usize,
    source: Giver<'a>,
    link: Giver<'a>,
) -> Result<SharedNode<'a>, Fail> {
    first_node(alloc, limit, &PEERS, source, link)
}
