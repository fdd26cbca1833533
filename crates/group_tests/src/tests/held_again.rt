//! Whole pieces that a reader holds while the caches let them go.
ghost use Rattle.std.specs.Prelude.{⊤};

use super::fixtures::number_of;
use super::node_fixtures::first_node;
use byte_view::{Chunk, PIECE_SIZE};
use chunk_group::{Counter, Group, Source, Tidy};
use chunk_reads::ReadFault;
use host_names::Digest;
use peer_link::NoLink;
use peer_ring::DigestHash;
use std::alloc::{AllocError, Global};
use std::process::Abort;
use std::sync::{Arc, Wait};
use std::test::Fail;

/// How many bytes the caches count at most: they have room for one piece.
const LIMIT: usize = 100_000;

/// Who has a share of a piece that two readers hold: these, the caches, and the node beside them.
const OWNERS: usize = 4;

/// A piece in which each byte is the same.
fn piece_of(alloc: Global, number: usize) -> Result<Chunk, AllocError> {
    let bytes = Vec::from_elem(alloc, (number % 256) as u8, PIECE_SIZE)?;
    let name = Digest::of_bytes(bytes.as_slice());
    Chunk::check(name, bytes).map_err(|_| AllocError)
}

/// The names of the first two pieces.
fn names_of_pieces(alloc: Global) -> Result<[Digest; 2], AllocError> {
    Ok([piece_of(alloc, 0)?.name(), piece_of(alloc, 1)?.name()])
}

/// Has the pieces of these names.
#[derive(Clone, Copy)]
struct PieceSource<'a> {
    alloc: Global,
    names: &'a [Digest],
}

impl Source for PieceSource<'_> {
    ghost allows = { λ _ _. ⊤ };

    ghost loaded = { λ _ _ _ _. Unit {0} };

    fn load(&mut self, key: &Digest) -> Result<Chunk, ReadFault> {
        let number = number_of(self.names, key).ok_or(ReadFault::Missing)?;
        piece_of(self.alloc, number).map_err(|_| ReadFault::OutOfMemory)
    }
}

type PieceNode<'a> = Group<DigestHash, PieceSource<'a>, NoLink, Counter>;

/// Asserts that a piece which a reader holds is the one that the next reader gets, although the caches had it no longer.
fn assert_held_again<R: Abort + Wait>(
    rt: &R,
    node: &PieceNode<'_>,
    names: &[Digest; 2],
) -> Result<(), Fail> {
    let [held, other] = names;
    let first = node.get(rt, held)?;
    node.get(rt, other)?;
    node.tidy(rt);
    let second = node.get(rt, held)?;
    assert_eq!(rt; Arc::strong_count(&first), OWNERS);
    assert_eq!(rt; second.view().len(), PIECE_SIZE);
    Ok(())
}

/// Asserts this of a node that has room for one piece.
fn assert_once<R: Abort + Wait>(rt: &R, alloc: Global, names: &[Digest; 2]) -> Result<(), Fail> {
    let source = PieceSource {
        alloc,
        names: names.as_slice(),
    };
    let node = first_node(alloc, LIMIT, &["node0"], source, NoLink)?;
    assert_held_again(rt, &node, names)
}

#[test]
fn a_piece_that_a_reader_holds_is_in_memory_once(rt: HostRuntime) -> Result<(), Fail> {
    let names = names_of_pieces(rt.alloc())?;
    assert_once(&rt, rt.alloc(), &names)
}
