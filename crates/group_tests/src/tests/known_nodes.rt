//! Reads through a node that threads share, over a source of which all that it may answer is known.
ghost use Rattle.std.specs.Prelude.{◌≡◌, ◌≢◌, ◌∷◌, [], IfErr, IfOk};
ghost use Rattle.host_names.specs.Digests.{digest_of};
ghost use Rattle.chunk_reads.specs.declared.faults.ReadFault.TheVariants.{Damaged, Device};
ghost use Rattle.group_tests.specs.Sources.{GivesAlone, MayLack};

use super::node_fixtures::first_node;
use byte_view::Chunk;
use chunk_group::{Counter, Group, Outcome, Source};
use chunk_reads::ReadFault;
use host_names::Digest;
use peer_link::NoLink;
use peer_ring::DigestHash;
use std::alloc::Global;
use std::process::Abort;
use std::sync::Wait;
use std::test::Fail;

/// A source that has the chunk of one byte, and no other.
#[derive(Clone, Copy)]
struct OneByte {
    alloc: Global,
    byte: u8,
}

impl Source for OneByte {
    ghost allows = { MayLack };

    ghost loaded = { λ old key answer new. GivesAlone (old.byte ∷ []) key answer × (new ≡ old) };

    fn load(&mut self, key: &Digest) -> Result<Chunk, ReadFault> {
        let bytes = Vec::from_elem(self.alloc, self.byte, 1).map_err(|_| ReadFault::OutOfMemory)?;
        Chunk::check(*key, bytes).map_err(|_| ReadFault::Missing)
    }
}

type KnownNode = Group<DigestHash, OneByte, NoLink, Counter>;

/// A read through such a node tells no chunk as damaged, and blames no device.
fn read<R: Wait>(rt: &R, node: &KnownNode, key: &Digest) -> Outcome
    ensures named { IfOk result (λ chunk. digest_of chunk.value ≡ key.now) }
    ensures whole { IfErr result (λ fault. fault ≢ Damaged) }
    ensures blameless { IfErr result (λ fault. fault ≢ Device) }
{
    node.get(rt, key)
}

/// A node over the source of the byte 7.
fn known_node(alloc: Global) -> Result<KnownNode, Fail> {
    first_node(alloc, 1_000, &["node0"], OneByte { alloc, byte: 7 }, NoLink)
}

fn assert_given<R: Abort + Wait>(rt: &R, node: &KnownNode) -> Result<(), Fail> {
    let chunk = read(rt, node, &Digest::of_bytes(&[7]))?;
    assert_eq!(rt; chunk.view().bytes(), [7].as_slice());
    Ok(())
}

fn assert_missing<R: Abort + Wait>(rt: &R, node: &KnownNode) {
    let other = read(rt, node, &Digest::of_bytes(&[8]));
    assert!(rt; matches!(other, Err(ReadFault::Missing)));
}

#[test]
fn a_known_source_gives_its_chunk_and_lacks_others(rt: HostRuntime) -> Result<(), Fail> {
    let node = known_node(rt.alloc())?;
    assert_given(&rt, &node)?;
    assert_missing(&rt, &node);
    Ok(())
}
