//! Rings: who owns a key, by hashes that are worked out by hand, and against numbers that a Python script made with `hashlib` and `bisect`.
ghost use Rattle.std.specs.Prelude.{length, ◌^◌, ◌%◌};

use peer_ring::{DigestHash, Ring, RingFault, RingHash};
use std::alloc::Global;
use std::process::Abort;
use std::test::Fail;

const NAMES: [&str; 8] = [
    "node0", "node1", "node2", "node3", "node4", "node5", "node6", "node7",
];

/// A text's length, so that many points have one hash.
#[derive(Clone, Copy)]
struct TextLength;

impl RingHash for TextLength {
    ghost hashed = { λ _ bytes. length bytes % 2 ^ 32 };

    fn hash(&self, bytes: &[u8]) -> u32 {
        (bytes.len() % (1 << 32)) as u32
    }
}

/// One hash for all.
#[derive(Clone, Copy)]
struct Constant;

impl RingHash for Constant {
    ghost hashed = { λ _ _. 7 };

    fn hash(&self, _bytes: &[u8]) -> u32 {
        7
    }
}

/// The bytes of a key.
fn key_of(number: u32) -> [u8; 4] {
    number.to_be_bytes()
}

fn assert_owner<H: RingHash + Copy + Drop>(rt: &impl Abort, ring: &Ring<H>, key: &str, name: &str) {
    assert_eq!(rt;
        ring.name(ring.owner(key.as_bytes())),
        name,
        "of the key {key}"
    );
}

#[test]
fn owners_by_the_length_of_a_text(rt: HostRuntime) -> Result<(), Fail> {
    let ring = Ring::new(rt.alloc(), &["a", "bbb"], &TextLength)?;
    for (key, name) in [("k", "a"), ("kkk", "a"), ("kkkk", "bbb"), ("kkkkkk", "a")] {
        assert_owner(&rt, &ring, key, name);
    }
    Ok(())
}

#[test]
fn the_last_peer_owns_all_where_all_points_are_one(rt: HostRuntime) -> Result<(), Fail> {
    let ring = Ring::new(rt.alloc(), &["a", "bbb"], &Constant)?;
    assert_owner(&rt, &ring, "k", "bbb");
    Ok(())
}

fn assert_fault(rt: &impl Abort, alloc: Global, names: &[&str], fault: RingFault) {
    assert_eq!(rt; Ring::new(alloc, names, &DigestHash).err(), Some(fault));
}

#[test]
fn a_ring_has_one_to_eight_peers(rt: HostRuntime) -> Result<(), Fail> {
    assert_fault(&rt, rt.alloc(), &[], RingFault::NoPeers);
    assert_fault(&rt, rt.alloc(), &["a"; 9], RingFault::TooManyPeers);
    Ok(())
}

/// How many of 100,000 keys each of eight peers owns, and how many it owns that another would own without the last peer.
#[derive(Debug, PartialEq, Eq, Drop)]
struct Spread {
    owned: [u32; 8],
    moved: [u32; 8],
}

fn count(counts: &mut [u32; 8], peer: usize) {
    if let Some(count) = counts.get_mut(peer) {
        *count = count.saturating_add(1);
    }
}

fn spread_over(some: &Ring<DigestHash>, all: &Ring<DigestHash>) -> Spread {
    let mut spread = Spread {
        owned: [0; 8],
        moved: [0; 8],
    };
    for number in 0..100_000 {
        let owner = all.owner(&key_of(number));
        count(&mut spread.owned, owner);
        if some.owner(&key_of(number)) != owner {
            count(&mut spread.moved, owner);
        }
    }
    spread
}

/// The greatest share is 15.1 of 100, and a ninth of the keys move, to the peer that was added.
#[test]
fn keys_are_spread_and_few_move(rt: HostRuntime) -> Result<(), Fail> {
    let some = Ring::new(rt.alloc(), &NAMES[..7], &DigestHash)?;
    let all = Ring::new(rt.alloc(), &NAMES, &DigestHash)?;
    let wanted = Spread {
        owned: [14845, 10745, 14991, 15129, 10715, 10138, 12648, 10789],
        moved: [0, 0, 0, 0, 0, 0, 0, 10789],
    };
    assert_eq!(rt; spread_over(&some, &all), wanted);
    Ok(())
}
