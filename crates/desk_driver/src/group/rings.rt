//! The owners of keys.
use crate::group::Measured;
use anyhow::Result;
use host_names::Digest;
use peer_ring::{Ring, RingHash};
use std::alloc::Global;
use std::time::{Clock, Instant};

const NAMES: [&str; 8] = [
    "node0", "node1", "node2", "node3", "node4", "node5", "node6", "node7",
];

/// A hash that costs little, so that the search for the point counts.
#[derive(Clone, Copy)]
struct CheapHash;

impl RingHash for CheapHash {
    ghost use Rattle.desk_driver.specs.CheapHash.{cheap_hash};

    ghost hashed = { λ _. cheap_hash 0 };

    fn hash(&self, bytes: &[u8]) -> u32 {
        let mut hash = 0u32;
        for byte in bytes {
            hash = hash.wrapping_add(u32::from(*byte)).wrapping_mul(16_777_619);
        }
        hash
    }
}

pub(crate) fn time_owners<R: Clock>(
    rt: &R,
    alloc: Global,
    keys: &[Digest],
    rounds: u64,
) -> Result<Measured> {
    let ring = Ring::new(alloc, &NAMES, &CheapHash)?;
    let mut sum = 0u64;
    let begun = Instant::now(rt)?;
    for _ in 0..rounds {
        for key in keys {
            sum = sum.wrapping_add(ring.owner(&key.0) as u64);
        }
    }
    Ok(Measured {
        took: begun.elapsed(rt)?,
        sum,
    })
}
