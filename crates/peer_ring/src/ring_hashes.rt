//! The hash that places peers and keys on a ring.
ghost use Rattle.std.specs.Prelude.{◌≡◌, take};
ghost use Rattle.std.specs.Int.{from_be_bytes, w32};
ghost use Rattle.sha1.specs.Sha1.{sha1};

use sha1::Sha1;

/// A hash of 32 bits.
pub trait RingHash {
    ghost use Rattle.std.specs.Prelude.{◌≡◌, List, ℕ};

    ghost hashed: { Self → List ℕ → ℕ };

    /// The hash of some bytes.
    fn hash(&self, bytes: &[u8]) -> u32
        ensures { result ≡ hashed self.now bytes.now };
}

/// The first four bytes of the SHA-1 digest (FIPS 180-4), most significant first.
#[derive(Clone, Copy, Debug)]
pub struct DigestHash;

impl RingHash for DigestHash {
    ghost use Rattle.peer_ring.specs.Hashes.{digest_hash};

    ghost hashed = { λ _. digest_hash };

    fn hash(&self, bytes: &[u8]) -> u32 {
        let digest = Sha1::digest(bytes);
        u32::from_be_bytes([digest[0], digest[1], digest[2], digest[3]])
    }
}
