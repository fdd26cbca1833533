//! What files have in them.
ghost use Rattle.std.specs.Prelude.{◌≡◌};

use std::alloc::{AllocError, Global};

/// So many bytes that look random: those of the numbers of a generator (xorshift64) that begins with this one.
pub(crate) fn random(alloc: Global, bytes: usize, first: u64) -> Result<Vec<u8>, AllocError> {
    let mut file = Vec::with_capacity(alloc, bytes)?;
    let mut state = first;
    for _ in 0..bytes {
        state ^= state << 13;
        state ^= state >> 7;
        state ^= state << 17;
        file.push((state % 256) as u8)?;
    }
    Ok(file)
}
