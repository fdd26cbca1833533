//! What an opening lists, read from its text.
ghost use Rattle.std.specs.Prelude.{◌≡◌, ◌≤◌, IfOk, IsErrOf, IsSome, IsTrue};
ghost use Rattle.site_state.specs.Files.{IsByPath};
ghost use Rattle.entry_texts.specs.Reading;
ghost use Rattle.entry_texts.specs.Reading.{Gives};

use crate::decode_faults::DecodeFault;
use crate::fields::{digest_at, path_at};
use host_names::{Digest, FilePath};
use std::alloc::Global;

/// A path, and what is listed there.
#[tactic(auto, unfolding(crate::specs::Reading::listed_at))]
fn listed_at(
    alloc: Global,
    bytes: &[u8],
) -> Result<((FilePath, Option<Digest>), &[u8]), DecodeFault>
    ensures value { Gives (λ x. (x.0, x.1.now)) result (Reading.listed_at bytes.now) }
    ensures memory { IsErrOf result DecodeFault.OutOfMemory → IsSome (Reading.path_at bytes.now) }
{
    let (path, rest) = path_at(alloc, bytes)?;
    let Some((digest, rest)) = digest_at(rest) else {
        return Err(DecodeFault::BadEntry);
    };
    Ok(((path, digest), rest))
}

/// The paths, as many as `count` says, each with what is listed there.
fn files_at(
    alloc: Global,
    count: u32,
    bytes: &[u8],
) -> Result<(Vec<(FilePath, Option<Digest>)>, &[u8]), DecodeFault>
    ensures value { Gives (λ x. (x.0.items, x.1.now)) result (Reading.files_at count bytes.now) }
    ensures some { IsErrOf result DecodeFault.OutOfMemory → 1 ≤ count }
    ensures memory { IsErrOf result DecodeFault.OutOfMemory → IsSome (Reading.path_at bytes.now) }
{
    let mut files = Vec::new(alloc);
    let mut rest = bytes;
    for _ in 0..count {
        let (file, after) = listed_at(alloc, rest)?;
        files.push(file)?;
        rest = after;
    }
    Ok((files, rest))
}

/// Whether each path is below the next.
fn is_rising(files: &[(FilePath, Option<Digest>)]) -> bool
    ensures value { result ≡ Reading.is_rising files.now }
    ensures sorted { IsTrue result → IsByPath files.now }
{
    files.is_sorted_by(|one, other| one.0 < other.0)
}

/// The paths that these bytes list.
#[tactic(auto, unfolding(crate::specs::Reading::whole_files))]
pub(crate) fn whole_files(
    alloc: Global,
    count: u32,
    bytes: &[u8],
) -> Result<Vec<(FilePath, Option<Digest>)>, DecodeFault>
    ensures value { Gives (λ files. files.items) result (Reading.whole_files count bytes.now) }
    ensures sorted { IfOk result (λ files. IsByPath files.items) }
    ensures some { IsErrOf result DecodeFault.OutOfMemory → 1 ≤ count }
    ensures memory { IsErrOf result DecodeFault.OutOfMemory → IsSome (Reading.path_at bytes.now) }
{
    let (files, rest) = files_at(alloc, count, bytes)?;
    if rest.is_empty() && is_rising(files.as_slice()) {
        Ok(files)
    } else {
        Err(DecodeFault::BadEntry)
    }
}
