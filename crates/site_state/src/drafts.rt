//! Which files of a deploy have not been uploaded.
ghost use Rattle.std.specs.Prelude.{◌≡◌, ◌↔◌, ◌≤◌, ◌++◌, None, length, IfOk, IsSome, OnErr, OnOk, filter_map, option_to_list, slice_get};
ghost use Rattle.site_state.specs.Missing;
ghost use Rattle.site_state.specs.Missing.{AreMissing, first_lacking_of, least_missing_of};

use crate::listings::Listing;
use crate::values::Draft;
use byte_view::Uploads;
use host_names::{Digest, FilePath};
use std::alloc::{AllocError, Global};

fn is_lacking<U: Uploads>(uploads: &U, digest: &Digest) -> bool
    ensures { result ≡ Missing.is_lacking (U.contents uploads.now) digest.now }
{
    uploads.find(digest).is_none()
}

/// The listed digest, if its file was not uploaded.
fn if_lacking<U: Uploads>(uploads: &U, listed: &Option<Digest>) -> Option<Digest>
    ensures { result ≡ Missing.if_lacking (U.contents uploads.now) listed.now }
{
    match listed {
        Some(digest) if is_lacking(uploads, digest) => Some(*digest),
        _ => None,
    }
}

/// Adds a digest, if there is one, after the others.
fn push_some(digests: &mut Vec<Digest>, digest: Option<Digest>) -> Result<(), AllocError>
    ensures added { OnOk result (digests.new.items ≡ digests.old.items ++ option_to_list digest) }
    ensures memory { OnErr result (IsSome digest) }
{
    match digest {
        Some(digest) => Ok(digests.push(digest)?),
        None => Ok(()),
    }
}

/// The listed digests whose files were not uploaded, in the order of the listing.
fn lacking<U: Uploads>(
    alloc: Global,
    files: &[(FilePath, Option<Digest>)],
    uploads: &U,
) -> Result<Vec<Digest>, AllocError>
    ensures digests { IfOk result (λ digests.
        digests.items ≡ filter_map (λ f. Missing.if_lacking (U.contents uploads.now) f.1) files.now) }
    ensures memory { OnErr result (IsSome (least_missing_of (U.contents uploads.now) files.now)) }
{
    let mut digests = Vec::new(alloc);
    for (_, listed) in files {
        push_some(&mut digests, if_lacking(uploads, listed))?;
    }
    Ok(digests)
}

/// The digests of the listed files that were not uploaded, in their order, each once. Takes memory only if there is one.
pub fn missing<U: Uploads>(
    alloc: Global,
    files: &Listing,
    uploads: &U,
) -> Result<Vec<Digest>, AllocError>
    ensures exactly { IfOk result (λ digests. AreMissing (U.contents uploads.now) files.now.1 digests.items) }
    ensures least_first { IfOk result (λ digests.
        slice_get digests.items 0 ≡ least_missing_of (U.contents uploads.now) files.now.1) }
    ensures memory { OnErr result (IsSome (least_missing_of (U.contents uploads.now) files.now.1)) }
{
    let mut digests = lacking(alloc, files.entries(), uploads)?;
    digests.sort_unstable();
    digests.dedup();
    Ok(digests)
}

/// The lesser of two digests, if there are two.
fn lesser(a: Option<Digest>, b: Option<Digest>) -> Option<Digest>
    ensures { result ≡ Missing.lesser a b }
{
    match (a, b) {
        (Some(a), Some(b)) if a.cmp(&b).is_gt() => Some(b),
        (Some(a), _) => Some(a),
        (None, b) => b,
    }
}

/// The least digest of the files that a deploy lists and that were not uploaded. Takes no memory.
pub fn least_missing<U: Uploads>(draft: &Draft, uploads: &U) -> Option<Digest>
    ensures { result ≡ least_missing_of (U.contents uploads.now) draft.now.files.1 }
{
    let mut least = None;
    for (_, listed) in draft.files.entries() {
        least = lesser(least, if_lacking(uploads, listed));
    }
    least
}

/// The first place at which a deploy lists a file that was not uploaded; the number of its places if there is none. The search begins at
/// `from`, before which nothing may be missing. Takes no memory.
pub fn first_lacking<U: Uploads>(draft: &Draft, uploads: &U, from: usize) -> usize
    requires { from ≤ first_lacking_of (U.contents uploads.now) draft.now.files.1 }
    ensures first { result ≡ first_lacking_of (U.contents uploads.now) draft.now.files.1 }
    ensures complete { (result ≡ length draft.now.files.1)
        ↔ (least_missing_of (U.contents uploads.now) draft.now.files.1 ≡ None) }
{
    let files = draft.files.entries();
    let mut place = from;
    while place < files.len() && if_lacking(uploads, &files[place].1).is_none() {
        place += 1;
    }
    place
}
