//! What a deploy lists.
ghost use Rattle.std.specs.Prelude.{◌≡◌, ◌&&◌, ◌↔◌, IfOk, IsOk, IsTrue, is_some, option_copied};
ghost use Rattle.std.specs.List.{list_all};
ghost use Rattle.std.specs.Cmp.{partial_equiv_from_equiv};
ghost use Rattle.site_state.specs.Files.{IsByPath, at_path};
ghost use Rattle.site_state.specs.Listings;
ghost use Rattle.site_state.specs.Values.{listing_eq};
ghost use Rattle.site_state.specs.SameValues.{listing_eq-equiv};

use crate::paths::PathMap;
use host_names::{Digest, FilePath};
use std::alloc::AllocError;
use std::marker::Model;
use thiserror::Error;

/// A listing that is no patch removes a file.
#[derive(Clone, Copy, Debug, PartialEq, Eq, Error)]
#[error("only a patch removes files")]
pub struct NotAPatch;

/// What a deploy lists: at each of some paths the digest of a file, or, in a patch alone, that the file there is removed. Contracts see
/// whether it is a patch, and the list of the pairs, by path. Copies share the pairs.
///
/// That only a patch removes files is kept by this type. So a command, a draft and a state keep it too, and no call has to ask for it.
#[derive(Drop)]
pub struct Listing {
    is_patch: bool,
    paths: PathMap<Option<Digest>>,
}

impl Model for Listing {
    ghost use Rattle.std.specs.Prelude.{IsTrue};
    ghost use Rattle.site_state.specs.Listings.{Listed, is_lawful};

    ghost Value = { Listed };

    ghost view = { λ l. (l.is_patch, l.paths) };

    ghost invariant = { λ l. IsTrue (is_lawful l.is_patch l.paths) };
}

fn has_file(entry: &(FilePath, Option<Digest>)) -> bool
    ensures { result ≡ is_some entry.now.1 }
{
    entry.1.is_some()
}

fn have_files(entries: &[(FilePath, Option<Digest>)]) -> bool
    ensures { result ≡ list_all (λ f. is_some f.1) entries.now }
{
    entries.iter().all(|entry| has_file(entry))
}

fn is_lawful(is_patch: bool, entries: &[(FilePath, Option<Digest>)]) -> bool
    ensures { result ≡ Listings.is_lawful is_patch entries.now }
{
    is_patch || have_files(entries)
}

impl Listing {
    ghost use Rattle.site_state.specs.Listings.{is_lawful};

    /// A listing of these pairs, unless it removes a file and isn't a patch.
    pub fn new(is_patch: bool, paths: PathMap<Option<Digest>>) -> Result<Listing, NotAPatch>
        ensures lawful { IsOk result ↔ IsTrue (is_lawful is_patch paths) }
        ensures kept { IfOk result (λ listing. listing ≡ (is_patch, paths)) }
    {
        if !is_lawful(is_patch, paths.entries()) {
            return Err(NotAPatch);
        }
        Ok(Listing { is_patch, paths })
    }

    /// Whether it is a patch: publishing it changes its paths, and leaves all others.
    pub fn is_patch(&self) -> bool
        ensures { result ≡ self.now.0 }
    {
        self.is_patch
    }

    /// The pairs, by path.
    pub fn entries(&self) -> &[(FilePath, Option<Digest>)]
        ensures pairs { result.now ≡ self.now.1 }
        ensures sorted { IsByPath self.now.1 }
        ensures lawful { IsTrue (is_lawful self.now.0 self.now.1) }
    {
        self.paths.entries()
    }

    /// What is listed at a path.
    pub fn get(&self, path: &FilePath) -> Option<&Option<Digest>>
        ensures { option_copied result ≡ at_path self.now.1 path.now }
    {
        self.paths.get(path)
    }
}

impl Clone for Listing {
    ghost is_clone = { λ listing copy. copy ≡ listing };

    fn clone(&self) -> Result<Listing, AllocError> {
        Ok(Listing {
            is_patch: self.is_patch,
            paths: self.paths.clone()?,
        })
    }
}

impl PartialEq for Listing {
    ghost eq = { listing_eq };

    ghost laws = { partial_equiv_from_equiv listing_eq-equiv };

    fn eq(&self, other: &Listing) -> bool {
        self.is_patch == other.is_patch && self.paths == other.paths
    }
}

impl Eq for Listing {
    ghost laws = { listing_eq-equiv };
}
