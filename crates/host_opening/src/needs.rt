//! What is needed of each digest.
ghost use Rattle.std.specs.Prelude.{◌≡◌, OnOk, Some, true};
ghost use Rattle.std.specs.BTreeMap.{get};
ghost use Rattle.host_names.specs.Digests.{digest_cmp};
ghost use Rattle.host_names.specs.declared.digests.Digest.{Digest as Name};
ghost use Rattle.host_opening.specs.Needs.{is_listed, more, need_if, need_in};

use host_names::{Digest, FilePath};
use std::alloc::AllocError;
use std::collections::BTreeMap;

/// Whether a file must be there, by what was needed of it before and by one more need.
fn must_be_there(must: bool, before: Option<bool>) -> bool
    ensures { Some result ≡ more (Some must) before }
{
    match before {
        Some(before) => must || before,
        None => must,
    }
}

/// Adds a need of the listed digest, if one is listed.
fn add_listed(
    needs: &mut BTreeMap<Digest, bool>,
    listed: &Option<Digest>,
    must: bool,
) -> Result<(), AllocError>
    ensures { OnOk result ((q : Name) → get digest_cmp needs.new q ≡ more (need_if (is_listed q listed.now) must) (get digest_cmp needs.old q)) }
{
    match listed {
        Some(digest) => {
            let must = must_be_there(must, needs.get(digest).copied());
            needs.insert(*digest, must)?;
            Ok(())
        }
        None => Ok(()),
    }
}

/// Adds a need of each listed digest.
pub(crate) fn add_files(
    needs: &mut BTreeMap<Digest, bool>,
    files: &[(FilePath, Option<Digest>)],
    must: bool,
) -> Result<(), AllocError>
    ensures { OnOk result ((q : Name) → get digest_cmp needs.new q ≡ more (need_in must files.now q) (get digest_cmp needs.old q)) }
{
    for (_, listed) in files {
        add_listed(needs, listed, must)?;
    }
    Ok(())
}
