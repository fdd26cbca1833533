//! Which files a store has to be opened with.
ghost use Rattle.std.specs.Prelude.{◌≡◌, ◌<◌, ◌≤◌, IfOk, OnOk, map};
ghost use Rattle.std.specs.BTreeMap.{get};
ghost use Rattle.std.specs.List.Sorted.{IsStrictlySortedBy};
ghost use Rattle.std.specs.Map.{keys_of};
ghost use Rattle.change_log.specs.Logs.{entry_at, last_number};
ghost use Rattle.host_names.specs.Digests.{digest_cmp};
ghost use Rattle.host_names.specs.declared.digests.Digest.{Digest as Name};
ghost use Rattle.host_opening.specs.Needs.{HasNeeds, HasPublished, more, need_at, need_up_to, one_wanted};
ghost use Rattle.host_opening.specs.WantedFiles.{AreWanted};

use crate::needs::add_files;
use crate::places::entry_of;
use crate::published::published;
use blob_store::Wanted;
use change_log::Log;
use host_names::{Cell, Digest};
use site_change::{Command, Entry};
use std::alloc::{AllocError, Global};
use std::collections::{BTreeMap, BTreeSet};

/// Adds the needs of the entry with this number, if it opens a deploy: what the deploy lists.
fn add_entry(
    needs: &mut BTreeMap<Digest, bool>,
    log: &Log,
    published: &BTreeSet<Cell>,
    number: u64,
) -> Result<(), AllocError>
    requires some { log.now.base < number }
    requires within { number ≤ last_number log.now }
    requires published { HasPublished log.now published.now }
    ensures { OnOk result ((q : Name) → get digest_cmp needs.new q ≡ more (need_at log.now number (entry_at log.now number) q) (get digest_cmp needs.old q)) }
{
    match entry_of(log, number) {
        Entry::Change(Command::Open { site, files, .. }) => {
            let must = published.contains(&Cell::Kept(site.copied(), number));
            add_files(needs, files.entries(), must)
        }
        _ => Ok(()),
    }
}

/// What is needed of each digest.
fn needs_of(alloc: Global, log: &Log) -> Result<BTreeMap<Digest, bool>, AllocError>
    ensures { IfOk result (λ needs. HasNeeds (need_up_to log.now (last_number log.now)) needs) }
{
    let published = published(alloc, log)?;
    let mut needs = BTreeMap::new(alloc);
    for place in log.base()..log.len() {
        add_entry(&mut needs, log, &published, place + 1)?;
    }
    Ok(needs)
}

/// Each digest that is needed, with whether its file must be there.
fn listed(alloc: Global, needs: &BTreeMap<Digest, bool>) -> Result<Vec<Wanted>, AllocError>
    ensures wanted { IfOk result (λ wanted. wanted.items ≡ map one_wanted needs.now.entries) }
    ensures rising { IsStrictlySortedBy digest_cmp (keys_of needs.now.entries) }
{
    let mut wanted = Vec::new(alloc);
    for (digest, must) in needs {
        wanted.push(Wanted {
            digest: *digest,
            must: *must,
        })?;
    }
    Ok(wanted)
}

/// The files that a store has to be opened with, for a history of these entries: each digest that an opened deploy lists, once, in the
/// order of digests. A file must be there if an entry publishes or restores such a deploy, whether or not that entry was undone. The work
/// is a look-up for each entry and for each listed path.
pub fn wanted(alloc: Global, log: &Log) -> Result<Vec<Wanted>, AllocError>
    ensures { IfOk result (λ wanted. AreWanted log.now wanted.items) }
{
    let needs = needs_of(alloc, log)?;
    listed(alloc, &needs)
}
