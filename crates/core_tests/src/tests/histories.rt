//! A history that is full.
ghost use Rattle.std.specs.Prelude.{◌≤◌};
ghost use Rattle.site_state.specs.Files.{IsByPath};

use super::fixtures::assert_text;
use blob_store::{Blobs, MemShelf};
use change_undo::{GREATEST_LIMIT, History};
use host_names::{Digest, FilePath, SiteName};
use site_change::{ChangeError, Command, Plan};
use site_state::{Listing, PathMap, State};
use std::alloc::Global;
use std::marker::Model;
use std::process::Abort;
use std::test::Fail;

/// A history, and the uploads that it is committed with.
#[derive(Drop)]
pub(super) struct Host {
    uploads: Blobs<MemShelf>,
    history: History,
}

impl Model for Host {
    ghost use Rattle.std.specs.Coded.{coded_ℕ, coded_list, coded×};
    ghost use Rattle.std.specs.FinMap as map;
    ghost use Rattle.byte_view.specs.Contents.{Contents};
    ghost use Rattle.host_names.specs.Digests.{coded_digest};
    ghost use Rattle.change_undo.specs.contracts.histories.History as histories;
    ghost use Rattle.change_undo.specs.Histories.{Past};
    ghost use Rattle.change_undo.specs.Plans.{IsHistoryOver};

    ghost Value = { Contents × Past };

    ghost coded = { coded× (map.code coded_digest (coded_list coded_ℕ)) histories.the_row.coded };

    ghost view = { λ h. (h.uploads.known, h.history) };

    ghost invariant = { λ h. IsHistoryOver h.uploads.known h.history };
}

impl Host {
    pub(super) fn new(alloc: Global, limit: u64, uploads: Blobs<MemShelf>) -> Host
        requires some { 1 ≤ limit }
        requires bounded { limit ≤ GREATEST_LIMIT }
    {
        Host {
            uploads,
            history: History::new(alloc, limit),
        }
    }

    pub(super) fn commit(&mut self, command: Command) -> Result<u64, ChangeError> {
        self.history.commit(&self.uploads, command)
    }

    pub(super) fn undo(&mut self, site: &SiteName, change: u64) -> Result<u64, ChangeError> {
        self.history.undo(site, change)
    }

    pub(super) fn record(&self, number: u64) -> Option<&Plan> {
        self.history.record(number)
    }

    pub(super) fn state(&self) -> &State {
        self.history.state()
    }
}

pub(super) fn no_entries(alloc: Global) -> Vec<(FilePath, Option<Digest>)>
    ensures { IsByPath result.items }
{
    Vec::new(alloc)
}

/// Opens a deploy without files.
pub(super) fn open(alloc: Global, host: &mut Host) -> Result<u64, Fail> {
    let files = Listing::new(false, PathMap::from_sorted(alloc, no_entries(alloc))?)?;
    let site = SiteName::new("one")?;
    let auto = false;
    Ok(host.commit(Command::Open { site, files, auto })?)
}

fn cancel(host: &mut Host) -> Result<Result<u64, ChangeError>, Fail> {
    let site = SiteName::new("one")?;
    Ok(host.commit(Command::Cancel { site, number: 1 }))
}

/// The number of an entry, or the words of the reason to refuse it.
fn told(alloc: Global, answer: Result<u64, ChangeError>) -> Result<String, Fail> {
    match answer {
        Ok(number) => Ok(format!(in alloc; "{number}")?),
        Err(ChangeError::OutOfMemory) => Err(ChangeError::OutOfMemory.into()),
        Err(error) => Ok(format!(in alloc; "{error}")?),
    }
}

fn assert_told(
    rt: &impl Abort,
    alloc: Global,
    answer: Result<u64, ChangeError>,
    wanted: &str,
) -> Result<(), Fail> {
    assert_text(rt, "an entry", told(alloc, answer)?.as_str(), wanted);
    Ok(())
}

/// Opens a deploy and cancels it, after which a history of two entries takes neither a change nor an undo.
fn assert_full(rt: &impl Abort, alloc: Global, host: &mut Host) -> Result<(), Fail> {
    assert_told(rt, alloc, Ok(open(alloc, host)?), "1")?;
    assert_told(rt, alloc, cancel(host)?, "2")?;
    assert_told(rt, alloc, cancel(host)?, "the history is full")?;
    let one = SiteName::new("one")?;
    for change in 0..4 {
        assert_told(rt, alloc, host.undo(&one, change), "the history is full")?;
    }
    Ok(())
}

#[test]
fn is_full_after_two_changes(rt: HostRuntime) -> Result<(), Fail> {
    let uploads = Blobs::new(rt.alloc(), MemShelf::new(rt.alloc()));
    assert_full(&rt, rt.alloc(), &mut Host::new(rt.alloc(), 2, uploads))
}
