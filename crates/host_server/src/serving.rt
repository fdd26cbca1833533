//! A server as a house: its calls, by which requests are answered.
//!
//! What a server answers is a row of these calls (`AnswersBy`). That such a row gives what is said of a request (`IsAnswer`) is proved
//! once, for any row, so `answer` has a body of two lines.
ghost use Rattle.host_answers.specs.Answers.{AnswersBy};
ghost use Rattle.host_answers.proofs.Withheld.{withheld_to_head};
ghost use Rattle.host_server.specs.Growth.{grew, grows_then, itself};
ghost use Rattle.host_server.specs.Hosts.{Grows};
ghost use Rattle.host_server.specs.ServerHouses.{calls_of, failed_at, gave_at};

use crate::servers::Server;
use blob_store::Shelf;
use byte_view::{BlobInfo, Hold};
use change_log::Log;
use change_undo::SiteEntries;
use chunk_reads::{Holder, ReadFault};
use host_answers::{House, Stop, Uploaded, asked_for};
use host_api::{Ask, Items, Refusal};
use host_disk::Disk;
use host_names::{Digest, FilePath, SiteName};
use http_wire::Head;
use site_change::{Command, Entry, uploads_are_digested};
use site_state::{Listing, State, missing};
use std::alloc::{AllocError, Global};
use std::sync::Arc;

impl<S: Shelf, D: Disk> Holder for Server<S, D> {
    ghost gave = { gave_at S.did S.failures };

    ghost failed = { failed_at S.did S.failures };

    fn hold(&mut self, info: Arc<BlobInfo>, first: usize, last: usize) -> Result<Hold, ReadFault> {
        self.files.hold(info, first, last)
    }
}

impl<S: Shelf, D: Disk> House for Server<S, D> {
    ghost calls = { calls_of S.did S.failures };

    ghost answers = { AnswersBy (calls_of S.did S.failures) (gave_at S.did S.failures) (failed_at S.did S.failures) };

    ghost grows = { λ old new. Grows old.house new.house };

    fn asked_for(&self, alloc: Global, head: &Head, body: &[u8]) -> Result<Ask, Refusal> {
        asked_for(alloc, head, body)
    }

    fn look(&mut self) -> Result<(), AllocError> {
        self.house.lawful();
        uploads_are_digested(self.house.uploads());
        Ok(())
    }

    fn state(&self) -> &State {
        self.house.state()
    }

    fn log(&self) -> &Log {
        self.house.log()
    }

    fn marked_entry(&self, number: u64) -> Option<(&Entry, bool)> {
        self.house.marked_entry(number)
    }

    fn entries_of(&self, site: &SiteName) -> SiteEntries<'_> {
        self.house.entries_of(site)
    }

    fn missing(&self, alloc: Global, files: &Listing) -> Result<Items<Digest>, AllocError> {
        Ok(Items::from(missing(alloc, files, self.house.uploads())?))
    }

    fn commit(&mut self, command: Command) -> Result<u64, Stop> {
        if self.is_broken() {
            return Err(Stop::Broken);
        }
        Ok(self.house.commit(&mut self.journal, command)?)
    }

    fn undo(&mut self, site: &SiteName, change: u64) -> Result<u64, Stop> {
        if self.is_broken() {
            return Err(Stop::Broken);
        }
        Ok(self.house.undo(&mut self.journal, site, change)?)
    }

    fn upload(
        &mut self,
        site: &SiteName,
        deploy: u64,
        path: &FilePath,
        bytes: &[u8],
    ) -> Result<Uploaded, Refusal> {
        if self.is_broken() {
            return Err(Refusal::Broken);
        }
        self.store(site, deploy, path, bytes)
    }

    ghost told = { λ old new parts body answer by. by };

    ghost grew = { grew S.did S.failures };

    ghost withheld = { λ old parts body answer new.
        withheld_to_head (calls_of S.did S.failures) (gave_at S.did S.failures) (failed_at S.did S.failures) old parts
        body answer new };

    ghost stays = { λ server. itself server.house };

    ghost goes_on = { λ first mid last. grows_then first.house mid.house last.house };
}
