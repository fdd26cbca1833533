//! A house answers requests.
ghost use Rattle.std.specs.Prelude.{◌≡◌, ℕ, List};
ghost use Rattle.shared_house.specs.HouseLaws as laws;
ghost use Rattle.shared_house.specs.Houses.{calls_of, failed_at, gave_at};
ghost use Rattle.shared_house.specs.Desks.{shows};
ghost use Rattle.shared_house.specs.Seeing.{HasAll, by_front};
ghost use Rattle.shared_house.specs.Shared.{IsSharedAnswer};

use crate::desk_access::DeskAccess;
use crate::file_access::FileAccess;
use crate::houses::SharedHouse;
use byte_view::{BlobInfo, Hold};
use change_log::Log;
use change_undo::SiteEntries;
use chunk_reads::{Holder, ReadFault};
use host_answers::{House, Stop, Uploaded, answer};
use host_api::{Ask, Items, Refusal};
use host_connection::{Request, Service};
use host_names::{Digest, FilePath, SiteName};
use host_replies::Reply;
use http_wire::Head;
use seen_lists::ListName;
use site_change::{Command, Entry};
use site_desk::{DeskName, KnownFiles};
use site_state::{Listing, State};
use std::alloc::{AllocError, Global};
use std::sync::Arc;

impl<J: DeskName, K: ListName<KnownFiles>, D: DeskAccess<J, K>, G: FileAccess> Holder
    for SharedHouse<J, K, D, G> {
    ghost gave = { gave_at };

    ghost failed = { failed_at (shows D.did G.fails) };

    fn hold(&mut self, info: Arc<BlobInfo>, first: usize, last: usize) -> Result<Hold, ReadFault> {
        self.files.hold(info, first, last)
    }
}

impl<J: DeskName, K: ListName<KnownFiles>, D: DeskAccess<J, K>, G: FileAccess> House
    for SharedHouse<J, K, D, G> {
    ghost calls = { calls_of (shows D.did G.fails) };

    ghost answers = { λ old parts body answer new.
        IsSharedAnswer (shows D.did G.fails) by_front old.known parts body answer new.known };

    ghost grows = { λ old new. HasAll old.known new.known };

    fn asked_for(&self, alloc: Global, head: &Head, body: &[u8]) -> Result<Ask, Refusal> {
        self.desk.asked_for(alloc, head, body)
    }

    fn look(&mut self) -> Result<(), AllocError> {
        let snap = self.see()?;
        // Its clause says that the state is what the entries give.
        let _ = snap.state();
        self.snap = snap;
        Ok(())
    }

    fn state(&self) -> &State {
        self.snap.state()
    }

    fn log(&self) -> &Log {
        self.snap.log()
    }

    fn marked_entry(&self, number: u64) -> Option<(&Entry, bool)> {
        self.snap.history().marked_entry(number)
    }

    fn entries_of(&self, site: &SiteName) -> SiteEntries<'_> {
        self.snap.history().entries_of(site)
    }

    fn missing(&self, alloc: Global, files: &Listing) -> Result<Items<Digest>, AllocError> {
        self.desk
            .missing(alloc, &mut self.seen_files.again(), files)
    }

    fn commit(&mut self, command: Command) -> Result<u64, Stop> {
        let mut seen = self.visitor.front();
        match self.desk.commit(&mut seen, command) {
            Ok(receipt) => self.take(receipt),
            Err(why) => Err(self.stop(&seen, why)),
        }
    }

    fn undo(&mut self, site: &SiteName, change: u64) -> Result<u64, Stop> {
        let mut seen = self.visitor.front();
        match self.desk.undo(&mut seen, site, change) {
            Ok(receipt) => Ok(self.learn(receipt)),
            Err(why) => Err(self.stop(&seen, why)),
        }
    }

    fn upload(
        &mut self,
        site: &SiteName,
        deploy: u64,
        path: &FilePath,
        bytes: &[u8],
    ) -> Result<Uploaded, Refusal> {
        let mut seen = self.visitor.front();
        let mut known = self.seen_files.again();
        match self
            .desk
            .upload(&mut seen, &mut known, site, deploy, path, bytes)
        {
            Ok(taken) => Ok(Uploaded {
                digest: taken.digest,
                published: self.learn_taken(&seen, &known, taken.published),
            }),
            Err(why) => Err(self.not_taken(&seen, &known, why)),
        }
    }

    ghost told = { laws.told (shows D.did G.fails) };

    ghost grew = { laws.grew (shows D.did G.fails) };

    ghost withheld = { λ old parts body answer new.
        laws.withheld_to_head (shows D.did G.fails) by_front old.known parts body answer new.known };

    ghost stays = { λ house. laws.has_itself house.known };

    ghost goes_on = { λ first mid last. laws.has_all first.known mid.known last.known };
}

/// A house answers the requests of a connection.
impl<J: DeskName, K: ListName<KnownFiles>, D: DeskAccess<J, K>, G: FileAccess> Service
    for SharedHouse<J, K, D, G> {
    ghost answers = { λ old parts body answer new.
        IsSharedAnswer (shows D.did G.fails) by_front old.known parts body answer new.known };

    ghost grows = { λ old new. HasAll old.known new.known };

    ghost postpones = { ⊥ };

    fn answer(&mut self, alloc: Global, request: &Request) -> Option<Reply> {
        let reply = answer(alloc, self, &request.head, request.body.as_slice());
        Some(reply)
    }

    ghost withheld = { λ old parts body answer new.
        laws.withheld_to_head (shows D.did G.fails) by_front old.known parts body answer new.known };

    ghost stays = { λ house. laws.has_itself house.known };

    ghost goes_on = { λ first mid last. laws.has_all first.known mid.known last.known };
}
