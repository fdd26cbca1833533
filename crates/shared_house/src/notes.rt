//! What a connection has seen.
ghost use Rattle.std.specs.Prelude.{◌≡◌};

use change_log::Log;
use seen_lists::{Front, ListName};
use site_desk::{DeskName, KnownFiles, SeenFiles};
use std::marker::Model;

/// A front of a desk's log.
pub type LogFront<J> = Front<Log, J>;

/// What a connection saw last: the front of a desk's log, and of the files that are known there. A note takes no memory, and can be made again.
#[derive(Drop)]
pub struct Note<J: DeskName, K: ListName<KnownFiles>> {
    pub(crate) log: LogFront<J>,
    pub(crate) files: SeenFiles<K>,
}

impl<J: DeskName, K: ListName<KnownFiles>> Model for Note<J, K> {
    ghost use Rattle.blob_store.specs.contracts.blob_indexes.BlobIndex as index;
    ghost use Rattle.change_log.specs.contracts.logs.Log as logs;
    ghost use Rattle.shared_house.specs.Seeing.{Known, coded_known};

    ghost Value = { Known };

    ghost coded = { coded_known logs.the_row.coded index.the_row.coded };

    ghost view = { λ n. record { log = n.log; files = n.files } };
}

impl<J: DeskName, K: ListName<KnownFiles>> Note<J, K> {
    /// A copy.
    pub fn again(&self) -> Note<J, K>
        ensures { result ≡ self.now }
    {
        Note {
            log: self.log.again(),
            files: self.files.again(),
        }
    }
}
