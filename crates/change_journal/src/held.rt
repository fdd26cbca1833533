//! What a journal holds, for clauses alone.

use crate::prepared::Prepared;
use change_log::Log;
use std::snapshot::Snapshot;

/// The entries of a journal. A snapshot has no bytes, so nothing of them is kept at run time.
#[derive(Drop)]
pub(crate) enum Held {
    /// The entries found when the journal was opened.
    Found(Snapshot<Log>),
    /// One entry more, which was put.
    Put(Snapshot<Held>, Snapshot<Prepared>),
}
