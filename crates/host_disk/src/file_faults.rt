//! Why a call on a file fails, in words for the operator.
use operator_notices::reason_of;
use std::io;

/// Why a call on the file of a disk failed.
#[derive(Drop)]
pub(crate) enum FileFault {
    /// The system couldn't read it, or tell its length.
    NotRead(io::Error),
    /// The system couldn't write or cut it, or the stretch isn't one that is written.
    NotWritten(io::Error),
    /// The system couldn't sync it.
    NotSynced(io::Error),
    /// Nothing has its name, as far as the system can tell.
    Removed(io::Error),
    /// Another file has its name.
    Replaced,
    /// It isn't as long as the disk's own calls left it.
    Resized,
}

impl FileFault {
    /// What happened.
    pub(crate) fn what(&self) -> &'static str {
        match self {
            FileFault::NotRead(_) => "a read of the journal failed",
            FileFault::NotWritten(_) => "a write of the journal failed",
            FileFault::NotSynced(_) => "a sync of the journal failed",
            FileFault::Removed(_) | FileFault::Replaced => "the journal was removed or replaced",
            FileFault::Resized => "another program made the journal shorter or longer",
        }
    }

    /// Why, if more is known of that.
    pub(crate) fn why(&self) -> &'static str {
        match self {
            FileFault::NotRead(error)
            | FileFault::NotWritten(error)
            | FileFault::NotSynced(error)
            | FileFault::Removed(error) => reason_of(error),
            FileFault::Replaced => "another file has its name",
            FileFault::Resized => "",
        }
    }
}
