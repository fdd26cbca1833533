//! Why a change, or the undo of one, is refused.
use host_names::{AliasName, Cell, Digest};
use std::alloc::AllocError;
use thiserror::Error;

/// Why a change, or the undo of one, is refused.
#[derive(Debug, Drop, PartialEq, Eq, Error)]
pub enum ChangeRefusal {
    /// The history has as many entries as it may have.
    #[error("the history is full")]
    HistoryFull,
    /// The deploy lists more than 10,000 paths.
    #[error("too many files")]
    TooManyFiles,
    /// There is no open deploy of that number.
    #[error("no such draft")]
    NoSuchDraft,
    /// A file of the deploy was not uploaded. If there are several, this is the least of their digests.
    #[error("not complete")]
    NotComplete(Digest),
    /// No deploy with that number is kept, nor open where an open one will do.
    #[error("no such deploy")]
    NoSuchDeploy,
    /// There is no file at that path.
    #[error("no such file")]
    NoSuchFile,
    /// A file is served at the new path.
    #[error("path taken")]
    PathTaken,
    /// The two paths are one.
    #[error("same path")]
    SamePath,
    /// One of the two folders is below the other.
    #[error("nested folder")]
    NestedFolder,
    /// The new path of a file is too long.
    #[error("path too long")]
    PathTooLong,
    /// There is no such alias.
    #[error("no such alias")]
    NoSuchAlias,
    /// An alias names the deploy. If there are several, this is the first by name.
    #[error("the deploy is in use")]
    DeployInUse(AliasName),
    /// There is no entry of that number, or it belongs to another site.
    #[error("no such change")]
    NoSuchChange,
    /// The entry of that number is an undo.
    #[error("not a change")]
    NotAChange,
    /// The change was undone before.
    #[error("undone already")]
    AlreadyUndone,
    /// The first later change that was not undone and reads or writes what this one changed, and the first such cell.
    #[error("change {change} needs it, at {cell}")]
    Clash { change: u64, cell: Cell },
}

/// Why a change, or the undo of one, was not made.
#[derive(Debug, Drop, PartialEq, Eq, Error)]
pub enum ChangeError {
    /// It is refused.
    #[error("{0}")]
    Refused(ChangeRefusal),
    /// There was no memory for it.
    #[error("out of memory")]
    OutOfMemory,
}

impl From<AllocError> for ChangeError {
    ghost use Rattle.std.specs.Prelude.{◌≡◌};
    ghost use Rattle.site_change.specs.declared.refusals.ChangeError.TheVariants.{OutOfMemory};

    ghost from_gives = { λ _ error. error ≡ OutOfMemory };

    fn from(_error: AllocError) -> ChangeError {
        ChangeError::OutOfMemory
    }
}
