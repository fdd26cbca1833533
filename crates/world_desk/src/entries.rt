//! Entries that a history is asked for.
ghost use Rattle.std.specs.Prelude.{◌≡◌, OnErr, OnOk};
ghost use Rattle.site_change.specs.declared.entries.Entry.TheVariants as entry;
ghost use Rattle.change_undo.specs.Plans.{IsHistoryOver};
ghost use Rattle.world_desk.specs.Desks.{with_taken};

use blob_store::BlobIndex;
use change_undo::History;
use host_names::SiteName;
use site_change::{ChangeError, Command};
use std::alloc::AllocError;

/// Asks for a command. It becomes the next entry if it isn't refused. If memory runs out, nothing changes.
pub(crate) fn ask_commit(
    history: &mut History,
    uploads: &BlobIndex,
    command: &Command,
) -> Result<(), AllocError>
    requires { IsHistoryOver uploads.now history.old }
    ensures ok { OnOk result (history.new.entries ≡
        with_taken uploads.now history.old.limit history.old.entries (entry.Change command.now)) }
    ensures over { IsHistoryOver uploads.now history.new }
    ensures limit { history.new.limit ≡ history.old.limit }
    ensures err { OnErr result (history.new ≡ history.old) }
{
    let command = command.clone()?;
    match history.commit(uploads, command) {
        Err(ChangeError::OutOfMemory) => Err(AllocError),
        Err(ChangeError::Refused(_)) | Ok(_) => Ok(()),
    }
}

/// Asks for an undo. It becomes the next entry if it isn't refused. If memory runs out, nothing changes.
pub(crate) fn ask_undo(
    history: &mut History,
    uploads: &BlobIndex,
    site: &SiteName,
    change: u64,
) -> Result<(), AllocError>
    requires { IsHistoryOver uploads.now history.old }
    ensures ok { OnOk result (history.new.entries ≡
        with_taken uploads.now history.old.limit history.old.entries (entry.Undo site.now change)) }
    ensures over { IsHistoryOver uploads.now history.new }
    ensures limit { history.new.limit ≡ history.old.limit }
    ensures err { OnErr result (history.new ≡ history.old) }
{
    match history.undo(site, change) {
        Err(ChangeError::OutOfMemory) => Err(AllocError),
        Err(ChangeError::Refused(_)) | Ok(_) => Ok(()),
    }
}
