//! What a host is at one moment.
ghost use Rattle.std.specs.Prelude.{◌≡◌, IfOk};
ghost use Rattle.site_desk.specs.Snaps.{IsFromUploads};

use change_log::Log;
use change_undo::History;
use seen_lists::Listed;
use site_state::State;
use std::alloc::{AllocError, Global};
use std::marker::Model;
use std::sync::Arc;

/// A history as it is at one moment; it never changes. Contracts see what the history is. It is what its entries give over some uploads, each of which is
/// under its own digest.
#[derive(Drop)]
pub struct HostSnap {
    history: History,
}

impl Model for HostSnap {
    ghost use Rattle.change_undo.specs.Histories.{Past};
    ghost use Rattle.change_undo.specs.contracts.histories.History as histories;
    ghost use Rattle.site_desk.specs.Snaps.{IsFromUploads};

    ghost Value = { Past };

    ghost coded = { histories.the_row.coded };

    ghost view = { λ s. s.history };

    ghost invariant = { λ s. IsFromUploads s.history };
}

impl Listed<Log> for HostSnap {
    ghost item = { λ s. s.entries };
}

impl HostSnap {
    /// What a history is now, ready to be shared.
    pub fn shared(alloc: Global, history: History) -> Result<Arc<HostSnap>, AllocError>
        requires { IsFromUploads history }
        ensures { IfOk result (λ snap. snap.value ≡ history) }
    {
        Ok(Arc::new(alloc, HostSnap { history })?)
    }

    /// The history.
    pub fn history(&self) -> &History
        ensures { result.now ≡ self.now }
    {
        &self.history
    }

    /// The entries.
    pub fn log(&self) -> &Log
        ensures { result.now ≡ self.now.entries }
    {
        self.history.log()
    }

    /// The state: what the changes that no undo names give from the base of the log.
    pub fn state(&self) -> &State
        ensures value { result.now ≡ self.now.state }
        ensures over { IsFromUploads self.now }
    {
        self.history.state()
    }
}
