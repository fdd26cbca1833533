//! The entries of a history.
use crate::commands::Command;
use host_names::SiteName;

/// An entry of a history. Entries are numbered from 1, over all sites.
#[derive(Drop)]
pub enum Entry {
    /// An accepted change.
    Change(Command),
    /// The undo of the change of this number, which belongs to this site.
    Undo { site: SiteName, change: u64 },
}

impl Entry {
    ghost use Rattle.std.specs.Prelude.{◌≡◌};
    ghost use Rattle.site_change.specs.Entries.{site_of_entry};

    /// The site that it belongs to.
    pub fn site(&self) -> &SiteName
        ensures { result.now ≡ site_of_entry self.now }
    {
        match self {
            Entry::Change(command) => command.site(),
            Entry::Undo { site, .. } => site,
        }
    }
}
