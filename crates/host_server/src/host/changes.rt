//! Commands, undos and publishes of a host, and what it then forgets of deploys.
ghost use Rattle.std.specs.Prelude.{◌≡◌, false, IfOk, IsTrue, OnErr, OnOk};
ghost use Rattle.site_change.specs.declared.commands.Command.TheVariants as change;
ghost use Rattle.site_change.specs.declared.entries.Entry.TheVariants as entry;
ghost use Rattle.host_server.specs.Entries.{IsEntered, IsRefusedAs, IsUndoRefusedAs};
ghost use Rattle.host_server.specs.Hosts.{Grows, next_number, with_entry};
ghost use Rattle.host_server.specs.Journals.{Agrees, IsJournaled, IsStopped, is_broken};
ghost use Rattle.host_server.specs.PublishedDeploys.{is_published};
ghost use Rattle.host_server.specs.Outcomes.{Publishes, publishing_if_ready};
ghost use Rattle.host_server.specs.Reasons;
ghost use Rattle.host_server.specs.Reasons.{commit_refusal};

use super::entry_errors::EntryError;
use super::houses::SoloHouse;
use change_journal::Journal;
use host_api::Refusal;
use host_disk::Disk;
use host_names::SiteName;
use site_change::Command;

/// The number of the deploy that a command publishes or cancels, if it is one of these.
fn closed_by(command: &Command) -> Option<u64> {
    match command {
        Command::Publish { number, .. } | Command::Cancel { number, .. } => Some(*number),
        _ => None,
    }
}

impl SoloHouse {
    /// Commits a command as the next entry, and answers its number. The entry is put into the journal first. On an error the host doesn't
    /// get it.
    pub(crate) fn commit<D: Disk>(
        &mut self,
        journal: &mut Option<Journal<D>>,
        command: Command,
    ) -> Result<u64, EntryError>
        requires agrees { Agrees journal.old self.old.entries }
        requires whole { is_broken journal.old ≡ false }
        ensures number { IfOk result (λ number. number ≡ next_number self.old) }
        ensures entries { OnOk result (self.new ≡ with_entry self.old (entry.Change command)) }
        ensures refused { IsRefusedAs (commit_refusal self.old command) result }
        ensures journal { IsEntered D.Disk result (entry.Change command) journal.old journal.new }
        ensures err { OnErr result (self.new ≡ self.old) }
        ensures grows { Grows self.old self.new }
    {
        let closed = closed_by(&command);
        let number = self.enter(journal, command)?;
        self.forget(closed);
        Ok(number)
    }

    /// Undoes a change of this site by the next entry, and answers that entry's number. The entry is put into the journal first. On an
    /// error the host doesn't get it.
    pub(crate) fn undo<D: Disk>(
        &mut self,
        journal: &mut Option<Journal<D>>,
        site: &SiteName,
        change: u64,
    ) -> Result<u64, EntryError>
        requires agrees { Agrees journal.old self.old.entries }
        requires whole { is_broken journal.old ≡ false }
        ensures number { IfOk result (λ number. number ≡ next_number self.old) }
        ensures entries { OnOk result (self.new ≡ with_entry self.old (entry.Undo site.now change)) }
        ensures refused { IsUndoRefusedAs (Reasons.undo_refusal self.old site.now change) result }
        ensures journal { IsEntered D.Disk result (entry.Undo site.now change) journal.old journal.new }
        ensures err { OnErr result (self.new ≡ self.old) }
        ensures grows { Grows self.old self.new }
    {
        let number = self.enter_undo(journal, site, change)?;
        self.forget(Some(change));
        Ok(number)
    }

    /// Publishes a deploy if it is ready, and answers the number of the entry that did. On an error the deploy stays open.
    pub(crate) fn publish_if_ready<D: Disk>(
        &mut self,
        journal: &mut Option<Journal<D>>,
        site: &SiteName,
        number: u64,
    ) -> Result<Option<u64>, Refusal>
        requires agrees { Agrees journal.old self.old.entries }
        requires whole { is_broken journal.old ≡ false }
        ensures done { Publishes result self.new (publishing_if_ready self.old site.now number) }
        ensures stops { IsStopped result → IsTrue (is_published self.old site.now number) }
        ensures journal { IsJournaled D.Disk (entry.Change (change.Publish site.now number)) result self.old journal.old
            self.new journal.new }
        ensures err { OnErr result (self.new ≡ self.old) }
        ensures grows { Grows self.old self.new }
    {
        if !self.is_ready(site, number) {
            return Ok(None);
        }
        let site = site.copied();
        let entry = self.commit(journal, Command::Publish { site, number })?;
        Ok(Some(entry))
    }
}
