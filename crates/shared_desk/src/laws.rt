//! Laws of turns at a desk's book, each the contract of a function that does nothing.
ghost use Rattle.std.specs.Prelude.{◌≡◌, ◌⊎◌, false, IsTrue, List, ℕ};
ghost use Rattle.byte_view.specs.Contents.{Contents};
ghost use Rattle.change_journal.specs.Texts.{HoldsEntries};
ghost use Rattle.change_undo.specs.Histories.{IsLegal};
ghost use Rattle.change_log.specs.Logs.{Log, with_entries, with_entry};
ghost use Rattle.site_change.specs.Changes.{IsWithin};
ghost use Rattle.site_desk.specs.Books.{Kept};
ghost use Rattle.shared_desk.specs.Stops.{AreTurns, HasAtMostOneMore, IsTurnOf, Stands, Turn, acknowledged};

use host_disk::Disk;

/// Let turns at one book come one after another, over disks that may stop or fail at any of their calls. Then whatever a crash may leave of
/// the one slot and of the other holds the entries that were there, then those that were acknowledged, in order, and then at most the one that was in hand. Over files
/// that have what the book knew, that log is legal. The book itself has just the entries that were acknowledged.
pub fn turns_leave_what_was_acknowledged<D: Disk>()
    ensures stands { (log : Log) (old new : Kept D) (turns : List Turn)
        → Stands D.Disk log old → AreTurns D.Disk old turns new
        → Stands D.Disk (with_entries log (acknowledged turns)) new }
    ensures held { (log : Log) (book : Kept D) → Stands D.Disk log book → IsTrue D.is_modelled
        → (a b : List ℕ) → D.may_leave book.journal.first a → D.may_leave book.journal.second b
        → (held : Log) × HoldsEntries held.entries a b × HasAtMostOneMore log held
        × ((uploads : Contents) → IsWithin book.known uploads → IsLegal uploads held) }
    ensures in_turn { (log : Log) (old new : Kept D) (turn : Turn) → Stands D.Disk log old → old.journal.broken ≡ false
        → IsTurnOf D.Disk turn.entry old turn.answer new → IsTrue D.is_modelled
        → (a b : List ℕ) → D.left_since new.journal.first (D.moment old.journal.first) a
        → D.left_since new.journal.second (D.moment old.journal.second) b
        → (held : Log) × HoldsEntries held.entries a b × ((held ≡ log) ⊎ (held ≡ with_entry log turn.entry))
        × IsLegal old.known held }
{
    change_journal::laws::slots_hold_an_entry_whose_gate_is_open();
}
