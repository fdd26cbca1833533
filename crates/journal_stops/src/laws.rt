//! Laws of what boots leave, each the contract of a function that does nothing.
ghost use Rattle.std.specs.Prelude.{◌≡◌, List, ℕ, ◌≤◌};
ghost use Rattle.change_journal.specs.Texts.{HoldsEntries};
ghost use Rattle.site_change.specs.declared.entries.Entry.{Entry};
ghost use Rattle.journal_stops.specs.Boots.{HasPuts, LeavesPuts};

use host_disk::Disk;

/// After a boot whatever a crash may leave of the one slot and of the other holds what was found, then all that was acknowledged, in order, and then at most the entry
/// that was in hand. So each entry is there whole, or not at all.
pub fn each_image_has_what_was_acknowledged<D: Disk>()
    ensures { (first second : D) (found puts : List Entry) (count : ℕ)
        → LeavesPuts (D.may_leave first) (D.may_leave second) found puts count → (a b : List ℕ)
        → D.may_leave first a → D.may_leave second b
        → (log : List Entry) × HoldsEntries log a b × HasPuts found puts count log }
{
    change_journal::laws::slots_hold_an_entry_whose_gate_is_open();
}
