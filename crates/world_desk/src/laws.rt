//! Laws over all steps of a desk, each the contract of a function that does nothing.
ghost use Rattle.std.specs.Prelude.{◌≡◌, ◌↔◌, ℕ, List, None, true};
ghost use Rattle.host_names.specs.declared.names.SiteName.{SiteName as Site};
ghost use Rattle.change_undo.specs.Histories.{undo_refusal};
ghost use Rattle.world_desk.specs.Desks.{DeskState, DeskStep, IsLawful, after_all, happens, is_published, start};
ghost use Rattle.world_desk.specs.Undoing.{IsFree, IsUndoRefused, LeavesOut, UndoesOrRefuses, after_undo};

use change_undo::laws::{an_allowed_undo_leaves_a_legal_history, histories_outlast_uploads};

/// After every list of steps the desk's log is legal, what is shown is a beginning of it that lacks at most one entry, and no visitor's
/// look goes back.
pub fn desks_stay_lawful()
    ensures start { (limit visitors : ℕ) → IsLawful (start limit visitors) }
    ensures step { (desk : DeskState) (step : DeskStep) → IsLawful desk → IsLawful (happens desk step) }
    ensures all { (limit visitors : ℕ) (steps : List DeskStep)
        → IsLawful (after_all steps (start limit visitors)) }
{
    histories_outlast_uploads();
}

/// If all is shown, the undo of a change by its own site, whose effects no later live change touches, leaves exactly the state of the log
/// without that change, if there is room. Every other undo is refused for its first reason, and changes nothing.
///
/// Which undos leave their change out is said twice: by what the change touched and what later ones touch (`IsFree`), in no word of the
/// function that refuses; and by the reason of that function. `free` says that both are one.
pub fn an_undo_leaves_its_change_out()
    ensures undone { (desk : DeskState) (site : Site) (k : ℕ) → IsLawful desk → is_published desk ≡ true
        → IsFree desk site k → LeavesOut site k desk (after_undo desk site k) }
    ensures refused { (desk : DeskState) (site : Site) (k : ℕ) → IsLawful desk → is_published desk ≡ true
        → ¬ (IsFree desk site k) → IsUndoRefused site k desk (after_undo desk site k) }
    ensures free { (desk : DeskState) (site : Site) (k : ℕ) → IsLawful desk
        → (IsFree desk site k ↔ (undo_refusal desk.uploads desk.limit desk.log site k ≡ None)) }
    ensures every { (desk : DeskState) (site : Site) (k : ℕ) → IsLawful desk → UndoesOrRefuses desk site k }
{
    an_allowed_undo_leaves_a_legal_history();
}
