//! Laws over all steps, each the contract of a function that does nothing.
ghost use Rattle.std.specs.Prelude.{◌≡◌, ℕ, Some};
ghost use Rattle.host_names.specs.declared.names.SiteName.{SiteName as Site};
ghost use Rattle.site_change.specs.declared.refusals.ChangeRefusal.{ChangeRefusal};
ghost use Rattle.change_undo.specs.Histories.{undo_refusal};
ghost use Rattle.world_desk.specs.Desks.{IsLawful};
ghost use Rattle.world_desk.specs.Undoing.{IsFree, IsUndoRefused, LeavesOut};
ghost use Rattle.host_world.specs.Lawful.{AreRight, IsReached, IsSettled, ShareFlights};
ghost use Rattle.host_world.specs.Steps.{Happens};
ghost use Rattle.host_world.specs.Worlds.{WorldState};
ghost use Rattle.host_world.specs.declared.steps.Step.TheVariants as step;

use change_undo::laws::{
    a_beginning_of_a_legal_log_is_legal, an_allowed_undo_leaves_a_legal_history,
    histories_outlast_uploads,
};

/// After every list of steps, however those of the desk, the nodes and the visitors are mixed: the desk's log is legal, and no look goes
/// back; each answer is the reply over the state of the log of its look; and the readers of a node share its flights.
pub fn worlds_stay_lawful()
    ensures lawful { (world : WorldState) → IsReached world → IsLawful world.desk }
    ensures right { (world : WorldState) → IsReached world → AreRight world }
    ensures flights { (world : WorldState) → IsReached world → ShareFlights world }
{
    histories_outlast_uploads();
    a_beginning_of_a_legal_log_is_legal();
}

/// After every list of steps, once all is published: the undo of a change whose effects no later live change touches leaves exactly the
/// state of the history without that change; every other undo is refused with its reason, and changes nothing. Every answered read gives
/// the bytes of the state of one such history, which is no older than what its visitor had seen.
pub fn the_headline()
    ensures undone { (world new : WorldState) (site : Site) (k : ℕ) → IsSettled world
        → IsFree world.desk site k → Happens world (step.Undo site k) new
        → LeavesOut site k world.desk new.desk }
    ensures refused { (world new : WorldState) (site : Site) (k : ℕ) → IsSettled world
        → ¬ (IsFree world.desk site k) → Happens world (step.Undo site k) new
        → IsUndoRefused site k world.desk new.desk × (new ≡ world) }
    ensures reason { (world new : WorldState) (site : Site) (k : ℕ) (reason : ChangeRefusal) → IsSettled world
        → undo_refusal world.desk.uploads world.desk.limit world.desk.log site k ≡ Some reason
        → Happens world (step.Undo site k) new → new ≡ world }
    ensures answered { (world : WorldState) → IsReached world → AreRight world }
    ensures no_older { (world : WorldState) → IsReached world → IsLawful world.desk }
{
    worlds_stay_lawful();
    an_allowed_undo_leaves_a_legal_history();
}
