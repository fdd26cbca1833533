//! The clash of a change: what is in the way of leaving it out.
ghost use Rattle.std.specs.Prelude.{◌≡◌, ◌+◌, ◌-◌, ◌≤◌, Some, drop, find, option_copied, option_map};
ghost use Rattle.site_change.specs.TouchedCells.{is_touched};
ghost use Rattle.site_state.specs.Changes.{cells_of};
ghost use Rattle.site_state.specs.States.{State as Cells};
ghost use Rattle.byte_view.specs.Contents.{Contents};
ghost use Rattle.change_undo.specs.Clashes.{clash_in};
ghost use Rattle.change_undo.specs.Kept as spec;
ghost use Rattle.change_undo.specs.Kept.{ArePlanned, plan_of};
ghost use Rattle.change_undo.specs.PlannedEntries.{marked_live};

use crate::records::Records;
use host_names::Cell;
use site_change::{Plan, Touched};
use site_state::Change;

/// The first cell of some changes that is touched.
fn first_touched<'a>(changes: &'a [Change], touched: &Touched) -> Option<&'a Cell>
    ensures { option_copied result ≡ find (is_touched touched.now) (cells_of changes.now) }
{
    'changes: for change in changes {
        if touched.contains(&change.cell) {
            return Some(&change.cell);
        }
    }
    None
}

/// The first cell that a plan changes and a later plan touches. A plan of another site is passed over at once: no cell belongs to two
/// sites.
fn touched_later<'a>(plan: &'a Plan, later: &Plan) -> Option<&'a Cell>
    ensures { option_copied result ≡ spec.first_touched plan.now (Some later.now) }
{
    if later.touched.site != plan.touched.site {
        return None;
    }
    first_touched(plan.changes.as_slice(), &later.touched)
}

impl Records {
    /// The first cell that a plan changes and the change with a later number touches, if that change lives.
    fn touched_by<'a>(&self, number: u64, plan: &'a Plan) -> Option<&'a Cell>
        ensures { option_copied result ≡ spec.first_touched plan.now (plan_of self.now.base self.now.logged number) }
    {
        match self.plan(number) {
            Some(later) => touched_later(plan, later),
            None => None,
        }
    }

    /// The first entry after a change that touches a cell which the change's plan changes, with the first such cell. Each number that the
    /// index gives is tested by its change's plan, since keys may collide.
    fn kept_touch<'a>(&self, change: u64, plan: &'a Plan) -> Option<(u64, &'a Cell)>
        requires some { self.now.base ≤ change }
        ensures { option_map (λ found. (found.0, found.1.now)) result
            ≡ spec.kept_touch plan.now (change + 1) (drop (change - self.now.base) self.now.logged) }
    {
        let changes = plan.changes.as_slice();
        let mut after = change;
        'entries: while let Some(number) = self.index().next(changes, after) {
            if let Some(cell) = self.touched_by(number, plan) {
                return Some((number, cell));
            }
            after = number;
        }
        None
    }

    /// The first later change that lives and touches a cell which this change changed, with the first such cell.
    pub(crate) fn clash(&self, change: u64) -> Option<(u64, &Cell)>
        ensures { (uploads : Contents) (start : Cells) → ArePlanned uploads start (self.now.base + 1) self.now.logged
            → option_map (λ found. (found.0, found.1.now)) result ≡ clash_in uploads change start (marked_live (self.now.base + 1) self.now.logged) }
    {
        match self.plan(change) {
            Some(plan) => self.kept_touch(change, plan),
            None => None,
        }
    }
}
