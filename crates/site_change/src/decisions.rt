//! Deciding a command: whether it is refused, and if not, what it changes and touches.
ghost use Rattle.std.specs.Prelude.{◌≡◌, IfOk, OnOk, Some, None, nat_lt, length, if◌then◌else◌};
ghost use Rattle.host_names.specs.declared.cells.Cell.TheVariants as cell;
ghost use Rattle.site_state.specs.Changes.{AreOfKindOn};
ghost use Rattle.site_state.specs.Named.{AliasesNamed};
ghost use Rattle.site_state.specs.States.{with_cell};
ghost use Rattle.site_state.specs.declared.changes.Side.TheVariants.{Before, After};
ghost use Rattle.site_state.specs.declared.values.Value.TheVariants as value;
ghost use Rattle.site_change.specs.declared.refusals.ChangeRefusal.TheVariants.{TooManyFiles};
ghost use Rattle.site_change.specs.declared.commands.Command.TheVariants as command_of;
ghost use Rattle.site_change.specs.Changes.{applied, refusal, site_of_command, touches};
ghost use Rattle.site_change.specs.Refusals.{IsRefusedBy};
ghost use Rattle.site_change.specs.Decisions.{IsDecision};
ghost use Rattle.site_change.specs.Plans.{IsDifference};
ghost use Rattle.site_change.specs.TouchedCells.{AreTouched};
ghost use Rattle.site_change.specs.Uploaded.{AreUploaded};

use crate::cell_commands::{
    cancel, move_alias, plan_one, remove, remove_alias, remove_deploy, rename,
};
use crate::commands::Command;
use crate::folders::rename_folder;
use crate::plans::Plan;
use crate::publishing::{publish, restore};
use crate::refusals::{ChangeError, ChangeRefusal};
use crate::touched::TouchedCells;
use byte_view::Uploads;
use host_names::{Cell, SiteName};
use site_state::{Draft, Listing, State, Value};
use std::alloc::{AllocError, Global};

/// The greatest number of paths that a deploy lists.
pub const MOST_FILES: usize = 10_000;

/// An open deploy of these files, as the value of its cell.
fn opened(files: &Listing, auto: bool) -> Result<Value, AllocError>
    ensures { IfOk result (λ v. v ≡ value.Draft (record { auto = auto; files = files.now })) }
{
    let files = files.clone()?;
    Ok(Value::Draft(Draft { auto, files }))
}

/// The first reason to refuse the opening of a deploy of these files, in any state. It takes no memory.
pub fn opening_refusal(files: &Listing) -> Option<ChangeRefusal>
    ensures { result ≡ (if nat_lt 10000 (length files.now.1) then Some TooManyFiles else None) }
{
    if files.entries().len() > MOST_FILES {
        return Some(ChangeRefusal::TooManyFiles);
    }
    None
}

/// What the opening of a deploy changes and touches.
fn open(
    alloc: Global,
    state: &State,
    number: u64,
    site: &SiteName,
    files: &Listing,
    auto: bool,
) -> Result<Plan, ChangeError>
    ensures { IsDecision (if nat_lt 10000 (length files.now.1) then Some TooManyFiles else None)
        site.now (touches (command_of.Open site.now files.now auto) number state.now) state.now
        (with_cell state.now (cell.Draft site.now number)
        (Some (value.Draft (record { auto = auto; files = files.now }))))
        result }
{
    if let Some(reason) = opening_refusal(files) {
        return Err(ChangeError::Refused(reason));
    }
    let cell = Cell::Draft(site.copied(), number);
    let draft = opened(files, auto)?;
    let touched = TouchedCells::Draft(number);
    Ok(plan_one(alloc, state, site, (cell, Some(draft)), touched)?)
}

/// Decides a command by its kind.
fn decision<U: Uploads>(
    alloc: Global,
    state: &State,
    uploads: &U,
    number: u64,
    command: &Command,
) -> Result<Plan, ChangeError>
    requires { AreUploaded (U.contents uploads.now) state.now }
    ensures { IsDecision (refusal command.now number state.now (U.contents uploads.now))
        (site_of_command command.now) (touches command.now number state.now) state.now
        (applied command.now number state.now (U.contents uploads.now))
        result }
{
    match command {
        Command::Open { site, files, auto } => open(alloc, state, number, site, files, *auto),
        Command::Publish { site, number } => publish(alloc, state, uploads, site, *number),
        Command::Cancel { site, number } => cancel(alloc, state, site, *number),
        Command::Remove { site, path } => remove(alloc, state, site, path),
        Command::Rename {
            site,
            source,
            target,
        } => rename(alloc, state, site, source, target),
        Command::RenameFolder {
            site,
            source,
            target,
        } => rename_folder(alloc, state, site, source, target),
        Command::MoveAlias { site, name, number } => {
            move_alias(alloc, state, site, name, *number)
        }
        Command::RemoveAlias { site, name } => remove_alias(alloc, state, site, name),
        Command::Restore { site, number } => restore(alloc, state, uploads, site, *number),
        Command::RemoveDeploy { site, number } => remove_deploy(alloc, state, site, *number),
    }
}

/// Decides a command that would become the entry with this number. Answers what it changes and touches in this state, with these uploads,
/// or why it is refused. Each file that is served or kept has to be among the uploads. Memory can run out only if the command isn't
/// refused.
pub fn decide<U: Uploads>(
    alloc: Global,
    state: &State,
    uploads: &U,
    number: u64,
    command: &Command,
) -> Result<Plan, ChangeError>
    requires known { AreUploaded (U.contents uploads.now) state.now }
    ensures refused { IsRefusedBy (refusal command.now number state.now (U.contents uploads.now)) result }
    ensures accepted { OnOk result (refusal command.now number state.now (U.contents uploads.now) ≡ None) }
    ensures plan { IfOk result (λ plan. IsDifference state.now
        (applied command.now number state.now (U.contents uploads.now)) plan.changes.items) }
    ensures touched { IfOk result (λ plan. AreTouched (site_of_command command.now)
        (touches command.now number state.now) plan.touched) }
    ensures of_kind { IfOk result (λ plan. AreOfKindOn After plan.changes.items) }
    ensures of_kind_before { IfOk result (λ plan. AreOfKindOn Before plan.changes.items) }
    ensures named { OnOk result (AliasesNamed (applied command.now number state.now (U.contents uploads.now))) }
{
    state.aliases_are_named();
    state.values_are_of_kind();
    decision(alloc, state, uploads, number, command)
}
