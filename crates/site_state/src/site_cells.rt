//! Where a cell, and the files and the aliases of a site, are among all cells.
ghost use Rattle.std.specs.Prelude.{◌≡◌, find, option_and_then, option_copied};
ghost use Rattle.site_state.specs.AliasRange;
ghost use Rattle.site_state.specs.Aliases.{name_in, stands_for};
ghost use Rattle.site_state.specs.FolderRange;
ghost use Rattle.site_state.specs.LiveRange;
ghost use Rattle.site_state.specs.States;

use crate::values::Value;
use host_names::{AliasName, Cell, CellRef, FilePath, SiteName};
use persistent_maps::{Probe, Range, Span};
use std::cmp::Ordering;

/// Whether a cell comes before all those of a site.
pub fn is_of_site_before(cell: &Cell, site: &SiteName) -> bool
    ensures { result ≡ LiveRange.is_of_site_before cell.now site.now }
{
    cell.as_ref().site().cmp(site).is_lt()
}

/// Whether a cell comes before the aliases of a site.
pub fn is_before_aliases(cell: &Cell, site: &SiteName) -> bool
    ensures { result ≡ AliasRange.is_before_aliases cell.now site.now }
{
    match cell.as_ref().site().cmp(site) {
        Ordering::Less => true,
        Ordering::Equal => matches!(cell, Cell::Live(..) | Cell::Kept(..)),
        Ordering::Greater => false,
    }
}

/// Whether a cell is an alias of a site.
pub fn is_alias_of(cell: &Cell, site: &SiteName) -> bool
    ensures { result ≡ States.is_alias_of site.now cell.now }
{
    match cell {
        Cell::Alias(own, _) => site == own,
        Cell::Live(..) | Cell::Kept(..) | Cell::Draft(..) => false,
    }
}

/// Whether a cell is a path of a site, at which a file may be served.
pub fn is_live_of(cell: &Cell, site: &SiteName) -> bool
    ensures { result ≡ States.is_live_of site.now cell.now }
{
    match cell {
        Cell::Live(own, _) => site == own,
        Cell::Kept(..) | Cell::Alias(..) | Cell::Draft(..) => false,
    }
}

/// Whether a cell is a path of a site below a folder.
pub fn is_live_below(cell: &Cell, site: &SiteName, folder: &FilePath) -> bool
    ensures { result ≡ States.is_live_below site.now folder.now cell.now }
{
    match cell {
        Cell::Live(own, path) => site == own && path.is_below(folder),
        Cell::Kept(..) | Cell::Alias(..) | Cell::Draft(..) => false,
    }
}

/// Whether a cell comes before the paths of a site below a folder.
pub fn is_before_folder(cell: &Cell, site: &SiteName, folder: &FilePath) -> bool
    ensures { result ≡ FolderRange.is_before_folder site.now folder.now cell.now }
{
    match cell.as_ref().site().cmp(site) {
        Ordering::Less => true,
        Ordering::Equal => match cell {
            Cell::Live(_, path) => path.is_before_folder(folder),
            Cell::Kept(..) | Cell::Alias(..) | Cell::Draft(..) => false,
        },
        Ordering::Greater => false,
    }
}

/// A cell that is looked up by its parts.
#[derive(Drop)]
pub struct Sought<'a>(pub CellRef<'a>);

impl<'a> Probe<Cell> for Sought<'a> {
    ghost use Rattle.host_names.specs.Cells.{cell_of};

    ghost sought = { λ s. cell_of s.0 };

    fn compare(&self, cell: &Cell) -> Ordering {
        cell.as_ref().compare(self.0)
    }
}

/// The paths of a site.
#[derive(Drop)]
pub struct LiveOf<'a>(pub &'a SiteName);

impl<'a> Span<Cell> for LiveOf<'a> {
    ghost use Rattle.site_state.specs.SpanOfLive.{live_together};

    ghost before = { λ s cell. LiveRange.is_of_site_before cell s.0.now };

    ghost within = { λ s. States.is_live_of s.0.now };

    ghost together = { λ s. live_together s.0.now };

    fn is_before(&self, cell: &Cell) -> bool {
        is_of_site_before(cell, self.0)
    }

    fn is_within(&self, cell: &Cell) -> bool {
        is_live_of(cell, self.0)
    }
}

/// The paths of a site below a folder.
#[derive(Drop)]
pub struct LiveBelow<'a>(pub &'a SiteName, pub &'a FilePath);

impl<'a> Span<Cell> for LiveBelow<'a> {
    ghost use Rattle.site_state.specs.SpanOfFolder.{below_together};

    ghost before = { λ s. FolderRange.is_before_folder s.0.now s.1.now };

    ghost within = { λ s. States.is_live_below s.0.now s.1.now };

    ghost together = { λ s. below_together s.0.now s.1.now };

    fn is_before(&self, cell: &Cell) -> bool {
        is_before_folder(cell, self.0, self.1)
    }

    fn is_within(&self, cell: &Cell) -> bool {
        is_live_below(cell, self.0, self.1)
    }
}

/// The aliases of a site.
#[derive(Drop)]
pub struct AliasesOf<'a>(pub &'a SiteName);

impl<'a> Span<Cell> for AliasesOf<'a> {
    ghost use Rattle.site_state.specs.SpanOfAliases.{aliases_together};

    ghost before = { λ s cell. AliasRange.is_before_aliases cell s.0.now };

    ghost within = { λ s. States.is_alias_of s.0.now };

    ghost together = { λ s. aliases_together s.0.now };

    fn is_before(&self, cell: &Cell) -> bool {
        is_before_aliases(cell, self.0)
    }

    fn is_within(&self, cell: &Cell) -> bool {
        is_alias_of(cell, self.0)
    }
}

/// The first of these aliases that names the deploy of a number.
pub fn first_alias<'a>(aliases: Range<'a, Cell, Value>, number: u64) -> Option<&'a AliasName>
    ensures { option_copied result
        ≡ option_and_then (λ e. name_in e.0) (find (λ e. stands_for number e.1) aliases.entry) }
{
    let mut left = aliases;
    'aliases: while let Some(((cell, value), rest)) = left.split_first() {
        if matches!(value, Value::Alias(own) if *own == number) {
            return match cell {
                Cell::Alias(_, name) => Some(name),
                Cell::Live(..) | Cell::Kept(..) | Cell::Draft(..) => None,
            };
        }
        left = rest;
    }
    None
}
