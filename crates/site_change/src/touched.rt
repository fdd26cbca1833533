//! What a command touches.
ghost use Rattle.std.specs.Prelude.{◌≡◌};
ghost use Rattle.host_names.specs.Cells.{cell_of};
ghost use Rattle.site_change.specs.Changes as changes;
ghost use Rattle.site_change.specs.Changes.{same_cell};
ghost use Rattle.site_change.specs.TouchedCells as spec;
ghost use Rattle.site_change.specs.TouchedCells.{AreTouched, is_among};

use host_names::{AliasName, Cell, CellRef, FilePath, SiteName};
use site_state::{Listing, is_alias_of, is_live_below, is_live_of};

/// The cells that a command reads or writes, all of one site.
#[derive(Drop)]
pub struct Touched {
    /// The site of the command.
    pub site: SiteName,
    /// Which of its cells.
    pub cells: TouchedCells,
}

/// Cells of one site, in one of few shapes, told by the numbers, names and paths that make them up. All paths of a site are such a shape,
/// and all its aliases are, and a patch shares the listing of its draft: so what a command touches is told in constant space.
#[derive(Drop)]
pub enum TouchedCells {
    /// A path.
    Path(FilePath),
    /// Two paths.
    Paths(FilePath, FilePath),
    /// The paths below two folders, whether a file is there or not.
    Folders(FilePath, FilePath),
    /// The draft of a number.
    Draft(u64),
    /// An alias.
    Alias(AliasName),
    /// An alias, and the kept deploy of a number.
    AliasAndKept(AliasName, u64),
    /// The kept deploy of a number, and every alias, whether it is there or not.
    KeptAndAliases(u64),
    /// The draft and the kept deploy of a number, and every path, whether a file is there or not.
    Deploy(u64),
    /// The draft of a number, and the listed paths.
    Patch(u64, Listing),
    /// The draft and the kept deploy of a number, and the listed paths.
    PatchAndKept(u64, Listing),
}

/// Whether a cell is the other.
fn is_cell(cell: &Cell, other: CellRef<'_>) -> bool
    ensures { result ≡ same_cell cell.now (cell_of other.entry) }
{
    cell.as_ref().compare(other).is_eq()
}

/// Whether a cell is one of the listed paths of a site.
fn is_listed(cell: &Cell, site: &SiteName, files: &Listing) -> bool
    ensures { result ≡ changes.is_listed site.now files.now.1 cell.now }
{
    match cell {
        Cell::Live(own, path) => site == own && files.get(path).is_some(),
        Cell::Kept(..) | Cell::Alias(..) | Cell::Draft(..) => false,
    }
}

impl TouchedCells {
    /// Whether a cell is among them, as cells of this site.
    fn contains(&self, site: &SiteName, cell: &Cell) -> bool
        ensures { result ≡ is_among site.now self.now cell.now }
    {
        match self {
            TouchedCells::Path(path) => is_cell(cell, CellRef::Live(site, path)),
            TouchedCells::Paths(one, other) => {
                is_cell(cell, CellRef::Live(site, one)) || is_cell(cell, CellRef::Live(site, other))
            }
            TouchedCells::Folders(one, other) => {
                is_live_below(cell, site, one) || is_live_below(cell, site, other)
            }
            TouchedCells::Draft(number) => is_cell(cell, CellRef::Draft(site, *number)),
            TouchedCells::Alias(name) => is_cell(cell, CellRef::Alias(site, name)),
            TouchedCells::AliasAndKept(name, number) => {
                is_cell(cell, CellRef::Kept(site, *number))
                    || is_cell(cell, CellRef::Alias(site, name))
            }
            TouchedCells::KeptAndAliases(number) => {
                is_cell(cell, CellRef::Kept(site, *number)) || is_alias_of(cell, site)
            }
            TouchedCells::Deploy(number) => {
                is_cell(cell, CellRef::Draft(site, *number))
                    || is_cell(cell, CellRef::Kept(site, *number))
                    || is_live_of(cell, site)
            }
            TouchedCells::Patch(number, files) => {
                is_cell(cell, CellRef::Draft(site, *number)) || is_listed(cell, site, files)
            }
            TouchedCells::PatchAndKept(number, files) => {
                is_cell(cell, CellRef::Draft(site, *number))
                    || is_cell(cell, CellRef::Kept(site, *number))
                    || is_listed(cell, site, files)
            }
        }
    }
}

impl Touched {
    /// These cells of a site.
    pub(crate) fn new(site: &SiteName, cells: TouchedCells) -> Touched
        ensures { AreTouched site.now (is_among site.now cells) result }
    {
        Touched {
            site: site.copied(),
            cells,
        }
    }

    /// Whether a cell is among them.
    pub fn contains(&self, cell: &Cell) -> bool
        ensures { result ≡ spec.is_touched self.now cell.now }
    {
        self.cells.contains(&self.site, cell)
    }
}
