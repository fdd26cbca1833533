//! Cells: the places of a host's state that a change can touch.
use crate::names::{AliasName, SiteName};
use crate::paths::FilePath;
use std::alloc::AllocError;
use std::cmp::Ordering;
use std::fmt;

/// A place of the host's state. Each belongs to one site. Cells are ordered by site, then by kind as listed,
/// then by path, number or name.
#[derive(Debug, Drop)]
pub enum Cell {
    /// The file that is served at a path.
    Live(SiteName, FilePath),
    /// The files of a published deploy, by the deploy's number.
    Kept(SiteName, u64),
    /// The deploy that an alias names.
    Alias(SiteName, AliasName),
    /// An open deploy, by its number.
    Draft(SiteName, u64),
}

/// A cell, by borrowed parts of it: what is compared or looked up needs no copy of a path or a name.
#[derive(Clone, Copy)]
pub enum CellRef<'a> {
    Live(&'a SiteName, &'a FilePath),
    Kept(&'a SiteName, u64),
    Alias(&'a SiteName, &'a AliasName),
    Draft(&'a SiteName, u64),
}

impl<'a> CellRef<'a> {
    ghost use Rattle.std.specs.Prelude.{◌≡◌, true, IfOk, OnErr};
    ghost use Rattle.host_names.specs.Cells.{cell_cmp, cell_of, is_live, site_of, rank_of, text_of, number_of};

    /// The site that it belongs to.
    pub fn site(self) -> &'a SiteName
        ensures { result.now ≡ site_of (cell_of self.entry) }
    {
        match self {
            CellRef::Live(site, _) => site,
            CellRef::Kept(site, _) => site,
            CellRef::Alias(site, _) => site,
            CellRef::Draft(site, _) => site,
        }
    }

    /// The place of its kind among the kinds.
    fn rank(self) -> u8
        ensures { result ≡ rank_of (cell_of self.entry) }
    {
        match self {
            CellRef::Live(..) => 0,
            CellRef::Kept(..) => 1,
            CellRef::Alias(..) => 2,
            CellRef::Draft(..) => 3,
        }
    }

    /// Its path or name, if it has one.
    fn text(self) -> &'a str
        ensures { result.now ≡ text_of (cell_of self.entry) }
    {
        match self {
            CellRef::Live(_, path) => path.as_str(),
            CellRef::Alias(_, name) => name.as_str(),
            CellRef::Kept(..) | CellRef::Draft(..) => "",
        }
    }

    /// Its deploy's number, if it has one.
    fn number(self) -> u64
        ensures { result ≡ number_of (cell_of self.entry) }
    {
        match self {
            CellRef::Kept(_, number) | CellRef::Draft(_, number) => number,
            CellRef::Live(..) | CellRef::Alias(..) => 0,
        }
    }

    /// In the order of cells: by site, then by kind as listed, then by path, number or name. Paths and names are compared only within a site
    /// and a kind.
    pub fn compare(self, other: CellRef<'_>) -> Ordering
        ensures { result ≡ cell_cmp (cell_of self.entry) (cell_of other.entry) }
    {
        let sites = self.site().cmp(other.site());
        if sites.is_ne() {
            return sites;
        }
        let kinds = self.rank().cmp(&other.rank());
        if kinds.is_ne() {
            return kinds;
        }
        self.text()
            .cmp(other.text())
            .then(self.number().cmp(&other.number()))
    }

    /// The cell, with copies of its parts. Only a path takes memory, whose text copies share.
    pub fn to_cell(self) -> Result<Cell, AllocError>
        ensures copy { IfOk result (λ cell. cell ≡ cell_of self.entry) }
        ensures memory { OnErr result (is_live (cell_of self.entry) ≡ true) }
    {
        match self {
            CellRef::Live(site, path) => Ok(Cell::Live(site.copied(), path.clone()?)),
            CellRef::Kept(site, number) => Ok(Cell::Kept(site.copied(), number)),
            CellRef::Alias(site, name) => Ok(Cell::Alias(site.copied(), name.copied())),
            CellRef::Draft(site, number) => Ok(Cell::Draft(site.copied(), number)),
        }
    }
}

impl Cell {
    ghost use Rattle.std.specs.Prelude.{◌≡◌};
    ghost use Rattle.host_names.specs.Cells.{cell_of};

    /// The same cell, by borrowed parts.
    pub fn as_ref(&self) -> CellRef<'_>
        ensures { cell_of result ≡ self.now }
    {
        match self {
            Cell::Live(site, path) => CellRef::Live(site, path),
            Cell::Kept(site, number) => CellRef::Kept(site, *number),
            Cell::Alias(site, name) => CellRef::Alias(site, name),
            Cell::Draft(site, number) => CellRef::Draft(site, *number),
        }
    }
}

/// A copy takes memory only of a path, whose text copies share.
impl Clone for Cell {
    ghost use Rattle.std.specs.Prelude.{◌≡◌, false};
    ghost use Rattle.host_names.specs.Cells.{is_live};

    ghost is_clone = { λ cell copy. copy ≡ cell };

    ghost is_infallible = { λ cell. is_live cell ≡ false };

    fn clone(&self) -> Result<Cell, AllocError> {
        self.as_ref().to_cell()
    }
}

impl PartialEq for Cell {
    ghost use Rattle.std.specs.Ordering.{eq_by_cmp};
    ghost use Rattle.std.specs.Cmp.{partial_equiv_from_equiv};
    ghost use Rattle.std.proofs.lemmas.Cmp.{eq_by_cmp_equiv};
    ghost use Rattle.host_names.specs.Cells.{cell_cmp};
    ghost use Rattle.host_names.specs.CellOrder.{cell_cmp_total};

    ghost eq = { eq_by_cmp cell_cmp };

    ghost laws = { partial_equiv_from_equiv (eq_by_cmp_equiv cell_cmp_total) };

    fn eq(&self, other: &Cell) -> bool {
        self.cmp(other).is_eq()
    }
}

impl Eq for Cell {
    ghost use Rattle.std.proofs.lemmas.Cmp.{eq_by_cmp_equiv};
    ghost use Rattle.host_names.specs.CellOrder.{cell_cmp_total};

    ghost laws = { eq_by_cmp_equiv cell_cmp_total };
}

impl PartialOrd for Cell {
    ghost use Rattle.std.specs.Cmp.{partial_order_from_total};
    ghost use Rattle.std.specs.Ordering.{as_partial_cmp};
    ghost use Rattle.host_names.specs.Cells.{cell_cmp};
    ghost use Rattle.host_names.specs.CellOrder.{cell_cmp_total};

    ghost partial_cmp = { as_partial_cmp cell_cmp };

    ghost laws = { partial_order_from_total cell_cmp_total };

    fn partial_cmp(&self, other: &Cell) -> Option<Ordering> {
        Some(self.cmp(other))
    }
}

impl Ord for Cell {
    ghost use Rattle.std.specs.Prelude.{refl};
    ghost use Rattle.host_names.specs.Cells.{cell_cmp};
    ghost use Rattle.host_names.specs.CellOrder.{cell_cmp_total};

    ghost cmp = { cell_cmp };

    ghost total = { cell_cmp_total };

    ghost matches_partial_cmp = { λ a b. refl };

    ghost matches_eq = { λ a b. refl };

    fn cmp(&self, other: &Cell) -> Ordering {
        self.as_ref().compare(other.as_ref())
    }
}

impl fmt::Display for Cell {
    ghost use Rattle.std.specs.Prelude.{Some};
    ghost use Rattle.host_names.specs.Cells.{cell_text};

    ghost output = { λ cell. Some (cell_text cell) };

    fn fmt<W: fmt::Write>(&self, f: &mut fmt::Formatter<W>) -> fmt::Result {
        match self {
            Cell::Live(_, path) => write!(f, "live {path}"),
            Cell::Kept(_, number) => write!(f, "kept {number}"),
            Cell::Alias(_, name) => write!(f, "alias {name}"),
            Cell::Draft(_, number) => write!(f, "draft {number}"),
        }
    }
}
