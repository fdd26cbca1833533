//! The base of a log: what changes left, with digests in place of files.
ghost use Rattle.std.specs.Prelude.{◌≡◌, IfOk, OnOk, OnErr, Some, option_copied};
ghost use Rattle.std.specs.FinMap as map;
ghost use Rattle.host_names.specs.Cells.{cell_of};
ghost use Rattle.host_names.specs.declared.cells.Cell.{Cell as Place};
ghost use Rattle.change_log.specs.Items.{IsLawful};
ghost use Rattle.change_log.specs.declared.names.Name.{Name as Kind};

use host_names::{Cell, CellRef, Digest};
use persistent_maps::{Probe, Range, SharedMap, Span};
use site_state::{Draft, PathMap};
use std::alloc::{AllocError, Global};
use std::cmp::Ordering;
use std::marker::Model;

/// What is in a cell, with digests in place of files; the kinds are those of cells.
#[derive(Drop)]
pub enum Name {
    /// The file that is served.
    Live(Digest),
    /// The files of a published deploy.
    Kept(PathMap<Digest>),
    /// The number of the deploy that an alias names.
    Alias(u64),
    /// An open deploy.
    Draft(Draft),
}

impl Clone for Name {
    ghost is_clone = { λ name copy. copy ≡ name };

    fn clone(&self) -> Result<Name, AllocError> {
        match self {
            Name::Live(digest) => Ok(Name::Live(*digest)),
            Name::Kept(files) => Ok(Name::Kept(files.clone()?)),
            Name::Alias(number) => Ok(Name::Alias(*number)),
            Name::Draft(draft) => Ok(Name::Draft(draft.clone()?)),
        }
    }
}

/// What is in each cell of a base. Contracts see a finite map. Each name is of its cell's kind, the number of a deploy is 1 or more, and an open
/// deploy removes files only in a patch, which its type keeps. Copies share the names.
#[derive(Drop)]
pub struct Names {
    cells: SharedMap<Cell, Name>,
}

impl Model for Names {
    ghost use Rattle.std.specs.FinMap as map;
    ghost use Rattle.change_log.specs.Bases as bases;
    ghost use Rattle.change_log.specs.Items.{AreItems};
    ghost use Rattle.host_names.specs.contracts.cells.Cell as cell;
    ghost use Rattle.change_log.specs.contracts.names.Name as name;

    ghost Value = { bases.Names };

    ghost coded = { map.code cell.the_row.coded name.the_row.coded };

    ghost view = { λ n. map.from_sorted n.cells };

    ghost invariant = { λ n. AreItems n.cells };
}

/// A cell that is looked up.
#[derive(Drop)]
struct Sought<'a>(CellRef<'a>);

impl<'a> Probe<Cell> for Sought<'a> {
    ghost use Rattle.host_names.specs.Cells.{cell_of};

    ghost sought = { λ s. cell_of s.0 };

    fn compare(&self, cell: &Cell) -> Ordering {
        cell.as_ref().compare(self.0)
    }
}

/// All cells.
#[derive(Drop)]
struct All;

impl Span<Cell> for All {
    ghost use Rattle.std.specs.Prelude.{true, false};
    ghost use Rattle.change_log.specs.SpanOfAll.{all_together};

    ghost before = { λ s cell. false };

    ghost within = { λ s cell. true };

    ghost together = { λ s. all_together };

    fn is_before(&self, _cell: &Cell) -> bool {
        false
    }

    fn is_within(&self, _cell: &Cell) -> bool {
        true
    }
}

impl Names {
    /// No names, which take no memory.
    pub fn new(alloc: Global) -> Names
        ensures { result ≡ map.empty }
    {
        Names {
            cells: SharedMap::new(alloc),
        }
    }

    /// Puts a name into a cell: one of the cell's kind, and under a number of 1 or more, if the cell has one. On an error nothing changes.
    pub fn put(&mut self, cell: Cell, name: Name) -> Result<(), AllocError>
        requires lawful { IsLawful cell name }
        ensures ok { OnOk result (self.new ≡ map.insert self.old cell name) }
        ensures err { OnErr result (self.new ≡ self.old) }
    {
        self.cells.write(cell, Some(name))
    }

    /// What is in a cell.
    fn find(&self, sought: CellRef<'_>) -> Option<&Name>
        ensures { option_copied result ≡ map.get self.now (cell_of sought.entry) }
    {
        self.cells.find(&Sought(sought))
    }

    /// What is in a cell.
    pub fn get(&self, cell: &Cell) -> Option<&Name>
        ensures { option_copied result ≡ map.get self.now cell.now }
    {
        self.find(cell.as_ref())
    }

    /// All cells, each with its name, in their order. Takes no memory.
    pub fn cells(&self) -> Range<'_, Cell, Name>
        ensures { result ≡ map.entries self.now }
    {
        self.cells.range(&All)
    }

    /// Each name is of its cell's kind, and a deploy's number is 1 or more.
    pub fn are_lawful(&self)
        ensures { (c : Place) (v : Kind) → map.get self.now c ≡ Some v → IsLawful c v }
    {
        let _ = &self.cells;
    }

    /// A copy.
    pub fn copy(&self) -> Result<Names, AllocError>
        ensures { IfOk result (λ copy. copy ≡ self.now) }
    {
        Ok(Names {
            cells: self.cells.copy()?,
        })
    }
}
