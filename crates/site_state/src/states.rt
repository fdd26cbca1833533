//! The state: a finite map from cells to values.
ghost use Rattle.std.specs.Prelude.{◌≡◌, ◌⊎◌, true, option_copied, IfOk, IfSome, IsSome, IsTrue, OnOk, OnErr};
ghost use Rattle.std.specs.FinMap as map;
ghost use Rattle.host_names.specs.Cells.{cell_of};
ghost use Rattle.site_state.specs.Changes.{AreOfKindOn, writes};
ghost use Rattle.site_state.specs.Named.{AliasesNamed};

use crate::changes::{Change, Side, are_rising, writes_of, written_in_turn};
use crate::files::File;
use crate::site_cells::{AliasesOf, LiveBelow, LiveOf, Sought, first_alias};
use crate::values::{Draft, Tree, Value};
use host_names::{AliasName, Cell, CellRef, Digest, FilePath, SiteName};
use persistent_maps::{Range, SharedMap};
use std::alloc::{AllocError, Global};
use std::marker::Model;

/// What is in each cell. Contracts see a finite map. Each value is of its cell's kind, and each alias names a kept deploy of its site.
#[derive(Drop)]
pub struct State {
    alloc: Global,
    cells: SharedMap<Cell, Value>,
}

impl Model for State {
    ghost use Rattle.std.specs.FinMap as map;
    ghost use Rattle.site_state.specs.States.{State as Cells};
    ghost use Rattle.site_state.specs.Items.{AreOfState};
    ghost use Rattle.host_names.specs.contracts.cells.Cell as cell;
    ghost use Rattle.site_state.specs.contracts.values.Value as value;

    ghost Value = { Cells };

    ghost coded = { map.code cell.the_row.coded value.the_row.coded };

    ghost view = { λ s. map.from_sorted s.cells };

    ghost invariant = { λ s. AreOfState s.cells };
}

impl State {
    ghost use Rattle.site_state.specs.Aliases.{alias_for};
    ghost use Rattle.site_state.specs.Deploys.{listed_at};
    ghost use Rattle.site_state.specs.States.{live_at, kept_at, alias_at, alias_entries, draft_at, entries_below, live_entries, AreOfKind, is_of_kind, may_stand, with_cell, with_cells};

    /// A state with nothing in it.
    pub fn new(alloc: Global) -> State
        ensures { result ≡ map.empty }
    {
        State {
            alloc,
            cells: SharedMap::new(alloc),
        }
    }

    /// What is in a cell.
    fn find(&self, sought: CellRef<'_>) -> Option<&Value>
        ensures found { option_copied result ≡ map.get self.now (cell_of sought.entry) }
        ensures of_kind { IfSome result (λ value. IsTrue (is_of_kind (cell_of sought.entry) value.now)) }
    {
        self.cells.find(&Sought(sought))
    }

    /// What is in a cell.
    pub fn value(&self, cell: &Cell) -> Option<&Value>
        ensures found { option_copied result ≡ map.get self.now cell.now }
        ensures of_kind { IfSome result (λ value. IsTrue (is_of_kind cell.now value.now)) }
    {
        self.find(cell.as_ref())
    }

    /// The file that is served at a path.
    pub fn file(&self, site: &SiteName, path: &FilePath) -> Option<&File>
        ensures { option_copied result ≡ live_at self.now site.now path.now }
    {
        match self.find(CellRef::Live(site, path)) {
            Some(Value::Live(file)) => Some(file),
            _ => None,
        }
    }

    /// The files that a site serves, each in its cell, by path.
    pub fn live(&self, site: &SiteName) -> Range<'_, Cell, Value>
        ensures { result ≡ live_entries self.now site.now }
    {
        self.cells.range(&LiveOf(site))
    }

    /// The files that a site serves below a folder, each in its cell, by path. They are side by side.
    pub fn below(&self, site: &SiteName, folder: &FilePath) -> Range<'_, Cell, Value>
        ensures { result ≡ entries_below self.now site.now folder.now }
    {
        self.cells.range(&LiveBelow(site, folder))
    }

    /// The files of the deploy that is kept under a number.
    pub fn kept(&self, site: &SiteName, number: u64) -> Option<&Tree>
        ensures { option_copied result ≡ kept_at self.now site.now number }
    {
        match self.find(CellRef::Kept(site, number)) {
            Some(Value::Kept(tree)) => Some(tree),
            _ => None,
        }
    }

    /// The number of the deploy that an alias names.
    pub fn alias(&self, site: &SiteName, name: &AliasName) -> Option<u64>
        ensures { result ≡ alias_at self.now site.now name.now }
    {
        match self.find(CellRef::Alias(site, name)) {
            Some(Value::Alias(number)) => Some(*number),
            _ => None,
        }
    }

    /// The aliases of a site, each in its cell, by name.
    fn aliases(&self, site: &SiteName) -> Range<'_, Cell, Value>
        ensures { result ≡ alias_entries self.now site.now }
    {
        self.cells.range(&AliasesOf(site))
    }

    /// The first alias of a site, by name, that names the deploy with this number. It is looked for among the aliases of the site, which
    /// are side by side.
    pub fn alias_for(&self, site: &SiteName, number: u64) -> Option<&AliasName>
        ensures { option_copied result ≡ alias_for self.now site.now number }
    {
        first_alias(self.aliases(site), number)
    }

    /// The deploy that is open under a number.
    pub fn draft(&self, site: &SiteName, number: u64) -> Option<&Draft>
        ensures { option_copied result ≡ draft_at self.now site.now number }
    {
        match self.find(CellRef::Draft(site, number)) {
            Some(Value::Draft(draft)) => Some(draft),
            _ => None,
        }
    }

    /// The digest that a deploy of a site, open or kept, lists at a path; none if it removes the file there.
    pub fn listed(&self, site: &SiteName, number: u64, path: &FilePath) -> Option<Option<Digest>>
        ensures { result ≡ listed_at (draft_at self.now site.now number) (kept_at self.now site.now number) path.now }
    {
        if let Some(draft) = self.draft(site, number) {
            return Some(draft.files.get(path).copied().flatten());
        }
        let tree = self.kept(site, number)?;
        Some(tree.get(path).map(|file| file.digest()))
    }

    /// Each alias names a deploy of its site that is kept.
    pub fn aliases_are_named(&self)
        ensures { AliasesNamed self.now }
    {
        // The proof knows what the type keeps only where a field is used.
        let _ = &self.cells;
    }

    /// Each cell has a value of the cell's kind, or none.
    pub fn values_are_of_kind(&self)
        ensures { AreOfKind self.now }
    {
        let _ = &self.cells;
    }

    /// Whether this may be written into a cell: it is of the cell's kind, or nothing, and each alias then still names a kept deploy.
    pub fn may_write(&self, cell: &Cell, value: &Option<Value>) -> bool
        ensures of_kind { result ≡ true → IsTrue (may_stand cell.now value.now) }
        ensures named { result ≡ true → AliasesNamed (with_cell self.now cell.now value.now) }
        ensures all { IsTrue (may_stand cell.now value.now) → AliasesNamed (with_cell self.now cell.now value.now) → result ≡ true }
    {
        self.aliases_are_named();
        match (cell, value) {
            (Cell::Live(..), Some(Value::Live(_))) => true,
            (Cell::Live(..), None) => true,
            (Cell::Draft(..), Some(Value::Draft(_))) => true,
            (Cell::Draft(..), None) => true,
            (Cell::Alias(site, _), Some(Value::Alias(number))) => {
                self.kept(site, *number).is_some()
            }
            (Cell::Alias(..), None) => true,
            (Cell::Kept(..), Some(Value::Kept(_))) => true,
            (Cell::Kept(site, number), None) => self.alias_for(site, *number).is_none(),
            _ => false,
        }
    }

    /// Writes into one cell a value of its kind, or nothing. Each alias must still name a kept deploy of its site then, since the type
    /// keeps both; `may_write` tells whether this holds. On an error nothing changes. Clearing an empty cell takes no memory; a removal
    /// may, since a block that a copy shares can't be written in place. Only tests write single cells so far: a command meets these
    /// conditions by its plan, and writes all its cells at once.
    pub fn set_cell(&mut self, cell: Cell, value: Option<Value>) -> Result<(), AllocError>
        requires of_kind { IsTrue (may_stand cell value) }
        requires named { AliasesNamed (with_cell self.old cell value) }
        ensures ok { OnOk result (self.new ≡ with_cell self.old cell value) }
        ensures err { OnErr result (self.new ≡ self.old) }
        ensures memory { OnErr result (IsSome value ⊎ IsSome (map.get self.old cell)) }
    {
        if value.is_none() && self.value(&cell).is_none() {
            return Ok(());
        }
        self.cells.write(cell, value)
    }

    /// Writes into the cell of each change, in their order, what the change has on a side: a value of the cell's kind, or nothing. Either
    /// all are written, or, if memory runs out, none. If the cells strictly rise, the work is that of one `SharedMap::write_all`; in any
    /// other order it is that of a copy, and of a write for each change.
    pub fn set_cells(&mut self, changes: &[Change], side: Side) -> Result<(), AllocError>
        requires of_kind { AreOfKindOn side changes.now }
        requires named { AliasesNamed (with_cells self.old (writes side changes.now)) }
        ensures ok { OnOk result (self.new ≡ with_cells self.old (writes side changes.now)) }
        ensures err { OnErr result (self.new ≡ self.old) }
    {
        if are_rising(changes, side) {
            let all = writes_of(self.alloc, changes, side)?;
            return self.cells.write_all(all);
        }
        self.cells = written_in_turn(&self.cells, changes, side)?;
        Ok(())
    }

    /// A copy. It shares all that neither writes into later. The work is a count for each ten thousand cells or so.
    pub fn copy(&self) -> Result<State, AllocError>
        ensures { IfOk result (λ copy. copy ≡ self.now) }
    {
        Ok(State {
            alloc: self.alloc,
            cells: self.cells.copy()?,
        })
    }
}
