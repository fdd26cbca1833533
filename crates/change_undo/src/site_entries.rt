//! Which entries each site has.
ghost use Rattle.std.specs.Prelude.{◌≡◌, ◌<◌, ◌++◌, ◌∷◌, [], true, Some, IfOk, OnOk};
ghost use Rattle.std.specs.Iterator.{YieldsFirst, item_count};
ghost use Rattle.persistent_maps.specs.Edits.{edited};
ghost use Rattle.change_undo.specs.SiteIndexes as spec;
ghost use Rattle.change_undo.specs.SiteIndexes.{LeadsOn, site_cmp};

use host_names::SiteName;
use persistent_lists::SharedList;
use persistent_maps::{Probe, SharedMap};
use std::alloc::{AllocError, Global};
use std::cmp::Ordering;
use std::iter::Iterator;
use std::marker::Model;

/// The numbers of the entries of a site, the newest first. Contracts see the list of those that are left. It takes no memory.
#[derive(Drop)]
pub struct SiteEntries<'a> {
    earlier: &'a SharedList<u64>,
    /// The number after which the log begins.
    base: u64,
    /// The number that comes next; none above the base if none is left.
    next: u64,
}

impl<'a> Model for SiteEntries<'a> {
    ghost use Rattle.std.specs.Prelude.{ℕ, List};
    ghost use Rattle.change_undo.specs.SiteIndexes.{LeadsOn, trail};

    ghost Value = { List ℕ };

    ghost view = { λ e. trail e.base e.earlier.now.items e.next e.next };

    ghost invariant = { λ e. LeadsOn e.base e.earlier.now.items e.next };
}

/// The number to which the entry of this number, above the base, leads; none above the base if it leads to none.
fn number_before(earlier: &SharedList<u64>, base: u64, number: u64) -> u64
    requires { base < number }
    ensures { result ≡ spec.before base earlier.now.items number }
{
    match earlier.get((number - base - 1) as usize) {
        Some(before) => *before,
        None => 0,
    }
}

impl<'a> Iterator for SiteEntries<'a> {
    type Item = u64;

    ghost next_gives = { YieldsFirst (λ numbers. numbers) };

    ghost remaining = { item_count (λ numbers. numbers) };

    fn next(&mut self) -> Option<u64> {
        let number = self.next;
        if number <= self.base {
            return None;
        }
        self.next = number_before(self.earlier, self.base, number);
        Some(number)
    }
}

/// A site that is looked up.
#[derive(Drop)]
struct Sought<'a>(&'a SiteName);

impl<'a> Probe<SiteName> for Sought<'a> {
    ghost sought = { λ s. s.0.now };

    fn compare(&self, site: &SiteName) -> Ordering {
        site.cmp(self.0)
    }
}

/// The entries of each site: an entry leads to the one before it of the same site, and a site to its last entry. So an entry takes eight
/// bytes, and what is kept of it never changes. Copies share it.
#[derive(Drop)]
pub(crate) struct SiteIndex {
    /// Of each entry above the base the number of the one before it of the same site; none above the base if there is none.
    earlier: SharedList<u64>,
    /// Of each site that has entries the number of the last one.
    last: SharedMap<SiteName, u64>,
}

/// What an index gets with the next entry.
#[derive(Drop)]
pub(crate) struct Addition {
    /// The number of the last entry before it of the same site; 0 if there is none.
    before: u64,
    /// Of each site that has entries then the number of the last one.
    last: SharedMap<SiteName, u64>,
}

impl SiteIndex {
    /// The index of no entries, which takes no memory.
    pub(crate) fn new(alloc: Global) -> SiteIndex
        ensures earlier { result.earlier.items ≡ [] }
        ensures last { result.last ≡ [] }
    {
        SiteIndex {
            earlier: SharedList::new(alloc),
            last: SharedMap::new(alloc),
        }
    }

    /// The number of the last entry of a site; 0 if it has none.
    fn last_number(&self, site: &SiteName) -> u64
        ensures { result ≡ spec.last_of self.now.last site.now }
    {
        match self.last.find(&Sought(site)) {
            Some(number) => *number,
            None => 0,
        }
    }

    /// The numbers of the entries of a site, the newest first. The work is a look-up of the site, and one in a list for each number.
    pub(crate) fn entries_of(&self, base: u64, site: &SiteName) -> SiteEntries<'_>
        requires { LeadsOn base self.now.earlier.items (spec.last_of self.now.last site.now) }
        ensures { result ≡ spec.trail base self.now.earlier.items (spec.last_of self.now.last site.now) (spec.last_of self.now.last site.now) }
    {
        SiteEntries {
            earlier: &self.earlier,
            base,
            next: self.last_number(site),
        }
    }

    /// Makes room for the next entry, which is of this site and has this number, and answers what comes with it. All that takes memory is
    /// done here.
    pub(crate) fn prepare(&mut self, site: &SiteName, number: u64) -> Result<Addition, AllocError>
        ensures earlier { self.new.earlier.items ≡ self.old.earlier.items }
        ensures last { self.new.last ≡ self.old.last }
        ensures room { OnOk result (self.new.earlier.has_room ≡ true) }
        ensures before { IfOk result (λ addition. addition.before ≡ spec.last_of self.old.last site.now) }
        ensures added { IfOk result (λ addition. addition.last ≡ edited site_cmp self.old.last site.now (Some number)) }
    {
        let before = self.last_number(site);
        let mut last = self.last.copy()?;
        last.write(site.copied(), Some(number))?;
        self.earlier.reserve()?;
        Ok(Addition { before, last })
    }

    /// Adds the next entry, for which there is room.
    pub(crate) fn add(&mut self, addition: Addition)
        requires { self.old.earlier.has_room ≡ true }
        ensures earlier { self.new.earlier.items ≡ self.old.earlier.items ++ addition.before ∷ [] }
        ensures last { self.new.last ≡ addition.last }
    {
        self.earlier.push_reserved(addition.before);
        self.last = addition.last;
    }

    /// A copy, which shares all but the last entries.
    pub(crate) fn copy(&self) -> Result<SiteIndex, AllocError>
        ensures earlier { IfOk result (λ copy. copy.earlier.items ≡ self.now.earlier.items) }
        ensures last { IfOk result (λ copy. copy.last ≡ self.now.last) }
    {
        Ok(SiteIndex {
            earlier: self.earlier.copy()?,
            last: self.last.copy()?,
        })
    }
}
