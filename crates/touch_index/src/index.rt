//! The index of a history: which changes are posted under which keys.
ghost use Rattle.std.specs.Prelude.{◌≡◌, ◌≤◌, ◌&&◌, ◌||◌, [], Bool, false, true, IfOk, IfSome, MatchOption, is_some, length, ℕ};
ghost use Rattle.host_names.specs.Cells.{text_of};
ghost use Rattle.touch_index.specs.Found.{IsFound};
ghost use Rattle.touch_index.specs.Keys as spec_keys;
ghost use Rattle.touch_index.specs.Keys.{has_folder_from, touched_keys};
ghost use Rattle.touch_index.specs.Next.{IsNext};
ghost use Rattle.touch_index.specs.Postings as spec;
ghost use Rattle.touch_index.specs.Postings.{IsPostedAs, SharesFront, is_posted, is_under_folders, is_under_folders_from, is_under_marks, is_under_wildcards, may_touch_any};

use crate::fronts::shared_front;
use crate::keys::{
    all_aliases, all_folders, all_paths, are_alike, cell_key, folder_hasher, hashed_on, keys_of,
};
use crate::numbers::lesser;
use crate::postings::{Above, Posting};
use host_names::{Cell, SiteName};
use persistent_maps::SharedMap;
use site_change::Touched;
use site_state::Change;
use std::alloc::{AllocError, Global};
use std::marker::Model;

/// Which changes are posted under which keys: an inverted index. Contracts see the postings. Copies share what neither has changed.
#[derive(Drop)]
pub struct Index {
    postings: SharedMap<Posting, ()>,
}

impl Model for Index {
    ghost use Rattle.touch_index.specs.Postings.{Postings, Rises};

    ghost Value = { Postings };

    ghost view = { λ i. i.postings };

    ghost invariant = { λ i. Rises i.postings };
}

/// What was found for a cell above a number: the least number under a wildcard that covers it, and that under the mark of its site.
#[derive(Clone, Copy)]
struct Found<'a> {
    cell: &'a Cell,
    wildcard: Option<u64>,
    mark: Option<u64>,
}

/// How many bytes at the front of a cell's path are at the front of the path before too, if there is one of the same site.
fn shared_len(before: Option<Found<'_>>, cell: &Cell) -> usize
    ensures shared { MatchOption before.entry (result ≡ 0) (λ before. SharesFront result before.cell.now cell.now) }
    ensures within { result ≤ length (text_of cell.now) }
{
    match before {
        Some(found) => shared_front(found.cell, cell),
        None => 0,
    }
}

/// The edits that post a number under some keys, or under none of them.
fn edits_of(
    alloc: Global,
    keys: &[u64],
    number: u64,
    posted: Option<()>,
) -> Result<Vec<(Posting, Option<()>)>, AllocError>
    ensures { IfOk result (λ edits. edits.items ≡ spec.edits keys.now number posted) }
{
    let mut edits = Vec::with_capacity(alloc, keys.len())?;
    for key in keys {
        let posting = Posting { key: *key, number };
        edits.push((posting, posted))?;
    }
    Ok(edits)
}

impl Index {
    /// An index without postings, which takes no memory.
    pub fn new(alloc: Global) -> Index
        ensures { result ≡ [] }
    {
        Index {
            postings: SharedMap::new(alloc),
        }
    }

    /// A copy, in which a number is posted under the keys of these cells, or under none of them.
    fn written(
        &self,
        alloc: Global,
        touched: &Touched,
        number: u64,
        posted: Option<()>,
    ) -> Result<Index, AllocError>
        ensures { IfOk result (λ index. IsPostedAs (is_some posted) number (touched_keys touched.now) self.now index) }
    {
        let keys = keys_of(alloc, touched)?;
        let edits = edits_of(alloc, keys.as_slice(), number, posted)?;
        let mut postings = self.postings.copy()?;
        postings.write_all(edits)?;
        Ok(Index { postings })
    }

    /// The index with the change of this number, which touches these cells. The work is that of one `SharedMap::write_all`
    /// with the keys of these cells, on a copy.
    pub fn with(&self, alloc: Global, touched: &Touched, number: u64) -> Result<Index, AllocError>
        ensures { IfOk result (λ index. IsPostedAs true number (touched_keys touched.now) self.now index) }
    {
        self.written(alloc, touched, number, Some(()))
    }

    /// The index without the change of this number, which touched these cells. The work is that of `with`.
    pub fn without(
        &self,
        alloc: Global,
        touched: &Touched,
        number: u64,
    ) -> Result<Index, AllocError>
        ensures { IfOk result (λ index. IsPostedAs false number (touched_keys touched.now) self.now index) }
    {
        self.written(alloc, touched, number, None)
    }

    /// The least number above this one that is posted under a key.
    fn next_under(&self, key: u64, number: u64) -> Option<u64>
        ensures { IsNext (is_posted self.now key) number result }
    {
        match self.postings.range(&Above { key, number }).split_first() {
            Some((posting, _)) => Some(posting.0.number),
            None => None,
        }
    }

    /// The least number above this one that is posted under a wildcard which covers a cell.
    fn next_under_wildcards(&self, cell: &Cell, number: u64) -> Option<u64>
        ensures { IsNext (is_under_wildcards self.now cell.now) number result }
    {
        match cell {
            Cell::Live(site, _) => self.next_under(all_paths(site), number),
            Cell::Alias(site, _) => self.next_under(all_aliases(site), number),
            Cell::Kept(..) | Cell::Draft(..) => None,
        }
    }

    /// The least number above this one that is posted under the mark of a path's site.
    fn next_under_marks(&self, cell: &Cell, number: u64) -> Option<u64>
        ensures { IsNext (is_under_marks self.now cell.now) number result }
    {
        match cell {
            Cell::Live(site, _) => self.next_under(all_folders(site), number),
            Cell::Kept(..) | Cell::Alias(..) | Cell::Draft(..) => None,
        }
    }

    /// What is found for a cell. What was found for the cell before is not looked up again if the two are alike.
    fn found_for<'a>(&self, cell: &'a Cell, number: u64, before: Option<Found<'a>>) -> Found<'a>
        requires { IfSome before (IsFound self.now number) }
        ensures cell { result.cell.now ≡ cell.now }
        ensures found { IsFound self.now number result }
    {
        match before {
            Some(found) if are_alike(found.cell, cell) => Found { cell, ..found },
            _ => Found {
                cell,
                wildcard: self.next_under_wildcards(cell, number),
                mark: self.next_under_marks(cell, number),
            },
        }
    }

    /// Whether a number is posted under a key.
    fn has(&self, key: u64, number: u64) -> bool
        ensures { result ≡ is_posted self.now key number }
    {
        self.postings.find(&Posting { key, number }).is_some()
    }

    /// The least number above this one that is posted under both of two keys. It goes from one number of the one key to the next of the other
    /// one, so that many numbers under one of them alone take no more time than those under the other.
    fn next_under_both(&self, one: u64, other: u64, number: u64) -> Option<u64>
        ensures { IsNext (λ i. is_posted self.now one i && is_posted self.now other i) number result }
    {
        let mut after = number;
        'numbers: while let Some(found) = self.next_under(other, after) {
            if self.has(one, found) {
                return Some(found);
            }
            let next = self.next_under(one, found)?;
            after = next - 1;
        }
        None
    }

    /// The least number above this one that is posted under the mark and under the key of a folder of at least so many bytes that a path of the
    /// site is below.
    fn next_by_folders(
        &self,
        site: &SiteName,
        path: &[u8],
        first: usize,
        number: u64,
    ) -> Option<u64>
        requires { first ≤ length path.now }
        ensures { IsNext (λ i. is_posted self.now (spec_keys.all_folders site.now) i
            && has_folder_from (λ key. is_posted self.now key i) site.now path.now first) number result }
    {
        let mark = all_folders(site);
        let mut hasher = folder_hasher(site);
        let mut hashed = 0;
        let mut least = None;
        for end in first..path.len() {
            if path[end] != b'/' {
                continue;
            }
            let key = hashed_on(&mut hasher, &path[hashed..end]);
            hashed = end;
            least = lesser(least, self.next_under_both(mark, key, number));
        }
        least
    }

    /// The least number above this one of a change that may touch a folder of at least so many bytes which a cell is below.
    fn next_under_folders(&self, cell: &Cell, first: usize, number: u64) -> Option<u64>
        requires { first ≤ length (text_of cell.now) }
        ensures { IsNext (is_under_folders_from self.now cell.now first) number result }
    {
        match cell {
            Cell::Live(site, path) => {
                self.next_by_folders(site, path.as_str().as_bytes(), first, number)
            }
            Cell::Kept(..) | Cell::Alias(..) | Cell::Draft(..) => None,
        }
    }

    /// The lesser of the number that was found so far, and of the least one above this number of a change that may touch a folder which a cell is
    /// below. Folders that the cell before is below too were looked up for it. If no folder of the site was renamed above the number, no folder
    /// is looked up.
    fn lesser_by_folders(
        &self,
        least: Option<u64>,
        found: Found<'_>,
        before: Option<Found<'_>>,
        number: u64,
    ) -> Option<u64>
        requires { IsFound self.now number found }
        ensures { (test : ℕ → Bool) → IfSome before.entry (λ before. (i : ℕ) → is_under_folders self.now before.cell.now i ≡ true → test i ≡ true)
            → IsNext test number least → IsNext (λ i. test i || is_under_folders self.now found.entry.cell.now i) number result }
    {
        if found.mark.is_none() {
            return least;
        }
        let first = shared_len(before, found.cell);
        lesser(least, self.next_under_folders(found.cell, first, number))
    }

    /// The least number above this one of a change that is posted so that it may touch the cell of one of these changes. Takes no memory.
    /// The work is a look-up for each change, and two for each run of changes of the same site and kind; and where a folder of the site was
    /// renamed above the number, one for each folder that a path is below and the path before is not.
    pub fn next(&self, changes: &[Change], number: u64) -> Option<u64>
        ensures { IsNext (may_touch_any self.now changes.now) number result }
    {
        let mut least = None;
        let mut before = None;
        'changes: for change in changes {
            let found = self.found_for(&change.cell, number, before);
            let own = self.next_under(cell_key(&change.cell), number);
            let near = lesser(least, lesser(own, found.wildcard));
            least = self.lesser_by_folders(near, found, before, number);
            before = Some(found);
        }
        least
    }

    /// A copy, which shares all that neither changes later.
    pub fn copy(&self) -> Result<Index, AllocError>
        ensures { IfOk result (λ copy. copy ≡ self.now) }
    {
        Ok(Index {
            postings: self.postings.copy()?,
        })
    }
}
