//! Keys: numbers of 64 bits under which changes are posted. Each cell has a key. So has each wildcard, which stands for all paths, or all
//! aliases, of a site: a change that touches all of them is posted once. A change that touches all paths below a folder is posted under the
//! folder's key, and under the mark of the site, so that a site without such changes needs no look-up for each folder.
ghost use Rattle.std.specs.Prelude.{◌≡◌, ◌++◌, ◌∷◌, [], List, true, IfOk, OnOk, take, ℕ};
ghost use Rattle.std.specs.Int.{from_be_bytes, w64};
ghost use Rattle.std.specs.List.Sorted.{IsStrictlySortedBy};
ghost use Rattle.std.specs.Ordering.{nat_cmp};
ghost use Rattle.sha1.specs.Sha1.{Holds, sha1};
ghost use Rattle.host_names.specs.declared.cells.Cell.TheVariants as cell;
ghost use Rattle.touch_index.specs.Keys as spec;
ghost use Rattle.touch_index.specs.Postings.{AreSameKeys};

use host_names::{AliasName, Cell, FilePath, SiteName};
use sha1::Sha1;
use site_change::{Touched, TouchedCells};
use site_state::Listing;
use std::alloc::{AllocError, Global};

/// The key that a hash of a text gives: the first eight bytes of a SHA-1 (FIPS 180-4).
fn hashed_key(hasher: Sha1) -> u64
    ensures { (text : List ℕ) → Holds hasher text → result ≡ from_be_bytes w64 (take 8 (sha1 text)) }
{
    let digest = hasher.finalize();
    u64::from_be_bytes([
        digest[0], digest[1], digest[2], digest[3], digest[4], digest[5], digest[6], digest[7],
    ])
}

/// A hash that begins with a site and a kind of keys.
fn hasher_of(site: &SiteName, kind: u8) -> Sha1
    ensures { Holds result (site.now.0 ++ kind ∷ []) }
{
    let mut hasher = Sha1::new();
    hasher.update(site.as_str().as_bytes());
    hasher.update(&[kind]);
    hasher
}

/// The key of a text of a site. Two texts may have the same key, by chance or by someone's work. So whoever finds a number under a key asks the
/// plan of its change whether the change touches the cell.
fn text_key(site: &SiteName, kind: u8, text: &[u8]) -> u64
    ensures { result ≡ spec.text_key site.now kind text.now }
{
    let mut hasher = hasher_of(site, kind);
    hasher.update(text);
    hashed_key(hasher)
}

/// The key of a deploy's number. It is not a hash, so that postings for deploys with near numbers are near each other in the index; and the
/// site is not in it, since numbers count over all sites.
fn number_key(kind: u64, number: u64) -> u64
    ensures { result ≡ spec.number_key kind number }
{
    number.wrapping_mul(8).wrapping_add(kind)
}

/// The key of a path.
fn live_key(site: &SiteName, path: &FilePath) -> u64
    ensures { result ≡ spec.cell_key (cell.Live site.now path.now) }
{
    text_key(site, 0, path.as_str().as_bytes())
}

/// The key of the kept deploy of a number.
fn kept_key(number: u64) -> u64
    ensures { result ≡ spec.number_key 1 number }
{
    number_key(1, number)
}

/// The key of an alias.
fn alias_key(site: &SiteName, name: &AliasName) -> u64
    ensures { result ≡ spec.cell_key (cell.Alias site.now name.now) }
{
    text_key(site, 2, name.as_str().as_bytes())
}

/// The key of the draft of a number.
fn draft_key(number: u64) -> u64
    ensures { result ≡ spec.number_key 3 number }
{
    number_key(3, number)
}

/// The key of a cell.
pub(crate) fn cell_key(cell: &Cell) -> u64
    ensures { result ≡ spec.cell_key cell.now }
{
    match cell {
        Cell::Live(site, path) => live_key(site, path),
        Cell::Kept(_, number) => kept_key(*number),
        Cell::Alias(site, name) => alias_key(site, name),
        Cell::Draft(_, number) => draft_key(*number),
    }
}

/// The key of all paths of a site.
pub(crate) fn all_paths(site: &SiteName) -> u64
    ensures { result ≡ spec.all_paths site.now }
{
    text_key(site, 4, &[])
}

/// The key of all aliases of a site.
pub(crate) fn all_aliases(site: &SiteName) -> u64
    ensures { result ≡ spec.all_aliases site.now }
{
    text_key(site, 5, &[])
}

/// The key of a folder of a site, under which a change is posted that touches all paths below it.
fn folder_key(site: &SiteName, folder: &FilePath) -> u64
    ensures { result ≡ spec.folder_key site.now folder.now }
{
    text_key(site, 6, folder.as_str().as_bytes())
}

/// The mark of a site, under which each such change is posted too.
pub(crate) fn all_folders(site: &SiteName) -> u64
    ensures { result ≡ spec.all_folders site.now }
{
    text_key(site, 7, &[])
}

/// The hash that the key of each folder of a site begins with.
pub(crate) fn folder_hasher(site: &SiteName) -> Sha1
    ensures { Holds result (site.now.0 ++ 6 ∷ []) }
{
    hasher_of(site, 6)
}

/// Takes the next bytes of a path into a hash. Answers the key that it gives then. So the keys of all folders that a path is below take one pass
/// over the path.
pub(crate) fn hashed_on(hasher: &mut Sha1, bytes: &[u8]) -> u64
    ensures hash { (text : List ℕ) → Holds hasher.old text → Holds hasher.new (text ++ bytes.now) }
    ensures key { (text : List ℕ) → Holds hasher.old text → result ≡ from_be_bytes w64 (take 8 (sha1 (text ++ bytes.now))) }
{
    hasher.update(bytes);
    let Ok(copy) = hasher.clone() else {
        unreachable!()
    };
    hashed_key(copy)
}

/// Whether two cells are of one kind and one site, so that the same wildcards cover both, and the same marks.
pub(crate) fn are_alike(one: &Cell, other: &Cell) -> bool
    ensures wildcards { result ≡ true → spec.wildcards one.now ≡ spec.wildcards other.now }
    ensures marks { result ≡ true → spec.folder_marks one.now ≡ spec.folder_marks other.now }
{
    match (one, other) {
        (Cell::Live(site, _), Cell::Live(other, _)) => site == other,
        (Cell::Alias(site, _), Cell::Alias(other, _)) => site == other,
        _ => false,
    }
}

/// Adds the keys of the listed paths of a site.
fn push_listed(keys: &mut Vec<u64>, site: &SiteName, files: &Listing) -> Result<(), AllocError>
    ensures { OnOk result (keys.new.items ≡ keys.old.items ++ spec.listed_keys site.now files.now.1) }
{
    for (path, _) in files.entries() {
        keys.push(live_key(site, path))?;
    }
    Ok(())
}

/// Adds the keys under which a change that touches these cells of a site is posted.
fn push_keys(keys: &mut Vec<u64>, site: &SiteName, cells: &TouchedCells) -> Result<(), AllocError>
    ensures { OnOk result (keys.new.items ≡ keys.old.items ++ spec.posted_keys site.now cells.now) }
{
    match cells {
        TouchedCells::Path(path) => keys.extend_from_slice(&[live_key(site, path)]),
        TouchedCells::Paths(one, other) => {
            keys.extend_from_slice(&[live_key(site, one), live_key(site, other)])
        }
        TouchedCells::Folders(one, other) => keys.extend_from_slice(&[
            all_folders(site),
            folder_key(site, one),
            folder_key(site, other),
        ]),
        TouchedCells::Draft(number) => keys.extend_from_slice(&[draft_key(*number)]),
        TouchedCells::Alias(name) => keys.extend_from_slice(&[alias_key(site, name)]),
        TouchedCells::AliasAndKept(name, number) => {
            keys.extend_from_slice(&[kept_key(*number), alias_key(site, name)])
        }
        TouchedCells::KeptAndAliases(number) => {
            keys.extend_from_slice(&[kept_key(*number), all_aliases(site)])
        }
        TouchedCells::Deploy(number) => {
            keys.extend_from_slice(&[draft_key(*number), kept_key(*number), all_paths(site)])
        }
        TouchedCells::Patch(number, files) => {
            keys.extend_from_slice(&[draft_key(*number)])?;
            push_listed(keys, site, files)
        }
        TouchedCells::PatchAndKept(number, files) => {
            keys.extend_from_slice(&[draft_key(*number), kept_key(*number)])?;
            push_listed(keys, site, files)
        }
    }
}

/// The keys under which a change that touches these cells is posted, each once, in their order.
pub(crate) fn keys_of(alloc: Global, touched: &Touched) -> Result<Vec<u64>, AllocError>
    ensures same { IfOk result (λ keys. AreSameKeys keys.items (spec.touched_keys touched.now)) }
    ensures rising { IfOk result (λ keys. IsStrictlySortedBy nat_cmp keys.items) }
{
    let mut keys = Vec::new(alloc);
    push_keys(&mut keys, &touched.site, &touched.cells)?;
    keys.sort_unstable();
    keys.dedup();
    Ok(keys)
}
