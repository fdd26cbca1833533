//! A finite map from paths, which copies share.
ghost use Rattle.std.specs.Prelude.{◌≡◌, ◌&&◌, IfOk, option_copied};
ghost use Rattle.std.specs.Cmp.{partial_equiv_from_equiv, and_per, on_per, and_equiv, on_equiv};
ghost use Rattle.std.specs.Cmp.Lexicographic.{pointwise, lists_per, lists_equiv, nat_list_eq_equiv};
ghost use Rattle.std.specs.Str.{bytes_eq};
ghost use Rattle.site_state.specs.Files.{IsByPath, at_path};

use host_names::FilePath;
use std::alloc::{AllocError, Global};
use std::marker::Model;
use std::sync::Arc;

/// Something at each of some paths. Contracts see the list of the pairs, by path. Copies share it.
#[derive(Drop)]
pub struct PathMap<T> {
    entries: Arc<Vec<(FilePath, T)>>,
}

impl<T> Model for PathMap<T> {
    ghost use Rattle.site_state.specs.Files.{Paths, IsByPath};

    ghost Value = { Paths T };

    ghost view = { λ m. m.entries.value.items };

    ghost invariant = { λ m. IsByPath m.entries.value.items };
}

impl<T: Drop> PathMap<T> {
    /// A map of these pairs, whose paths strictly rise.
    pub fn from_sorted(alloc: Global, entries: Vec<(FilePath, T)>) -> Result<PathMap<T>, AllocError>
        requires { IsByPath entries.items }
        ensures { IfOk result (λ files. files ≡ entries.items) }
    {
        let entries = Arc::new(alloc, entries)?;
        Ok(PathMap { entries })
    }

    /// The pairs, by path.
    pub fn entries(&self) -> &[(FilePath, T)]
        ensures pairs { result.now ≡ self.now }
        ensures sorted { IsByPath self.now }
    {
        self.entries.as_slice()
    }

    /// What is at a path.
    pub fn get(&self, path: &FilePath) -> Option<&T>
        ensures { option_copied result ≡ at_path self.now path.now }
    {
        let entries = self.entries();
        match entries.binary_search_by(|entry| entry.0.cmp(path)) {
            Ok(place) => Some(&entries[place].1),
            Err(_) => None,
        }
    }
}

impl<T: Drop> Clone for PathMap<T> {
    ghost is_clone = { λ files copy. copy ≡ files };

    fn clone(&self) -> Result<PathMap<T>, AllocError> {
        let entries = Arc::try_clone(&self.entries)?;
        Ok(PathMap { entries })
    }
}

/// By their pairs.
impl<T: PartialEq + Drop> PartialEq for PathMap<T> {
    ghost eq = { pointwise (λ a b. bytes_eq a.0 b.0 && T.eq a.1 b.1) };

    ghost laws = { lists_per (and_per (on_per (λ e. e.0) (partial_equiv_from_equiv nat_list_eq_equiv)) (on_per (λ e. e.1) T.laws)) };

    fn eq(&self, other: &PathMap<T>) -> bool {
        self.entries() == other.entries()
    }
}

impl<T: Eq + Drop> Eq for PathMap<T> {
    ghost laws = { lists_equiv (and_equiv (on_equiv (λ e. e.0) nat_list_eq_equiv) (on_equiv (λ e. e.1) T.Eq.laws)) };
}
