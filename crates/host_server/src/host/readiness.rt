//! How far the files of open deploys were uploaded.
ghost use Rattle.std.specs.Prelude.{◌≡◌, ◌≢◌, ◌⊎◌, ◌≤◌, ℕ, None, is_none};
ghost use Rattle.std.specs.BTreeMap as tree;
ghost use Rattle.std.specs.Ordering.{nat_cmp};
ghost use Rattle.site_state.specs.Missing.{first_lacking_of, least_missing_of};
ghost use Rattle.host_server.specs.Readiness.{place_of};

use byte_view::Uploads;
use site_state::{Draft, first_lacking};
use std::alloc::Global;
use std::collections::BTreeMap;

/// For each open deploy, by its number: a place in its listing before which nothing is missing. A check of the deploy starts there, so all
/// its checks together go over its files once. If there is no memory for a place, none is kept, and the deploy is checked from the start.
#[derive(Drop)]
pub(super) struct Readiness {
    places: BTreeMap<u64, usize>,
}

impl Readiness {
    /// No places yet.
    pub(super) fn new(alloc: Global) -> Readiness
        ensures { (n : ℕ) → tree.get nat_cmp result.places n ≡ None }
    {
        Readiness {
            places: BTreeMap::new(alloc),
        }
    }

    /// The place kept for the deploy with this number; the first place if none is kept.
    fn place(&self, number: u64) -> usize
        ensures { result ≡ place_of self.now.places number }
    {
        self.places.get(&number).copied().unwrap_or(0)
    }

    /// Whether everything is uploaded that the draft with this number lists.
    pub(super) fn is_complete<U: Uploads>(
        &mut self,
        uploads: &U,
        number: u64,
        draft: &Draft,
    ) -> bool
        requires { place_of self.old.places number ≤ first_lacking_of (U.contents uploads.now) draft.now.files.1 }
        ensures complete { result ≡ is_none (least_missing_of (U.contents uploads.now) draft.now.files.1) }
        ensures kept { (n : ℕ) → (place_of self.new.places n ≡ place_of self.old.places n)
            ⊎ ((n ≡ number)
            × (place_of self.new.places n ≡ first_lacking_of (U.contents uploads.now) draft.now.files.1)) }
    {
        let place = first_lacking(draft, uploads, self.place(number));
        let _ = self.places.insert(number, place);
        place == draft.files.entries().len()
    }

    /// Drops the place of the deploy with this number.
    pub(super) fn forget(&mut self, number: u64)
        ensures forgotten { place_of self.new.places number ≡ 0 }
        ensures others { (n : ℕ) → n ≢ number → place_of self.new.places n ≡ place_of self.old.places n }
    {
        self.places.remove(&number);
    }
}
