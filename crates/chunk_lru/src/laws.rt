//! Laws of the two caches, each the contract of a function that does nothing.
ghost use Rattle.std.specs.Prelude.{◌≡◌, ◌≤◌, ◌∷◌, [], ℕ, List};
ghost use Rattle.chunk_lru.specs.Caches.{Cache, empty};
ghost use Rattle.chunk_lru.specs.Calls.{Call, after_all};
ghost use Rattle.chunk_lru.specs.Evictions.{EvictsFewest};
ghost use Rattle.chunk_lru.specs.Recent.{HaveOwnNames};
ghost use Rattle.chunk_lru.specs.Rules.{total};

/// If the caches count too much, the fewest chunks are evicted, in the order in which the rule of the victim names them. Otherwise none is.
pub fn the_fewest_chunks_are_evicted()
    ensures { (cache : Cache) → EvictsFewest cache }
{}

/// After any calls the caches have the limit that they were made with, and count no more than that.
pub fn caches_stay_within_their_limit()
    ensures limit { (limit : ℕ) (calls : List Call) → (after_all calls (empty limit)).limit ≡ limit }
    ensures within { (limit : ℕ) (calls : List Call) → total (after_all calls (empty limit)) ≤ limit }
{}

/// If a chunk is there twice, the names aren't distinct.
pub fn wrong_answers_are_refused()
    ensures own_names { (chunk : List ℕ) → ¬ (HaveOwnNames (chunk ∷ chunk ∷ [])) }
{}
