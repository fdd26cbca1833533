//! Laws of nodes. Each function does nothing: its contract is the law.
ghost use Rattle.std.specs.Prelude.{◌≡◌, ◌≢◌, ◌<◌, ℕ, List, [], ◌∷◌, Option, None, Result, Some, Ok, Err};
ghost use Rattle.host_names.specs.Digests.{digest_of};
ghost use Rattle.host_names.specs.declared.digests.Digest.{Digest};
ghost use Rattle.chunk_reads.specs.declared.faults.ReadFault.{ReadFault};
ghost use Rattle.chunk_reads.specs.declared.faults.ReadFault.TheVariants.{Device, Missing};
ghost use Rattle.blob_store.specs.declared.shelves.ShelfName.{ShelfName};
ghost use Rattle.chunk_lru.specs.Caches.{empty};
ghost use Rattle.chunk_lru.specs.Rules.{held};
ghost use Rattle.peer_ring.specs.Rings.{Peers};
ghost use Rattle.chunk_group.specs.Cached.{AllCached, HasCached, IsCached};
ghost use Rattle.chunk_group.specs.declared.file_sources.FileSource.{FileSource};
ghost use Rattle.chunk_group.specs.declared.solo_groups.Node.{Node};
ghost use Rattle.chunk_group.specs.declared.solo_groups.SoloGroup.{SoloGroup};
ghost use Rattle.chunk_group.specs.Fills.{Fills};
ghost use Rattle.chunk_group.specs.Holding.{MayNotHold};
ghost use Rattle.chunk_reads.specs.Reading.{AreNotRead};
ghost use Rattle.chunk_group.specs.Loads.{IsGiven, IsGivenFault};
ghost use Rattle.chunk_group.specs.Nodes.{ReadsOf};
ghost use Rattle.chunk_group.specs.Owners.{IsOther, Owns};
ghost use Rattle.chunk_group.specs.Stores.{LoadedOfFiles};

use crate::coins::Coin;
use crate::sources::Source;
use blob_store::Shelf;
use peer_link::PeerLink;
use peer_ring::RingHash;

/// Every shelf has what is in an empty cache, so what is said of shelves that have what is in the cache holds for a new node.
pub fn an_empty_cache_is_on_each_shelf<S: Shelf>()
    ensures { (has : S → ShelfName → Option (List ℕ)) (shelf : S) (limit : ℕ) → HasCached has (record { shelf = shelf; cache = empty limit }) }
{}

/// If a cache has a chunk, a read of its name gives that chunk, and nobody is asked for it. Each of the other relations is refuted for one
/// wrong answer, so none of them holds of everything: a read of no names doesn't fail, and no piece is missing without a fault that a
/// source may give.
pub fn wrong_answers_are_refused<H: RingHash, S: Source, L: PeerLink, C: Coin, T: Shelf>()
    ensures hit { (ring : Peers H) (me : ℕ) (old new : Node S L C) (key : Digest) (chunk other : List ℕ) → held key old.caches.cache ≡ Some chunk
        → Fills S.loaded L.fetched C.drew (Owns H.hashed ring) me old key (Ok other) new → other ≡ chunk }
    ensures unasked { (ring : Peers H) (me : ℕ) (old new : Node S L C) (key : Digest) (chunk : List ℕ) (answer : Result (List ℕ) ReadFault)
        → held key old.caches.cache ≡ Some chunk → Fills S.loaded L.fetched C.drew (Owns H.hashed ring) me old key answer new → new.suppliers ≡ old.suppliers }
    ensures device { (old new : FileSource T) (key : Digest) → IsGivenFault (LoadedOfFiles T.did T.failures) old key Device new
        → T.failures old.files.shelf < T.failures new.files.shelf }
    ensures may_not { (file : List ℕ) (first last : ℕ) → ¬ (MayNotHold (λ key fault. ⊥) file first last Missing) }
    ensures other { (ring : Peers H) (key : Digest) (me : ℕ) → ¬ (IsOther (Owns H.hashed ring key) me me) }
    ensures cached { (limit : ℕ) (chunk : List ℕ) → ¬ (IsCached (empty limit) chunk) }
    ensures all { ¬ (AllCached (λ chunk. ⊥) (record { limit = 100; main = [] ∷ []; hot = [] })) }
    ensures has { (shelf : T) → ¬ (HasCached (λ shelf name. None) (record { shelf = shelf; cache = record { limit = 100; main = [] ∷ []; hot = [] } })) }
    ensures given { (old new : S) (key : Digest) (bytes : List ℕ) → digest_of bytes ≢ key → ¬ (IsGiven S.loaded old key (Ok bytes) new) }
    ensures read { (old new : SoloGroup H S L C) (fault : ReadFault) → ¬ (AreNotRead (ReadsOf S.loaded L.fetched C.drew H.hashed) old [] fault new) }
{}
