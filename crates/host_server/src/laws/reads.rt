//! Laws of files that are read through a cache. Each function does nothing: its contract is the law.
ghost use Rattle.std.specs.Prelude.{◌≡◌, ◌⊎◌, ◌<◌, ◌≤◌, Bool, IsTrue, ℕ, List, Option};
ghost use Rattle.std.specs.List.{Contains};
ghost use Rattle.byte_view.specs.Cuts.{cut};
ghost use Rattle.chunk_reads.specs.declared.faults.ReadFault.{ReadFault};
ghost use Rattle.chunk_reads.specs.declared.faults.ReadFault.TheVariants.{Device, OutOfMemory};
ghost use Rattle.blob_store.specs.declared.shelves.ShelfName.{ShelfName};
ghost use Rattle.blob_store.specs.Keeping.{HasFile, Keeps};
ghost use Rattle.range_spec.specs.declared.selection.Choice.{Choice};
ghost use Rattle.range_reply.specs.Sending.{SentFile};
ghost use Rattle.range_reply.specs.Sending.{IsExact, IsNotRead, IsRead};
ghost use Rattle.chunk_reads.specs.Reading.{IsNotHeld};
ghost use Rattle.chunk_group.specs.Cached.{AllCached, CachedShelf, GaveOfNode, HasCached, IsCached, ReadsChunk};

use blob_store::Shelf;

/// A read never lowers the shelf's count of device failures, and reports `Device` only if that count grew.
pub fn cached_reads_count_failures<S: Shelf>()
    ensures read { (old new : CachedShelf S) (file content_type : List ℕ) (plan : Choice) (body : SentFile)
        → IsRead (GaveOfNode S.did S.failures) old file plan content_type body new
        → S.failures old.shelf ≤ S.failures new.shelf }
    ensures fault { (old new : CachedShelf S) (file : List ℕ) (plan : Choice) (fault : ReadFault)
        → IsNotRead (GaveOfNode S.did S.failures) (IsNotHeld (ReadsChunk S.did S.failures)) old file plan fault new
        → S.failures old.shelf ≤ S.failures new.shelf }
    ensures device { (old new : CachedShelf S) (file : List ℕ) (plan : Choice)
        → IsNotRead (GaveOfNode S.did S.failures) (IsNotHeld (ReadsChunk S.did S.failures)) old file plan Device new
        → S.failures old.shelf < S.failures new.shelf }
{}

/// Assume a shelf that keeps what is put there, and that has what is in the cache. A read of a file on that shelf gives the file's own
/// bytes, and never finds the file missing or damaged. A read, even one that fails, changes nothing on the shelf, which still has what is
/// in the cache.
pub fn cached_files_are_sent<S: Shelf>()
    ensures exact { (honest : S → Bool) (has : S → ShelfName → Option (List ℕ)) (old new : CachedShelf S)
        (file content_type : List ℕ) (plan : Choice) (body : SentFile) → Keeps S.did honest has
        → IsTrue (honest new.shelf) → HasFile has old.shelf file → HasCached has old
        → IsRead (GaveOfNode S.did S.failures) old file plan content_type body new
        → IsExact file plan content_type body }
    ensures fault { (honest : S → Bool) (has : S → ShelfName → Option (List ℕ)) (old new : CachedShelf S)
        (file : List ℕ) (plan : Choice) (fault : ReadFault) → Keeps S.did honest has → IsTrue (honest new.shelf)
        → HasFile has old.shelf file → HasCached has old
        → IsNotRead (GaveOfNode S.did S.failures) (IsNotHeld (ReadsChunk S.did S.failures)) old file plan fault new
        → (fault ≡ Device) ⊎ (fault ≡ OutOfMemory) }
    ensures stays { (honest : S → Bool) (has : S → ShelfName → Option (List ℕ)) (old new : CachedShelf S)
        (file content_type : List ℕ) (plan : Choice) (body : SentFile) (name : ShelfName) → Keeps S.did honest has
        → IsTrue (honest new.shelf) → IsRead (GaveOfNode S.did S.failures) old file plan content_type body new
        → has new.shelf name ≡ has old.shelf name }
    ensures stays_after_fault { (honest : S → Bool) (has : S → ShelfName → Option (List ℕ))
        (old new : CachedShelf S) (file : List ℕ) (plan : Choice) (fault : ReadFault) (name : ShelfName)
        → Keeps S.did honest has
        → IsTrue (honest new.shelf)
        → IsNotRead (GaveOfNode S.did S.failures) (IsNotHeld (ReadsChunk S.did S.failures)) old file plan fault new
        → has new.shelf name ≡ has old.shelf name }
    ensures cached { (honest : S → Bool) (has : S → ShelfName → Option (List ℕ)) (old new : CachedShelf S)
        (file content_type : List ℕ) (plan : Choice) (body : SentFile) → Keeps S.did honest has
        → IsTrue (honest new.shelf) → HasFile has old.shelf file → HasCached has old
        → IsRead (GaveOfNode S.did S.failures) old file plan content_type body new → HasCached has new }
    ensures cached_after_fault { (honest : S → Bool) (has : S → ShelfName → Option (List ℕ))
        (old new : CachedShelf S) (file : List ℕ) (plan : Choice) (fault : ReadFault) → Keeps S.did honest has
        → IsTrue (honest new.shelf)
        → HasFile has old.shelf file → HasCached has old
        → IsNotRead (GaveOfNode S.did S.failures) (IsNotHeld (ReadsChunk S.did S.failures)) old file plan fault new
        → HasCached has new }
{}

/// Assume such a shelf, and a file on it. Each chunk in the cache after a read of the file, even one that fails, was there before or is a
/// piece of the file.
pub fn caches_have_pieces_of_files_read<S: Shelf>()
    ensures read { (honest : S → Bool) (has : S → ShelfName → Option (List ℕ)) (old new : CachedShelf S)
        (file content_type : List ℕ) (plan : Choice) (body : SentFile) → Keeps S.did honest has
        → IsTrue (honest new.shelf) → HasFile has old.shelf file → HasCached has old
        → IsRead (GaveOfNode S.did S.failures) old file plan content_type body new
        → AllCached (λ chunk. IsCached old.cache chunk ⊎ Contains (cut file) chunk) new.cache }
    ensures fault { (honest : S → Bool) (has : S → ShelfName → Option (List ℕ)) (old new : CachedShelf S)
        (file : List ℕ) (plan : Choice) (fault : ReadFault) → Keeps S.did honest has → IsTrue (honest new.shelf)
        → HasFile has old.shelf file → HasCached has old
        → IsNotRead (GaveOfNode S.did S.failures) (IsNotHeld (ReadsChunk S.did S.failures)) old file plan fault new
        → AllCached (λ chunk. IsCached old.cache chunk ⊎ Contains (cut file) chunk) new.cache }
{}
