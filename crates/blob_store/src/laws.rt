//! Laws of tables and shelves, each the contract of a function that does nothing. A law of a shelf that keeps what is put there as long as
//! it is honest assumes that the shelf is honest at the end.
ghost use Rattle.std.specs.FinMap as map;
ghost use Rattle.std.specs.Prelude.{◌≡◌, Bool, true, IsTrue, ℕ, ◌≤◌, List, [], ◌∷◌, All, None, Option, Some, ⊤, length};
ghost use Rattle.std.specs.List.{Contains};
ghost use Rattle.host_names.specs.Digests.{digest_of};
ghost use Rattle.byte_view.specs.Contents.{Contents, with_file};
ghost use Rattle.host_names.specs.declared.digests.Digest.{Digest};
ghost use Rattle.byte_view.specs.Cuts.{cut};
ghost use Rattle.chunk_reads.specs.declared.faults.ReadFault.TheVariants as read_fault;
ghost use Rattle.blob_store.specs.declared.shelves.ShelfName.{ShelfName};
ghost use Rattle.blob_store.specs.declared.shelves.ShelfName.TheVariants.{Part};
ghost use Rattle.blob_store.specs.Calls.{AreKnownNames, AreOnceEach, Call, Got, Put, PutsFile, things_of};
ghost use Rattle.blob_store.specs.Faults.{HasPutPart, HasPutSome, IsChunkFault};
ghost use Rattle.blob_store.specs.declared.blobs.UploadFault.{UploadFault};
ghost use Rattle.blob_store.specs.declared.blobs.UploadFault.TheVariants as upload_fault;
ghost use Rattle.blob_store.specs.declared.mem_shelf.MemShelf.{MemShelf};
ghost use Rattle.blob_store.specs.Keeping.{Agree, AgreeWithKnown, AlwaysKeeps, HasEach, HasFile, Keeps};
ghost use Rattle.blob_store.specs.declared.openings.OpenFault.{OpenFault};
ghost use Rattle.blob_store.specs.declared.openings.OpenFault.TheVariants as open_fault;
ghost use Rattle.blob_store.specs.declared.openings.Wanted.{Wanted};
ghost use Rattle.blob_store.specs.Openings.{IsOpenFault, IsOpened};
ghost use Rattle.blob_store.specs.Reads.{AreOfNone, IsFileFault, IsFileRead, answers_of};
ghost use Rattle.blob_store.specs.Shelves.{Does, found_in};
ghost use Rattle.blob_store.specs.Folders.{are_true, calls_of, there_after};
ghost use Rattle.blob_store.specs.Tables.{IsTable, Spells, pieces_of, size_of, text_of};

use crate::dir_shelf::DirShelf;
use crate::shelves::Shelf;
use std::rt::Files;

/// The table of a file that isn't too large can be read, and tells the file's size.
pub fn files_have_tables()
    ensures readable { (size : ℕ) (names : List Digest) → size ≤ 16777216 → length names ≡ pieces_of size → All (λ name. length name.0 ≡ 20) names → IsTable (text_of size names) }
    ensures size { (size : ℕ) (names : List Digest) → size ≤ 16777216 → size_of (text_of size names) ≡ size }
{}

/// Assume a shelf that keeps what is put there and that has the known files, and that no two different pieces, nor two different files,
/// share a digest. After an upload the shelf has the uploaded file and each file that it had. After an upload that fails it still has each
/// file that it had.
pub fn uploads_are_kept<S: Shelf>()
    ensures uploaded { (honest : S → Bool) (has : S → ShelfName → Option (List ℕ)) (known : Contents) (old new : S)
        (file : List ℕ) → Keeps S.did honest has → IsTrue (honest new) → Agree (things_of file) (things_of file)
        → AgreeWithKnown known file → HasEach has old known → PutsFile S.did known old file None new
        → HasFile has new file }
    ensures stays { (honest : S → Bool) (has : S → ShelfName → Option (List ℕ)) (known : Contents) (old new : S)
        (file other : List ℕ) → Keeps S.did honest has → IsTrue (honest new) → Agree (things_of file) (things_of other)
        → PutsFile S.did known old other None new → HasFile has old file → HasFile has new file }
    ensures stays_after_fault { (honest : S → Bool) (has : S → ShelfName → Option (List ℕ)) (known : Contents)
        (old new : S) (file other : List ℕ) (fault : UploadFault) → Keeps S.did honest has → IsTrue (honest new)
        → Agree (things_of file) (things_of other) → HasPutSome S.did known old other fault new
        → HasFile has old file → HasFile has new file }
{}

/// If such a shelf has a file, each piece and the whole are read as they are, and neither is found missing or damaged.
pub fn kept_files_are_read<S: Shelf>()
    ensures piece { (honest : S → Bool) (has : S → ShelfName → Option (List ℕ)) (old new : S) (file piece chunk : List ℕ) → Keeps S.did honest has → IsTrue (honest new) → HasFile has old file → Contains (cut file) piece
        → S.did old (Got (Part (digest_of piece)) (Some chunk)) new → chunk ≡ piece }
    ensures piece_there { (honest : S → Bool) (has : S → ShelfName → Option (List ℕ)) (old new : S) (file piece : List ℕ) → Keeps S.did honest has → IsTrue (honest new) → HasFile has old file → Contains (cut file) piece
        → ¬ (IsChunkFault S.did old (digest_of piece) read_fault.Missing new) }
    ensures piece_whole { (honest : S → Bool) (has : S → ShelfName → Option (List ℕ)) (old new : S) (file piece : List ℕ) → Keeps S.did honest has → IsTrue (honest new) → HasFile has old file → Contains (cut file) piece
        → ¬ (IsChunkFault S.did old (digest_of piece) read_fault.Damaged new) }
    ensures file { (honest : S → Bool) (has : S → ShelfName → Option (List ℕ)) (old new : S) (file read : List ℕ) → Keeps S.did honest has → IsTrue (honest new) → HasFile has old file
        → IsFileRead S.did old (digest_of file) read new → read ≡ file }
    ensures file_there { (honest : S → Bool) (has : S → ShelfName → Option (List ℕ)) (old new : S) (file : List ℕ) → Keeps S.did honest has → IsTrue (honest new) → HasFile has old file
        → ¬ (IsFileFault S.did old (digest_of file) read_fault.Missing new) }
    ensures file_whole { (honest : S → Bool) (has : S → ShelfName → Option (List ℕ)) (old new : S) (file : List ℕ) → Keeps S.did honest has → IsTrue (honest new) → HasFile has old file → length file ≤ 16777216
        → ¬ (IsFileFault S.did old (digest_of file) read_fault.Damaged new) }
{}

/// A store that is opened over such a shelf knows each wanted file that the shelf has, and none of these files stops the opening. The shelf
/// has each file that the store knows. An opening, even one that fails, changes nothing on the shelf.
pub fn kept_files_are_known<S: Shelf>()
    ensures known { (honest : S → Bool) (has : S → ShelfName → Option (List ℕ)) (old new : S)
        (wanted : List Wanted) (one : Wanted) (known : Contents) (file : List ℕ) → Keeps S.did honest has
        → IsTrue (honest new) → HasFile has old file → length file ≤ 16777216
        → Contains wanted one → one.digest ≡ digest_of file
        → IsOpened S.did old wanted known new → map.get known (digest_of file) ≡ Some file }
    ensures there { (honest : S → Bool) (has : S → ShelfName → Option (List ℕ)) (old new : S) (wanted : List Wanted) (file : List ℕ) → Keeps S.did honest has → IsTrue (honest new) → HasFile has old file
        → length file ≤ 16777216 → ¬ (IsOpenFault S.did old wanted (open_fault.MissingBlob (digest_of file)) new) }
    ensures whole { (honest : S → Bool) (has : S → ShelfName → Option (List ℕ)) (old new : S) (wanted : List Wanted) (file : List ℕ) → Keeps S.did honest has → IsTrue (honest new) → HasFile has old file
        → length file ≤ 16777216 → ¬ (IsOpenFault S.did old wanted (open_fault.DamagedBlob (digest_of file)) new) }
    ensures on_shelf { (honest : S → Bool) (has : S → ShelfName → Option (List ℕ)) (old new : S) (wanted : List Wanted) (known : Contents) (digest : Digest) (file : List ℕ)
        → Keeps S.did honest has → IsTrue (honest new) → IsOpened S.did old wanted known new → map.get known digest ≡ Some file → HasFile has new file }
    ensures stays { (honest : S → Bool) (has : S → ShelfName → Option (List ℕ)) (old new : S) (wanted : List Wanted) (known : Contents) (name : ShelfName) → Keeps S.did honest has
        → IsTrue (honest new) → IsOpened S.did old wanted known new → has new name ≡ has old name }
    ensures stays_after_fault { (honest : S → Bool) (has : S → ShelfName → Option (List ℕ)) (old new : S) (wanted : List Wanted) (fault : OpenFault) (name : ShelfName)
        → Keeps S.did honest has → IsTrue (honest new) → IsOpenFault S.did old wanted fault new → has new name ≡ has old name }
{}

/// A shelf in memory always keeps what is put there.
pub fn shelves_in_memory_keep()
    ensures always { AlwaysKeeps Does found_in }
    ensures keeps { Keeps Does (λ shelf. true) found_in }
{}

/// A folder keeps what is put there as long as each of its answers is what was put last under the name, or was there at first. That holds
/// of a folder that was asked for nothing yet.
pub fn folders_keep<R: Files>()
    ensures keeps { (first : ShelfName → Option (List ℕ)) (gave : List Call → Bool)
        → Keeps ⟦<DirShelf<'static, R> as Shelf>⟧.did (λ shelf. are_true first gave (calls_of shelf.log)) (λ shelf. there_after first gave (calls_of shelf.log)) }
    ensures begins { (first : ShelfName → Option (List ℕ)) (gave : List Call → Bool) → IsTrue (are_true first gave []) }
{}

/// Each of these relations is refuted for one wrong answer, so none of them holds of everything. `missed`, `twice` and `again` are about
/// the puts of a piece; `agrees` says that `Agree` holds of one file; `keeps`, that a shelf of which nothing is known need not keep what is
/// put there. `told` is about a folder that gives other bytes than were put there.
pub fn wrong_answers_are_refused<S: Shelf>()
    ensures table { ¬ (IsTable []) }
    ensures spells { ¬ (Spells [] 0 []) }
    ensures put_part { (known : Contents) (old new : MemShelf) (file : List ℕ)
        → ¬ (HasPutPart Does known old file upload_fault.Device new) }
    ensures put_some { (known : Contents) (old new : MemShelf) (file : List ℕ)
        → ¬ (HasPutSome Does known old file upload_fault.Device new) }
    ensures missed { (piece : List ℕ) → ¬ (AreOnceEach [] (piece ∷ []) []) }
    ensures twice { (piece : List ℕ) → ¬ (AreOnceEach [] (piece ∷ []) (piece ∷ piece ∷ [])) }
    ensures again { (piece : List ℕ) → ¬ (AreOnceEach (digest_of piece ∷ []) (piece ∷ []) (piece ∷ [])) }
    ensures known { (name : Digest) → ¬ (AreKnownNames map.empty (name ∷ [])) }
    ensures chunk { (old new : MemShelf) (name : Digest) → ¬ (IsChunkFault Does old name read_fault.Device new) }
    ensures file { (old new : MemShelf) (digest : Digest) → ¬ (IsFileFault Does old digest read_fault.Device new) }
    ensures of_none { (file : List ℕ) → length file ≤ 16777216 → ¬ (AreOfNone (digest_of file) (answers_of file)) }
    ensures opened { (old new : S) (file : List ℕ) → ¬ (IsOpened S.did old [] (with_file map.empty file) new) }
    ensures stopped { (old new : S) (fault : OpenFault) → ¬ (IsOpenFault S.did old [] fault new) }
    ensures agree { (name : ShelfName) → ¬ (Agree ((name, []) ∷ []) ((name, 0 ∷ []) ∷ [])) }
    ensures agrees { Agree (things_of []) (things_of []) }
    ensures keeps { (has : S → ShelfName → Option (List ℕ)) (shelf : S) (name : ShelfName) → ¬ (Keeps (λ old call new. ⊤) (λ shelf. true) has) }
    ensures told { (first : ShelfName → Option (List ℕ)) (gave : List Call → Bool) (name : Digest) → ¬ (IsTrue (are_true first gave (Got (Part name) None ∷ Put (Part name) [] ∷ []))) }
{}
