//! A law of servers whose shelf keeps what is put there. The function does nothing: its contract is the law.
ghost use Rattle.std.specs.Prelude.{◌≡◌, ◌≢◌, Bool, IsTrue, ℕ, List, Option, Ok};
ghost use Rattle.std.specs.FinMap as map;
ghost use Rattle.host_names.specs.declared.names.SiteName.{SiteName as Site};
ghost use Rattle.blob_store.specs.Keeping.{Keeps};
ghost use Rattle.blob_store.specs.declared.shelves.ShelfName.{ShelfName};
ghost use Rattle.chunk_lru.specs.Caches.{empty};
ghost use Rattle.http_wire.specs.Requests.{RequestParts};
ghost use Rattle.host_api.specs.declared.bodies.Ask.TheVariants.{Read};
ghost use Rattle.host_api.specs.declared.refusals.Refusal.TheVariants as reason;
ghost use Rattle.host_api.specs.declared.versions.Version.{Version};
ghost use Rattle.host_answers.specs.Asking.{asked_for};
ghost use Rattle.host_server.specs.Asks.{IsAnswer};
ghost use Rattle.host_server.specs.Hosts.{state_of};
ghost use Rattle.host_server.specs.ReadBack.{Agreeing, HasKnown, IsReadBack, ReadsBack, UploadAgrees};
ghost use Rattle.host_server.specs.Openings.{IsOpened};
ghost use Rattle.host_replies.specs.Replies.{Answer, refused_answer};
ghost use Rattle.host_connection.specs.Serving.{AreServed, Stream};
ghost use Rattle.host_replies.specs.Versions.{file_of};
ghost use Rattle.host_server.specs.declared.servers.Server.{Server};

use blob_store::Shelf;
use host_disk::Disk;

/// Assume a shelf that keeps what is put there as long as it is honest, and that is honest at the end. Assume also that no upload shares
/// the digest of a piece, or of the whole, with other bytes of it or of a known file. Then the shelf has each known file, and the cache has
/// chunks of such files alone: in an empty server, in one that was opened, and after each request. So the answer to a read of a file is of
/// the file itself, or says that the file has nothing of the range, that the device failed, or that memory ran out; it never says that the
/// file is missing or damaged. The same holds over a connection, which answers its requests one after another: a shelf that is honest after
/// a request was honest before it.
pub fn uploads_are_read_back<S: Shelf, D: Disk>()
    ensures empty { (has : S → ShelfName → Option (List ℕ)) (server : Server S D D.Disk) (limit : ℕ)
        → server.house.uploads ≡ map.empty → server.files.cache ≡ empty limit → HasKnown has server }
    ensures opened { (honest : S → Bool) (has : S → ShelfName → Option (List ℕ)) (first second : D)
        (shelf : S) (limit : ℕ) (server : Server S D D.Disk) → Keeps S.did honest has
        → IsTrue (honest server.files.shelf) → IsOpened S.did first second shelf limit server → HasKnown has server }
    ensures kept { (honest : S → Bool) (has : S → ShelfName → Option (List ℕ)) (old new : Server S D D.Disk)
        (parts : RequestParts) (body : List ℕ) (answer : Answer) → Keeps S.did honest has
        → IsTrue (honest new.files.shelf) → UploadAgrees old.house.uploads parts body → HasKnown has old
        → IsAnswer S.did S.failures old parts body answer new → HasKnown has new }
    ensures read { (honest : S → Bool) (has : S → ShelfName → Option (List ℕ)) (old new : Server S D D.Disk)
        (parts : RequestParts) (body : List ℕ) (answer : Answer) (site : Site) (version : Version)
        (path file : List ℕ) → Keeps S.did honest has → IsTrue (honest new.files.shelf) → HasKnown has old
        → asked_for parts body ≡ Ok (Read site version path)
        → file_of (state_of old.house) site version path ≡ Ok file
        → IsAnswer S.did S.failures old parts body answer new → IsReadBack parts path file answer }
    ensures there { (honest : S → Bool) (has : S → ShelfName → Option (List ℕ)) (old new : Server S D D.Disk)
        (parts : RequestParts) (body : List ℕ) (answer : Answer) (site : Site) (version : Version)
        (path file : List ℕ) → Keeps S.did honest has → IsTrue (honest new.files.shelf) → HasKnown has old
        → asked_for parts body ≡ Ok (Read site version path)
        → file_of (state_of old.house) site version path ≡ Ok file
        → IsAnswer S.did S.failures old parts body answer new → answer ≢ refused_answer reason.Missing }
    ensures whole { (honest : S → Bool) (has : S → ShelfName → Option (List ℕ)) (old new : Server S D D.Disk)
        (parts : RequestParts) (body : List ℕ) (answer : Answer) (site : Site) (version : Version)
        (path file : List ℕ) → Keeps S.did honest has → IsTrue (honest new.files.shelf) → HasKnown has old
        → asked_for parts body ≡ Ok (Read site version path)
        → file_of (state_of old.house) site version path ≡ Ok file
        → IsAnswer S.did S.failures old parts body answer new → answer ≢ refused_answer reason.Damaged }
    ensures before { (honest : S → Bool) (has : S → ShelfName → Option (List ℕ)) (number : ℕ)
        (old new : Server S D D.Disk) (stream left : Stream) (replies : List (List ℕ)) → Keeps S.did honest has
        → IsTrue (honest new.files.shelf)
        → AreServed (IsAnswer S.did S.failures) number old stream replies new left → IsTrue (honest old.files.shelf) }
    ensures connection { (honest : S → Bool) (has : S → ShelfName → Option (List ℕ)) (number : ℕ)
        (old new : Server S D D.Disk) (stream left : Stream) (replies : List (List ℕ)) → Keeps S.did honest has
        → IsTrue (honest new.files.shelf) → HasKnown has old
        → AreServed (Agreeing (IsAnswer S.did S.failures)) number old stream replies new left
        → AreServed ReadsBack number old stream replies new left × HasKnown has new }
{}
