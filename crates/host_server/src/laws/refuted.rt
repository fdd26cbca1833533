//! What the relations of the contracts refuse. Each function does nothing: its contract is the law.
ghost use Rattle.std.specs.FinMap as map;
ghost use Rattle.std.specs.Prelude.{◌≡◌, ◌⊎◌, ℕ, ◌<◌, ◌≤◌, ◌+◌, ◌-◌, ◌^◌, min, List, [], ◌∷◌, None, Result, Some, Ok, Err, true, false, IsTrue, length};
ghost use Rattle.byte_view.specs.Contents.{Contents};
ghost use Rattle.host_names.specs.declared.digests.Digest.{Digest};
ghost use Rattle.host_names.specs.declared.names.SiteName.{SiteName};
ghost use Rattle.std.specs.declared.alloc.AllocError.{AllocError};
ghost use Rattle.site_change.specs.declared.refusals.ChangeRefusal.{ChangeRefusal};
ghost use Rattle.site_change.specs.declared.refusals.ChangeRefusal.TheVariants.{NoSuchDeploy};
ghost use Rattle.blob_store.specs.declared.blobs.UploadFault.TheVariants as upload_fault;
ghost use Rattle.range_spec.specs.declared.grammar.Asked.{Asked};
ghost use Rattle.http_wire.specs.Requests.{RequestParts};
ghost use Rattle.http_wire.specs.Timing.{AtEnd, Event, Steps, Timely};
ghost use Rattle.site_change.specs.declared.commands.Command.{Command};
ghost use Rattle.change_log.specs.Logs.{empty_log, with_entry};
ghost use Rattle.site_change.specs.declared.entries.Entry.{Entry};
ghost use Rattle.site_change.specs.declared.entries.Entry.TheVariants.{Undo};
ghost use Rattle.change_journal.specs.Held.{Keeps};
ghost use Rattle.change_journal.specs.Texts.{AllStored};
ghost use Rattle.found_host.specs.Openings.{IsNoRecordFault, IsOpenFault};
ghost use Rattle.found_host.specs.declared.faults.OpenFault.TheVariants as open_fault;
ghost use Rattle.host_api.specs.declared.bodies.Ask.TheVariants as ask;
ghost use Rattle.host_api.specs.declared.refusals.Refusal.{Refusal};
ghost use Rattle.host_api.specs.declared.refusals.Refusal.TheVariants as reason;
ghost use Rattle.host_api.specs.declared.texts.DeployState.TheVariants.{Kept};
ghost use Rattle.host_api.specs.declared.texts.Told.{Told};
ghost use Rattle.host_api.specs.declared.texts.Told.TheVariants.{Deploy, Refused};
ghost use Rattle.host_answers.specs.Asking.{asked_for};
ghost use Rattle.host_answers.specs.declared.uploads.Uploaded.{Uploaded};
ghost use Rattle.host_server.specs.Asks.{ComesOf, DeployStops, HostStops, IsAnswer};
ghost use Rattle.host_replies.specs.FileAsks.{AsksRange};
ghost use Rattle.host_server.specs.Hosts.{Grows, Host};
ghost use Rattle.host_server.specs.Journals.{IsJournaled, IsStopped, is_broken};
ghost use Rattle.journaled_history.specs.Puts.{IsPut, IsPutInVain};
ghost use Rattle.host_server.specs.Openings.{IsOpened};
ghost use Rattle.host_server.specs.Outcomes.{Outcome};
ghost use Rattle.host_server.specs.ReadBack.{IsReadBack};
ghost use Rattle.host_replies.specs.Replies.{Answer, Tells, refused_answer};
ghost use Rattle.host_connection.specs.Serving.{IsHeadRefused, IsInterim, Serves, Stream};
ghost use Rattle.host_server.specs.Shown.{Shows, ShowsDeploy};
ghost use Rattle.host_server.specs.ServerHouses.{CommitsAt, EntersAt, LooksAt, MissesAt, UndoesAt, UploadsAt};
ghost use Rattle.host_server.specs.Solo.{IsServed, Runs, RunsStore};
ghost use Rattle.host_server.specs.Storing.{DoesUpload, IsNotStored, IsStored};
ghost use Rattle.host_connection.specs.Timing.{Connects, IsCaughtUp};
ghost use Rattle.host_connection.specs.declared.connections.ConnectionFault.TheVariants as fault;
ghost use Rattle.host_server.specs.declared.servers.Server.{Server};

use blob_store::Shelf;
use host_disk::{Disk, MemDisk};
use http_wire::Duplex;

/// Each of these relations is refuted for one wrong answer, so none of them holds of everything. `range` says that a head asks for one list
/// of ranges. An answer that a file is missing or damaged doesn't read it back (`IsReadBack`).
pub fn wrong_answers_are_refused<S: Shelf, D: Disk>()
    ensures missing { (parts : RequestParts) (path file : List ℕ)
        → ¬ (IsReadBack parts path file (refused_answer reason.Missing)) }
    ensures damaged { (parts : RequestParts) (path file : List ℕ)
        → ¬ (IsReadBack parts path file (refused_answer reason.Damaged)) }
    ensures range { (parts : RequestParts) (one another : Asked) → AsksRange parts one → AsksRange parts another
        → one ≡ another }
    ensures refused { (old new : Server S D D.Disk) (parts : RequestParts) (body : List ℕ) (answer : Answer)
        (why : Refusal) → asked_for parts body ≡ Err why → IsAnswer S.did S.failures old parts body answer new
        → new.house ≡ old.house }
    ensures refusal { (old new : Server S D D.Disk) (parts : RequestParts) (body : List ℕ) (answer : Answer)
        (why : Refusal) → asked_for parts body ≡ Err why → IsAnswer S.did S.failures old parts body answer new
        → (answer ≡ refused_answer why) ⊎ (answer ≡ refused_answer reason.OutOfMemory) }
    ensures stored { (uploads : Contents) (old new : S) (bytes : List ℕ) → IsStored S.did uploads old bytes new
        → length bytes ≤ 16777216 }
    ensures large { (uploads : Contents) (old new : S) (bytes : List ℕ) → length bytes ≤ 16777216
        → ¬ (IsNotStored S.did S.failures uploads old bytes upload_fault.TooLarge new) }
    ensures device { (uploads : Contents) (old new : S) (bytes : List ℕ)
        → IsNotStored S.did S.failures uploads old bytes upload_fault.Device new
        → S.failures old < S.failures new }
    ensures upload { (old new : Server S D D.Disk) (judged : Result (SiteName × Digest) Refusal) (n : ℕ)
        (bytes : List ℕ) (done : Uploaded) → 16777216 < length bytes
        → ¬ (DoesUpload S.did S.failures old judged n bytes (Ok done) new) }
{}

/// The same of what the calls of a server do.
pub fn wrong_calls_are_refused<S: Shelf, D: Disk>()
    ensures looks { (old new : Server S D D.Disk) (why : AllocError) → ¬ (LooksAt old (Err why) new) }
    ensures misses { (server : Server S D D.Disk) (why : AllocError) → ¬ (MissesAt server [] (Err why)) }
    ensures enters { (old new : Server S D D.Disk) (entry : Entry) (why : ChangeRefusal) (number : ℕ)
        → ¬ (EntersAt entry (Some why) ⊥ old (Ok number) new) }
    ensures commits { (old new : Server S D D.Disk) (command : Command) (number : ℕ)
        → is_broken old.journal ≡ true → ¬ (CommitsAt old command (Ok number) new) }
    ensures full { (old new : Server S D D.Disk) (command : Command) (number : ℕ)
        → old.house ≡ record { limit = 0; entries = empty_log; uploads = map.empty }
        → ¬ (CommitsAt old command (Ok number) new) }
    ensures undoes { (old new : Server S D D.Disk) (site : SiteName) (k number : ℕ)
        → is_broken old.journal ≡ true → ¬ (UndoesAt old site k (Ok number) new) }
    ensures uploads { (old new : Server S D D.Disk) (site : SiteName) (n : ℕ)
        (path bytes : List ℕ) (done : Uploaded) → is_broken old.journal ≡ true
        → ¬ (UploadsAt S.did S.failures old site n path bytes (Ok done) new) }
{}

/// The same of what a host and its journal do.
pub fn wrong_changes_are_refused<D: Disk>()
    ensures grows { (entry : Entry)
        → ¬ (Grows (record { limit = 1; entries = with_entry empty_log entry; uploads = map.empty })
        (record { limit = 1; entries = empty_log; uploads = map.empty })) }
    ensures journaled { (old new : Host) (entry : Entry) (journal : Keeps D)
        → ¬ (IsJournaled {A = ℕ} D.Disk entry (Ok 0) old None new (Some journal)) }
    ensures broken { (old new : Host) (entry : Entry)
        → ¬ (IsJournaled {A = ℕ} D.Disk entry (Err reason.Device) old None new None) }
    ensures put { (old new : Keeps D) (entry : Entry) → old.broken ≡ true → ¬ (IsPut D.Disk old entry new) }
    ensures put_in_vain { (old new : Keeps D) (entry : Entry) → new.broken ≡ false
        → ¬ (IsPutInVain D.Disk old entry new) }
    ensures kept { (old new : Keeps D) (entry : Entry) → IsTrue D.is_modelled
        → ¬ (AllStored (D.may_leave new.first) (D.may_leave new.second) new.entries.entries)
        → ¬ (IsPut D.Disk old entry new) }
    ensures stopped { ¬ (IsStopped {A = ℕ} (Ok 0)) }
    ensures stops { (host next : Host) (site : SiteName) (missed : Entry)
        → ¬ (HostStops host (Ok (ask.Changes site)) missed next) }
    ensures command { (command : Command) (missed : Entry) (next : Host)
        → ¬ (HostStops (record { limit = 0; entries = empty_log; uploads = map.empty })
        (Ok (ask.Command command)) missed next) }
    ensures undo { (site : SiteName) (k : ℕ) (missed : Entry) (next : Host)
        → ¬ (HostStops (record { limit = 0; entries = empty_log; uploads = map.empty })
        (Ok (ask.Undo site k)) missed next) }
    ensures missed { (host next : Host) (site : SiteName) (k : ℕ) (missed : Entry)
        → HostStops host (Ok (ask.Undo site k)) missed next → missed ≡ Undo site k }
    ensures text { ¬ (Tells (Refused reason.BadName) (refused_answer reason.OutOfMemory)) }
    ensures comes { (host : Host) (site : SiteName) (out : Outcome) → ComesOf host (Ok (ask.Changes site)) out
        → out.host ≡ host }
    ensures deploy { (command : SiteName → Command) (missed : Entry) (next : Host)
        → ¬ (DeployStops (record { limit = 0; entries = empty_log; uploads = map.empty }) 1 command missed next) }
    ensures shown { (told : Told) → ShowsDeploy (record { limit = 0; entries = empty_log; uploads = map.empty }) 1 told
        → told ≡ Refused (reason.Change NoSuchDeploy) }
    ensures shows { (uploads : Contents) (site : SiteName) (n : ℕ)
        → ¬ (Shows uploads site n None None (Deploy n site Kept)) }
{}

/// The same of what a connection does, of openings, and of runs of the program.
pub fn wrong_runs_are_refused<S: Shelf, D: Disk, X: Duplex>()
    ensures input { (host next : Server S D D.Disk) (stream held new_held : Stream)
        → ¬ (Serves (IsAnswer S.did S.failures) ⊥ ⊥ (Err fault.InputFault) host next stream held new_held) }
    ensures output { (host next : Server S D D.Disk) (stream held new_held : Stream)
        → ¬ (Serves (IsAnswer S.did S.failures) ⊥ ⊥ (Err fault.OutputFault) host next stream held new_held) }
    ensures idle { (host next : Server S D D.Disk)
        → ¬ (Connects (IsAnswer S.did S.failures) (Err fault.OutOfMemory) host next (AtEnd ∷ [])) }
    ensures caught_up { (host : Server S D D.Disk)
        → ¬ (IsCaughtUp (IsAnswer S.did S.failures) host [] (0 ∷ [])) }
    ensures interim { (parts : RequestParts) → ¬ (IsInterim parts (0 ∷ [])) }
    ensures head { (stream : Stream) → ¬ (IsHeadRefused stream []) }
    ensures opened { (first second : D) (shelf : S) (limit : ℕ) (server : Server S D D.Disk) → server.journal ≡ None
        → ¬ (IsOpened S.did first second shelf limit server) }
    ensures open_fault { (first second new_first new_second : D) (shelf new_shelf : S) (limit : ℕ)
        → IsOpenFault D.Disk S.did first second shelf limit open_fault.JournalDevice new_first new_second new_shelf
        → ((D.faults new_second ≡ D.faults second) × (D.faults new_first ≡ min (D.faults first + 1) (2 ^ 64 - 1)))
        ⊎ ((D.faults new_first ≡ D.faults first) × (D.faults new_second ≡ min (D.faults second + 1) (2 ^ 64 - 1))) }
    ensures record_fault { ¬ (IsNoRecordFault open_fault.BadHeader) }
    ensures store { (first second : D) (shelf : S) (old new : X) (said new_said : Stream)
        → ¬ (RunsStore D.Disk S.did S.failures X.Duplex ⊥ first second shelf 1 old new said new_said) }
    ensures run { (words : List (List ℕ)) (old new : X) (said new_said : Stream)
        → ¬ (Runs ⟦<MemDisk as Disk>⟧ D.Disk S.Shelf X.Duplex ⊥ words 5 old new said new_said) }
    ensures held_back { (host : Server S D D.Disk) (old new : X) (said new_said : Stream)
        → IsServed (IsAnswer S.did S.failures) X.Duplex ⊥ host 0 old new said new_said → (events : List Event)
        × Steps X.saw old events new × Timely (IsCaughtUp (IsAnswer S.did S.failures) host) events }
{}
