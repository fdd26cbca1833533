//! Laws of running nodes. Each function does nothing: its contract is the law.
ghost use Rattle.std.specs.Prelude.{◌≡◌, ◌⊎◌, ℕ, List, Ok};
ghost use Rattle.http_wire.specs.Requests.{RequestParts};
ghost use Rattle.host_names.specs.declared.names.SiteName.{SiteName as Site};
ghost use Rattle.change_log.specs.Logs.{BeginsWith};
ghost use Rattle.host_answers.specs.Asking.{asked_for};
ghost use Rattle.host_api.specs.declared.bodies.Ask.TheVariants as ask;
ghost use Rattle.host_api.specs.declared.versions.Version.{Version as Served};
ghost use Rattle.host_connection.specs.Carrying.{IsFresh};
ghost use Rattle.host_connection.specs.StandingIn.{StandsIn};
ghost use Rattle.host_connection.specs.Walks.{AreSteps, LastComes, Step};
ghost use Rattle.host_connection.specs.declared.steps.Connection.{Connection};
ghost use Rattle.host_replies.specs.Replies.{Answer};
ghost use Rattle.shared_house.specs.Desks.{shows};
ghost use Rattle.shared_house.specs.Guests.{IsGuestAnswer};
ghost use Rattle.shared_house.specs.Running.{IsReadReply, IsUndoReply};
ghost use Rattle.shared_house.specs.Seeing.{HasAll, HasSeen, Known, Visit, by_visit};
ghost use Rattle.shared_house.specs.Shared.{IsSharedAnswer};

use crate::desk_access::DeskAccess;
use crate::file_access::FileAccess;
use crate::notes::Note;
use http_wire::Duplex;
use seen_lists::ListName;
use seen_lists::laws::{each_front_is_later_than_what_was_found, one_of_two_fronts_is_later};
use site_desk::{DeskName, KnownFiles};

/// A note stands for all that its connection saw: an answer to a connection with a note that begins with all of it is an answer of a house that saw it
/// all itself.
pub fn notes_stand_for_all<
    J: DeskName,
    K: ListName<KnownFiles>,
    D: DeskAccess<J, K>,
    G: FileAccess,
>()
    ensures { let did = shows D.did G.fails in StandsIn (IsGuestAnswer did) (IsSharedAnswer did by_visit)
        (λ (note : Known) (seen : Visit). HasSeen seen note) }
{}

/// The steps of any workers over one connection, each with the note that the one before left, are one connection to a house that remembers every look and
/// every log at which its desk answered the connection, and each of whose looks and answers begins with all of these.
pub fn hops_are_a_connection<
    J: DeskName,
    K: ListName<KnownFiles>,
    D: DeskAccess<J, K>,
    G: FileAccess,
    X: Duplex,
>()
    ensures { let did = shows D.did G.fails in (start : X) (first : Known) (seen : Visit) (c : Connection)
        (steps : List (Step X Known)) → IsFresh c → HasSeen seen first
        → AreSteps (IsGuestAnswer did) X.saw (Unit {0}) X.waits start first c steps
        → LastComes (IsSharedAnswer did by_visit) X.saw start seen start steps }
{}

/// What the nodes of one desk answer, whatever their threads do: the undo of a change that isn't refused leaves exactly the state of the history without
/// that change, and any other is refused with its first reason; a read is answered over the state of one legal history. Each of these histories is no older
/// than what the connection saw. A connection sees no less than before; and of what two connections saw, one begins with the other. All begins with what
/// was found when the desk was opened.
pub fn the_headline_of_running_nodes<
    J: DeskName,
    K: ListName<KnownFiles>,
    D: DeskAccess<J, K>,
    G: FileAccess,
>(one: &Note<J, K>, other: &Note<J, K>)
    ensures undone { let did = shows D.did G.fails in (old new : Known) (parts : RequestParts) (body : List ℕ)
        (answer : Answer) (site : Site) (k : ℕ) → asked_for parts body ≡ Ok (ask.Undo site k)
        → IsGuestAnswer did old parts body answer new → IsUndoReply did site k old.log answer new.log }
    ensures read { (old new : Known) (parts : RequestParts) (body : List ℕ) (answer : Answer) (site : Site)
        (version : Served) (path : List ℕ) → asked_for parts body ≡ Ok (ask.Read site version path)
        → IsGuestAnswer (shows D.did G.fails) old parts body answer new
        → IsReadReply old.log parts site version path answer new.log }
    ensures later { (old new : Known) (parts : RequestParts) (body : List ℕ) (answer : Answer)
        → IsGuestAnswer (shows D.did G.fails) old parts body answer new → HasAll old new }
    ensures of_one_history { BeginsWith one.now.log other.now.log ⊎ BeginsWith other.now.log one.now.log }
    ensures found { BeginsWith one.now.log J.found }
{
    one_of_two_fronts_is_later(&one.log, &other.log);
    each_front_is_later_than_what_was_found(&one.log);
}
