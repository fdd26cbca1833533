//! Connections that go from one worker to another, each with a note of what it saw.
ghost use Rattle.std.specs.Prelude.{◌≡◌};
ghost use Rattle.host_connection.specs.Advancing.{Goes, RemembersMemory, TellsBody, phases_left};
ghost use Rattle.host_connection.specs.Carrying.{AnswersOnce, Carries, Leads};
ghost use Rattle.host_replies.specs.Bodies.{answer_of};
ghost use Rattle.shared_house.specs.GuestLaws as laws;
ghost use Rattle.shared_house.specs.Guests.{IsGuestAnswer};
ghost use Rattle.shared_house.specs.Desks.{shows};
ghost use Rattle.shared_house.specs.HouseLaws as houses;
ghost use Rattle.shared_house.specs.Seeing.{HasAll, Known};

use crate::answered::Answered;
use crate::desk_access::DeskAccess;
use crate::file_access::FileAccess;
use crate::guest_answers::{answer_guest, recall_guest};
use crate::haste::Haste;
use crate::houses::{DeskVisitor, SharedHouse};
use crate::kept::Kept;
use crate::memories::Memory;
use crate::notes::Note;
use host_connection::{Connection, Metered, Progress, Request, Service};
use host_replies::{Reply, is_head_only};
use http_wire::Duplex;
use seen_lists::ListName;
use site_desk::{DeskName, KnownFiles};
use std::alloc::Global;
use std::marker::Model;
use std::mem;
use std::sync::Arc;

/// A worker's house, and the note of the connection that it answers. Contracts see the note alone, so the worker is no part of what they say.
///
/// A quick guest leaves a request for later whose answer may need the desk, or a piece of a file that isn't at hand. A thread that may wait answers such a
/// request by a guest of its own, over what the other one saw.
#[derive(Drop)]
pub struct Guest<J: DeskName, K: ListName<KnownFiles>, D, G, H> {
    house: SharedHouse<J, K, D, G>,
    note: Note<J, K>,
    haste: H,
    // The replies that it keeps, if it keeps any.
    memory: Option<Memory<J>>,
    // The request that the last step answered, if it answered one.
    answered: Option<Answered>,
    // What was seen for a request that the last step left, if it left one.
    sight: Option<DeskVisitor<J>>,
}

impl<J: DeskName, K: ListName<KnownFiles>, D, G, H> Model for Guest<J, K, D, G, H> {
    ghost use Rattle.blob_store.specs.contracts.blob_indexes.BlobIndex as index;
    ghost use Rattle.change_log.specs.contracts.logs.Log as logs;
    ghost use Rattle.shared_house.specs.Seeing.{Known, coded_known};

    ghost Value = { Known };

    ghost coded = { coded_known logs.the_row.coded index.the_row.coded };

    ghost view = { λ g. g.note };
}

/// How the targets begin of the interface's requests, and how the target of a list of changes ends.
const INTERFACE: &str = "/api/";

const CHANGES: &str = "/changes";

/// Whether the answer to a request may need the desk: that to a read or to a list of changes doesn't.
fn may_need_desk(request: &Request) -> bool {
    let method = request.head.method().as_str();
    let target = request.head.target();
    let is_read = method == "GET" || method == "HEAD";
    let is_list = target.ends_with(CHANGES) || !target.starts_with(INTERFACE);
    !is_read || !is_list || !request.body.is_empty()
}

impl<J: DeskName, K: ListName<KnownFiles>, D: DeskAccess<J, K>, G: FileAccess, H: Haste> Service
    for Guest<J, K, D, G, H> {
    ghost answers = { IsGuestAnswer (shows D.did G.fails) };

    ghost grows = { HasAll };

    ghost postpones = { H.postpones };

    fn answer(&mut self, alloc: Global, request: &Request) -> Option<Reply> {
        let mut note = self.note.again();
        if self.haste.may_leave() && may_need_desk(request) && self.leave() {
            return None;
        }
        let reply = answer_guest(
            alloc,
            &mut self.house,
            &mut note,
            &request.head,
            request.body.as_slice(),
        );
        // What isn't at hand a quick guest has no memory for. Where there really is none, the next guest finds the same.
        if self.haste.may_leave() && reply.is_out_of_memory() && self.leave() {
            return None;
        }
        self.answered = Some(Answered::of(&request.head));
        self.note = note;
        self.keep(alloc, request, &reply);
        Some(reply)
    }

    fn recall(&mut self, head: &[u8]) -> Option<Arc<Vec<u8>>> {
        let Some(memory) = &self.memory else {
            return None;
        };
        let Some(kept) = memory.at(head) else {
            return None;
        };
        match recall_guest(&mut self.house, kept, &mut self.note) {
            Some(text) => {
                self.answered = Some(Answered { asks_end: false });
                Some(text)
            }
            None => None,
        }
    }

    ghost withheld = { laws.withheld (shows D.did G.fails) };

    ghost stays = { houses.has_itself };

    ghost goes_on = { houses.has_all };
}

impl<J: DeskName, K: ListName<KnownFiles>, D: DeskAccess<J, K>, G: FileAccess, H: Haste> Guest<
    J,
    K,
    D,
    G,
    H,
> {
    /// A worker at no connection, which may keep replies.
    pub fn new(
        house: SharedHouse<J, K, D, G>,
        haste: H,
        memory: Option<Memory<J>>,
    ) -> Guest<J, K, D, G, H>
        ensures { result ≡ house.known }
    {
        let note = house.note();
        Guest {
            house,
            note,
            haste,
            memory,
            answered: None,
            sight: None,
        }
    }

    /// Takes what was seen for a request that the last step left, for the guest that answers it.
    pub fn take_sight(&mut self) -> Option<DeskVisitor<J>>
        ensures { self.new ≡ self.old }
    {
        self.sight.take()
    }

    /// Keeps the reply to a request, which it just answered, if it keeps such replies.
    fn keep(&mut self, alloc: Global, request: &Request, reply: &Reply)
        requires { (old : Known) × IsGuestAnswer (shows D.did G.fails) old
            request.now.head request.now.body.items (answer_of reply.now) self.old }
        ensures { self.new ≡ self.old }
    {
        let Some(memory) = &mut self.memory else {
            return;
        };
        if !memory.wants(request.head.text()) {
            return;
        }
        let Some(kept) = self.kept_of(alloc, request, reply) else {
            return;
        };
        if let Some(memory) = &mut self.memory {
            memory.keep(kept);
        }
    }

    /// What is kept of the reply to a request, over the log that is known after it: its text, if that is small, answers with a whole file, and would be the same
    /// for each request with this head. There may be no memory for it.
    fn kept_of(&self, alloc: Global, request: &Request, reply: &Reply) -> Option<Kept<J>>
        requires { (old : Known) × IsGuestAnswer (shows D.did G.fails) old
            request.now.head request.now.body.items (answer_of reply.now) self.now }
    {
        if !reply.is_of_whole_file() || !request.is_whole_by_head() {
            return None;
        }
        let text = reply.small_text(alloc, is_head_only(&request.head))?;
        let front = self.note.log.again();
        match Kept::new(alloc, front, request.head.text(), text) {
            Ok(kept) => Some(kept),
            Err(_) => None,
        }
    }

    /// Looks for a request that is left for later. Answers whether there is something to lend: else the request is answered at once.
    fn leave(&mut self) -> bool
        ensures { self.new ≡ self.old }
    {
        self.sight = self.look_for();
        self.sight.is_some()
    }

    /// What is shown to a connection with this note, to be lent.
    fn look_for(&mut self) -> Option<DeskVisitor<J>>
        ensures { self.new ≡ self.old }
    {
        self.house.visitor.learn_front(&self.note.log);
        let Ok(_) = self.house.visitor.look() else {
            return None;
        };
        self.house.visitor.lend().ok()
    }

    /// A note for a new connection: what the worker knows.
    pub fn note(&self) -> Note<J, K> {
        self.house.note()
    }

    /// The request that the last step answered. A step answers one at most.
    pub fn answered(&self) -> Option<Answered> {
        self.answered
    }

    /// Takes the note of the connection that it goes to.
    fn take_note(&mut self, note: &mut Note<J, K>)
        ensures { self.new ≡ note.old }
    {
        mem::swap(&mut self.note, note);
    }

    /// Gives the connection its note back.
    fn give_note(&mut self, note: &mut Note<J, K>)
        ensures { note.new ≡ self.old }
    {
        mem::swap(note, &mut self.note);
    }

    /// Goes on with a connection, of which this is the note, whichever worker served it before.
    pub fn go_on<X: Duplex>(
        &mut self,
        connection: &mut Connection,
        note: &mut Note<J, K>,
        alloc: Global,
        duplex: &mut Metered<X>,
    ) -> Progress
        ensures leads { let answers = IsGuestAnswer (shows D.did G.fails) in (start : X) (first : Known)
            → Carries answers X.saw (Unit {0}) start first duplex.old.stream note.old connection.old
            → Leads answers X.saw (Unit {0}) X.waits start first duplex.new.stream note.new connection.new result }
        ensures asks { AnswersOnce (IsGuestAnswer (shows D.did G.fails)) note.old note.new }
        ensures later { result ≡ Progress.Postponed → H.postpones × (note.new ≡ note.old) }
        ensures grows { HasAll note.old note.new }
        ensures goes { Goes X.saw duplex.old.stream duplex.new.stream result
            (phases_left connection.old.number connection.old.phase)
            (phases_left connection.new.number connection.new.phase) }
        ensures tells { TellsBody result
            connection.old.number connection.old.phase
            connection.new.number connection.new.phase }
        ensures memory { RemembersMemory connection.old.phase connection.new.phase }
    {
        self.answered = None;
        self.sight = None;
        self.take_note(note);
        let progress = connection.go_on(alloc, duplex, self);
        self.give_note(note);
        progress
    }
}
