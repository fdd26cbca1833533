//! What the workers answer over.
ghost use Rattle.std.specs.Prelude.{◌≡◌};
ghost use Rattle.host_connection.specs.declared.steps.Progress.TheVariants as came;
ghost use Rattle.host_connection.specs.declared.steps.Wants.TheVariants as wants;
ghost use Rattle.worker_connections.specs.declared.steps.Interest.TheVariants as interest;
ghost use Rattle.worker_connections.specs.declared.steps.Next.TheVariants as next;
ghost use Rattle.shared_house.specs.Desks.{shows};
ghost use Rattle.host_nodes.specs.Carried.{IsKept};

use crate::inputs::Input;
use crate::nodes::TakesSteps;
use crate::rooms::{with_room, without_room};
use crate::showing::{AsksOver, HostHouses, Houses};
use connection_rules::{HeldReply, Stage};
use event_loop::NotBegun;
use host_connection::{Connection, Metered, Progress, Stage as Phase, Wants};
use host_names::Digest;
use seen_lists::ListName;
use shared_house::{DeskVisitor, FileAccess, Guest, Haste, Note};
use site_desk::{DeskName, KnownFiles};
use std::alloc::{AllocError, Global};
use std::marker::PhantomData;
use std::net::TcpStream;
use tcp_socket::{Socket, Trail};
use worker_connections::{Holding, Interest, Next, Step};

/// A connection, the note of what it saw last, what went over its socket, and what is known of its input. While a request waits to be answered by a thread
/// that may wait, what a worker saw for it is here. While it rests, it takes no room for heads and replies.
///
/// The note stays the connection's own: over all that went over the socket, the connection and the note are what the steps of workers made of them, each
/// with the note that the one before left.
#[derive(Drop)]
pub(crate) struct Noted<J: DeskName, K: ListName<KnownFiles>, M: Houses> {
    // None while it rests.
    connection: Option<Box<Connection>>,
    /// The number of the request that it is before while it rests.
    number: u64,
    note: Note<J, K>,
    trail: Trail,
    input: Input,
    sight: Option<DeskVisitor<J>>,
    houses: PhantomData<M>,
    ghost carried: { ∥ IsKept (shows M.did M.fails) trail note connection number ∥₁ },
}

/// It is in a box, so a worker that takes a step and threads that hand it on move its address alone.
pub(crate) type NotedBox<J, K, M> = Box<Noted<J, K, M>>;

/// A place for one, as a node keeps it. From its beginning on there is one.
pub(crate) type NotedSlot<J, K, M> = Option<NotedBox<J, K, M>>;

/// That of a host over such disks, whose shelf is reached this way.
pub(crate) type HostSlot<J, K, D, S, Q, U, N> = NotedSlot<J, K, HostHouses<J, D, S, Q, U, N>>;

/// What a step came to, what the connection is in the middle of then, and what it holds.
#[derive(Clone, Copy)]
struct Went {
    progress: Progress,
    phase: Phase,
    is_asked: bool,
    holds: Holding,
}

/// What a connection has come to by this step.
fn came_to(connection: &Connection, progress: Progress) -> Went {
    let phase = connection.stage();
    Went {
        progress,
        phase,
        is_asked: connection.is_asked(),
        holds: held_by(connection, phase),
    }
}

/// Puts it into a box.
fn boxed<J: DeskName, K: ListName<KnownFiles>, M: Houses>(
    alloc: Global,
    noted: Noted<J, K, M>,
) -> Result<NotedBox<J, K, M>, AllocError> {
    Ok(Box::new(alloc, noted)?)
}

impl<J: DeskName, K: ListName<KnownFiles>, M: Houses> Noted<J, K, M> {
    /// A connection that has read nothing, with a note of its own.
    fn new(note: Note<J, K>) -> Noted<J, K, M> {
        Noted {
            connection: None,
            number: 1,
            note,
            trail: Trail::new(),
            input: Input::new(),
            sight: None,
            houses: PhantomData,
        }
    }

    /// Its socket, lent for a step, over what went over it so far. A step that needs no socket has none.
    fn socket<'s>(&self, stream: Option<&'s TcpStream>) -> Socket<'s>
        ensures { result ≡ self.now.trail }
    {
        match stream {
            Some(stream) => Socket::new(stream, &self.trail),
            None => Socket::away(&self.trail),
        }
    }

    /// Goes on with the connection over its socket, by a guest. If it rested, it has the room of the spare one; if it rests then, its room is spare. It doesn't go
    /// on if there is no memory for its room.
    fn go_on<A: AsksOver<J, K, M, G>, G: FileAccess, H: Haste>(
        &mut self,
        alloc: Global,
        guest: &mut Guest<J, K, A, G, H>,
        duplex: &mut Metered<Socket<'_>>,
        spare: &mut Option<Box<Connection>>,
    ) -> Option<Went>
        requires { duplex.old.stream ≡ self.old.trail }
    {
        let mut connection = with_room(alloc, self.connection.take(), self.number, spare)?;
        let progress = guest.go_on(&mut connection, &mut self.note, alloc, duplex);
        self.trail = duplex.stream().trail();
        let done = came_to(&connection, progress);
        let (connection, number) = without_room(connection, spare);
        self.connection = connection;
        self.number = number;
        Some(done)
    }
}

/// A guest, as what goes on with the connections of a worker, in such houses.
#[derive(Drop)]
pub(crate) struct GuestSteps<J: DeskName, K: ListName<KnownFiles>, M, A: Drop, G: Drop, H: Drop> {
    guest: Guest<J, K, A, G, H>,
    houses: PhantomData<M>,
}

impl<J: DeskName, K: ListName<KnownFiles>, M, A: Drop, G: Drop, H: Drop> GuestSteps<
    J,
    K,
    M,
    A,
    G,
    H,
> {
    /// The steps of a guest.
    pub(crate) fn new(guest: Guest<J, K, A, G, H>) -> GuestSteps<J, K, M, A, G, H> {
        GuestSteps {
            guest,
            houses: PhantomData,
        }
    }
}

/// A connection that has read nothing, with this note.
fn begun<J: DeskName, K: ListName<KnownFiles>, M: Houses>(
    alloc: Global,
    note: Note<J, K>,
) -> Result<NotedBox<J, K, M>, NotBegun> {
    Ok(boxed(alloc, Noted::new(note))?)
}

impl<
    J: DeskName,
    K: ListName<KnownFiles>,
    M: Houses,
    A: AsksOver<J, K, M, G> + Drop,
    G: FileAccess + Drop,
    H: Haste + Drop,
> TakesSteps for GuestSteps<J, K, M, A, G, H> {
    type Connection = NotedBox<J, K, M>;

    type Room = Box<Connection>;

    fn take_step(
        &mut self,
        alloc: Global,
        noted: &mut NotedSlot<J, K, M>,
        spare: &mut Option<Box<Connection>>,
        stream: Option<&TcpStream>,
    ) -> Result<Option<Step>, NotBegun> {
        if let Some(noted) = noted {
            let step = step_of(&mut self.guest, alloc, noted, stream, spare);
            return Ok(Some(step.ok_or(NotBegun::OutOfMemory)?));
        }
        *noted = Some(begun(alloc, self.guest.note())?);
        Ok(None)
    }
}

/// Takes what a worker saw for the request of a connection that it left, if there is one.
pub(crate) fn taken_sight<J: DeskName, K: ListName<KnownFiles>, M: Houses>(
    noted: &mut NotedSlot<J, K, M>,
) -> Option<DeskVisitor<J>> {
    match noted {
        Some(noted) => noted.sight.take(),
        None => None,
    }
}

/// A step of a connection over a socket, by a guest. There is none only if there is no memory for its room.
fn step_of<
    J: DeskName,
    K: ListName<KnownFiles>,
    M: Houses,
    A: AsksOver<J, K, M, G>,
    G: FileAccess,
    H: Haste,
>(
    guest: &mut Guest<J, K, A, G, H>,
    alloc: Global,
    noted: &mut Noted<J, K, M>,
    stream: Option<&TcpStream>,
    spare: &mut Option<Box<Connection>>,
) -> Option<Step> {
    let mut duplex = Metered::new(noted.socket(stream));
    let Went {
        progress,
        phase,
        is_asked,
        holds,
    } = noted.go_on(alloc, guest, &mut duplex, spare)?;
    let socket = duplex.stream();
    let answered = guest.answered();
    noted.input.note(socket, answered);
    noted.sight = guest.take_sight();
    Some(Step {
        next: next_of(progress, phase, &noted.input),
        stage: stage_after(progress, phase, is_asked),
        read: socket.read(),
        written: socket.written(),
        answers: answered.is_some(),
        holds,
    })
}

/// What a connection is doing after a step, as far as its deadline goes. If it may go on at once with what has come of a request, it waits only where its
/// client doesn't take the replies before that one: so it has as long as in a reply.
fn stage_after(progress: Progress, phase: Phase, is_asked: bool) -> Stage {
    match phase {
        Phase::Head(_) if progress == Progress::More => Stage::Reply,
        Phase::Body { .. } if progress == Progress::More && is_asked => Stage::Reply,
        _ => stage_of(phase),
    }
}

/// What a connection is doing that waits for its client.
fn stage_of(phase: Phase) -> Stage {
    match phase {
        Phase::Idle => Stage::Idle,
        Phase::Head(_) => Stage::Head,
        Phase::Interim { .. } | Phase::Body { .. } => Stage::Body,
        Phase::Reply(_) => Stage::Reply,
        Phase::Ended => Stage::Closing,
    }
}

/// What a reply that is on its way holds.
fn held_reply(connection: &Connection) -> Holding {
    let Some(file) = connection.held_file() else {
        return Holding::Nothing;
    };
    let Digest(digest) = file.digest;
    let size = file.size.unwrap_or(u64::MAX);
    Holding::Reply(HeldReply {
        file: digest,
        length: file.length,
        size,
    })
}

/// What a connection holds between two steps: of a body what came, or what its reply sends of a file.
fn held_by(connection: &Connection, phase: Phase) -> Holding {
    match phase {
        Phase::Interim { .. } => Holding::Body(0),
        Phase::Body { received, .. } => Holding::Body(received as u64),
        Phase::Reply(_) => held_reply(connection),
        Phase::Idle | Phase::Head(_) | Phase::Ended => Holding::Nothing,
    }
}

/// What follows a step. A connection that may go on at once waits for whatever comes first: so others that are ready have their turn before. But if nothing
/// of a next request has come, it has only to read.
fn next_of(progress: Progress, phase: Phase, input: &Input) -> Next
    ensures reads { progress ≡ came.Waits wants.Read → result ≡ next.Waits interest.Read }
    ensures writes { progress ≡ came.Waits wants.Write → result ≡ next.Waits interest.Write }
    ensures leaves { progress ≡ came.Postponed → result ≡ next.Leaves }
{
    match progress {
        Progress::Waits(Wants::Read) => Next::Waits(Interest::Read),
        Progress::Waits(Wants::Write) => Next::Waits(Interest::Write),
        Progress::More if phase == Phase::Idle => Next::Waits(Interest::Read),
        Progress::More if phase != Phase::Ended => Next::Waits(Interest::Either),
        Progress::Body(_) => Next::Waits(Interest::Either),
        Progress::Postponed => Next::Leaves,
        Progress::Ended(Err(_)) => Next::Ends,
        Progress::More | Progress::Ended(Ok(())) => input.end(),
    }
}
