//! `filehost serve`: a host is opened, and its nodes serve.
ghost use Rattle.std.specs.Prelude.{◌≡◌, ◌↔◌, IfErr, IfOk, codes, true};
ghost use Rattle.blob_store.specs.Shelves.{found_in};
ghost use Rattle.found_host.specs.declared.faults.OpenFault.TheVariants.{OutOfMemory};
ghost use Rattle.blob_store.specs.declared.mem_shelf.MemShelf.{MemShelf};
ghost use Rattle.blob_store.specs.declared.shelves.ShelfName.{ShelfName};
ghost use Rattle.host_disk.specs.declared.mem_disk.MemDisk.{MemDisk};
ghost use Rattle.host_disk.specs.Contents.{empty_file};
ghost use Rattle.host_server.specs.Solo.{IsSaid, SaysFault};
ghost use Rattle.host_nodes.specs.Ends.{IsEnd};
ghost use Rattle.host_nodes.specs.Ports.{HasPorts, LeavesRoom};

use crate::lines::{Failure, refuse};
use crate::open_desks::{numbers, serve_found};
use crate::runtimes::Serving;
use blob_store::{AbsenceReceipt, MemShelf, PutReceipt, Shelf, ShelfAccess};
use change_undo::GREATEST_LIMIT;
use command_line::ServeOptions;
use connection_rules::Limits;
use found_host::{Found, OpenFault};
use host_disk::{Disk, MemDisk};
use host_server::{Store, fail};
use http_wire::Sink;
use node_process::{Process, Surroundings};
use shared_desk::NewDesk;
use std::alloc::Global;
use std::env::Env;
use std::marker::Brand;
use std::net::{Net, TcpListener, TcpStream};
use std::sync::Wait;
use std::thread::Threads;
use std::time::Clock;

/// The exit status if each node has served as many clients as it was to.
const DONE: u8 = 0;

/// The exit status if the port leaves no room for those of all nodes.
const BAD_ADDRESS: u8 = 1;

/// How many bytes each slot of a journal in memory has: 64 MiB.
const SLOT_ROOM: usize = 67_108_864;

/// The last port that leaves room for the ports of eight nodes.
const LAST_PORT: u16 = 65_520;

/// How many milliseconds a second of the deadlines has. Tests shorten it by this variable of the environment.
const SECOND: &str = "FILEHOST_DEADLINE_SECOND";

const MILLISECONDS: u64 = 1_000;

/// The shortest second that a test may set, in milliseconds. A shorter one would only keep the threads busy.
const SHORTEST: u64 = 10;

/// How long a second of the deadlines is: as the variable says, if that is a number in its range.
fn second<R: Env>(rt: &R) -> u64 {
    let mut text = [0; 8];
    let Ok(length) = rt.var(SECOND, &mut text) else {
        return MILLISECONDS;
    };
    let Ok(digits) = str::from_utf8(&text[..length]) else {
        return MILLISECONDS;
    };
    match digits.parse::<u64>() {
        Ok(second) if (SHORTEST..=MILLISECONDS).contains(&second) => second,
        _ => MILLISECONDS,
    }
}

/// Serves from what a store has.
fn serve_store<
    D: Disk + Drop + Send,
    S: Shelf + Drop + Send,
    R: Serving,
    Q: ShelfAccess<S, U, N> + Send + Sync,
    U: PutReceipt + Drop + Send + Sync,
    N: AbsenceReceipt + Drop + Send + Sync,
    P: Process,
    O: Sink,
    E: Sink,
>(
    rt: &R,
    alloc: Global,
    options: &ServeOptions,
    limits: Limits,
    store: Store<D, S>,
    around: &Surroundings<'_, R, P, Q, E>,
    lines: &mut O,
) -> Result<(), Failure>
    requires ports { LeavesRoom options.now.listen }
{
    let own = rt.clone()?;
    let Store {
        first,
        second,
        shelf,
    } = store;
    let found = match Found::open(alloc, first, second, shelf, GREATEST_LIMIT) {
        Ok(found) => found,
        Err(_) if around.halt.is_asked() => return Ok(()),
        Err(stop) => return Err(Failure::NotOpened(stop.fault)),
    };
    around.halt.end();
    let new = NewDesk::new(rt, numbers(options).0);
    serve_found::<Brand, Brand, D, S, R, Q, U, N, P, O, E>(
        rt, own, alloc, options, limits, new, found, around, lines,
    )
}

/// What a host in memory is kept on, which is empty.
pub fn open_memory(alloc: Global) -> Result<Store<MemDisk, MemShelf>, OpenFault>
    ensures first { IfOk result (λ store. store.first.content ≡ empty_file 67108864) }
    ensures second { IfOk result (λ store. store.second.content ≡ empty_file 67108864) }
    ensures shelf { IfOk result (λ store. (name : ShelfName) → found_in store.shelf name ≡ None) }
    ensures fault { IfErr result (λ fault. fault ≡ OutOfMemory) }
{
    Ok(Store {
        first: MemDisk::new(alloc, SLOT_ROOM)?,
        second: MemDisk::new(alloc, SLOT_ROOM)?,
        shelf: MemShelf::new(alloc),
    })
}

/// Whether the first node has a port, and all eight nodes, after it, have both of theirs.
pub fn has_ports(options: &ServeOptions) -> bool
    ensures { (result ≡ true) ↔ HasPorts options.now.listen }
{
    (1..=LAST_PORT).contains(&options.listen.port())
}

/// Says that it hasn't, as far as that can be written, and answers the exit status.
pub fn refuse_ports<E: Sink>(errors: &mut E) -> u8
    ensures status { result ≡ 1 }
    ensures said { IsSaid E.may_fail (codes "filehost: bad address\n") (E.held errors.old) (E.held errors.new) }
{
    fail(errors, BAD_ADDRESS, "filehost: bad address\n")
}

/// Says that there is no memory for the nodes, as far as that can be written, and answers the exit status.
pub fn refuse_memory<E: Sink>(errors: &mut E) -> u8
    ensures { SaysFault E.may_fail OutOfMemory result (E.held errors.old) (E.held errors.new) }
{
    refuse(errors, &Failure::NotOpened(OpenFault::OutOfMemory))
}

/// Serves clients and other nodes from the store that was opened, as the words ask for it, and answers the exit status. It tells on
/// `lines` where each node listens; if the status isn't 0, `errors` is told why. What happens meanwhile, and what the
/// nodes reach, is around it.
///
/// Who calls it knows the runtime, and opens them: threads take a shelf in a folder only where it stands on no bound of a runtime that isn't known. Its bounds
/// are those of `Serving`, written out: the prover takes no call by a `main` to a function with that bound.
pub fn run_serve<
    D: Disk + Drop + Send,
    S: Shelf + Drop + Send,
    R: Net<Listener = TcpListener, Stream = TcpStream>
        + Threads
        + Wait
        + Clock
        + Clone
        + Send
        + Sync
        + Drop
        + Env,
    Q: ShelfAccess<S, U, N> + Send + Sync,
    U: PutReceipt + Drop + Send + Sync,
    N: AbsenceReceipt + Drop + Send + Sync,
    P: Process,
    O: Sink,
    E: Sink,
    T: Sink,
>(
    rt: &R,
    alloc: Global,
    options: &ServeOptions,
    opened: Result<Store<D, S>, OpenFault>,
    around: &Surroundings<'_, R, P, Q, T>,
    lines: &mut O,
    errors: &mut E,
) -> u8
    requires ports { LeavesRoom options.now.listen }
    ensures ends { IsEnd E.may_fail result (E.held errors.old) (E.held errors.new) }
    ensures unopened { IfErr opened
        (λ why. SaysFault E.may_fail why result (E.held errors.old) (E.held errors.new) × (lines.new ≡ lines.old)) }
{
    let store = match opened {
        Ok(store) => store,
        Err(fault) => return refuse(errors, &Failure::NotOpened(fault)),
    };
    let limits = Limits::with_second(second(rt));
    match serve_store(rt, alloc, options, limits, store, around, lines) {
        Ok(()) => DONE,
        Err(failure) => refuse(errors, &failure),
    }
}
