//! A peer that takes connections and answers nothing, and then answers again, over loopback. A reply that needs 16 chunks waits for it once, the next reply not
//! at all; after a while it is asked again. The operator is told of both.

use super::gates::assert_count;
use super::node_fixtures::first_node;
use super::peer_behaviors::wait_for_end;
use blob_store::{AbsenceReceipt, Blobs, Files, LockedAccess, MemShelf, PutReceipt, ShelfAccess};
use byte_view::BlobInfo;
use chunk_group::{Counter, Group, SharedSource, Source};
use http_wire::{Pair, Reading, Writing};
use operator_notices::{Kind, Notices};
use peer_link::{LocalChunks, NoLink, Peer, TcpLink, serve_peer};
use peer_ring::DigestHash;
use std::alloc::{AllocError, Global};
use std::net::{Net, SocketAddr, TcpListener, TcpStream};
use std::process::Abort;
use std::sync::atomic::{AtomicBool, AtomicU64, Ordering};
use std::sync::{Arc, Mutex, Wait};
use std::test::Fail;
use std::thread;
use std::thread::Threads;
use std::time::{Clock, Duration, Instant};

/// How many bytes the file has: 16 pieces.
const SIZE: usize = 1_048_576;

/// The names of the nodes. The first of them is read through.
const NAMES: [&str; 2] = ["node0", "node1"];

/// How many seconds a reply may take, of which it may wait two for its peer. If each of the chunks that the peer owns had two, these would be more.
const MOST_SECONDS: u64 = 10;

/// How many milliseconds a peer is passed over, and some more.
const PASSED_OVER: u64 = 5_100;

type AskingNode<'l, R, S> = Group<DigestHash, S, TcpLink<'l, R>, Counter>;

/// What the peer does.
#[derive(Drop)]
struct Script {
    answers: AtomicBool,
    is_over: AtomicBool,
    calls: AtomicU64,
}

impl Script {
    /// At first it answers nothing.
    fn new() -> Script {
        Script {
            answers: AtomicBool::new(false),
            is_over: AtomicBool::new(false),
            calls: AtomicU64::new(0),
        }
    }

    /// How often it was asked.
    fn calls(&self) -> u64 {
        self.calls.load(Ordering::SeqCst)
    }
}

/// Answers a connection, or waits until it is gone.
fn answer<R: Wait, C: LocalChunks>(
    rt: &R,
    alloc: Global,
    stream: &TcpStream,
    chunks: &C,
    script: &Script,
) {
    script.calls.fetch_add(1, Ordering::SeqCst);
    if !script.answers.load(Ordering::SeqCst) {
        let _ = wait_for_end(stream);
        return;
    }
    let mut duplex = Pair {
        source: Reading(stream),
        sink: Writing(stream),
    };
    let _ = serve_peer(rt, alloc, &mut duplex, chunks);
}

/// Takes connections until it is over.
fn serve<R: Wait, C: LocalChunks>(
    rt: &R,
    alloc: Global,
    listener: &TcpListener,
    chunks: &C,
    script: &Script,
) {
    for stream in listener.incoming() {
        if script.is_over.load(Ordering::SeqCst) {
            return;
        }
        if let Ok(stream) = stream {
            answer(rt, alloc, &stream, chunks, script);
        }
    }
}

/// How long a reply takes that has the whole file.
fn time_reply<R: Net<Stream = TcpStream> + Clock + Wait, S: Source + Copy>(
    rt: &R,
    node: &AskingNode<'_, R, S>,
    info: &Arc<BlobInfo>,
) -> Result<Duration, Fail> {
    if info.len() != SIZE {
        return Err(Fail::from("not the file"));
    }
    let begun = Instant::now(rt)?;
    let info = Arc::try_clone(info)?;
    let _hold = node.hold(rt, &mut node.link(), info, 0, SIZE - 1)?;
    Ok(begun.elapsed(rt)?)
}

/// How long a reply takes; asserts that it isn't too long.
fn assert_reply<R: Net<Stream = TcpStream> + Clock + Wait + Abort, S: Source + Copy>(
    rt: &R,
    node: &AskingNode<'_, R, S>,
    info: &Arc<BlobInfo>,
) -> Result<Duration, Fail> {
    let took = time_reply(rt, node, info)?;
    assert_eq!(rt; took < Duration::from_secs(MOST_SECONDS), true, "{took:?}");
    Ok(took)
}

/// Asserts that a reply takes at least a second less than one that took so long.
fn assert_quicker<R: Net<Stream = TcpStream> + Clock + Wait + Abort, S: Source + Copy>(
    rt: &R,
    node: &AskingNode<'_, R, S>,
    info: &Arc<BlobInfo>,
    first: Duration,
) -> Result<(), Fail> {
    let took = time_reply(rt, node, info)?;
    let is_quicker = took.saturating_add(Duration::from_secs(1)) < first;
    assert_eq!(rt; is_quicker, true, "{took:?} after {first:?}");
    Ok(())
}

/// Asserts that the operator is told this of the peer.
fn assert_told(
    rt: &impl Abort,
    alloc: Global,
    notices: &Notices,
    address: SocketAddr,
    what: &str,
) -> Result<(), Fail> {
    let wanted = format!(in alloc; "node {address} {what}")?;
    let notice = notices
        .take(Kind::Peer)
        .ok_or("the operator is told nothing")?;
    assert_eq!(rt; notice.text.as_str(), wanted.as_str());
    assert_eq!(rt; notice.more, 0);
    Ok(())
}

/// Asserts what replies cost while the peer hangs, and that it is asked again once it answers.
fn assert_replies<R: Net<Stream = TcpStream> + Clock + Wait + Abort, S: Source + Copy>(
    rt: &R,
    alloc: Global,
    node: &AskingNode<'_, R, S>,
    info: &Arc<BlobInfo>,
    address: SocketAddr,
    notices: &Notices,
    script: &Script,
) -> Result<(), Fail> {
    let first = assert_reply(rt, node, info)?;
    assert_count(rt, &script.calls, 1, "calls of a peer that hangs");
    assert_told(rt, alloc, notices, address, "is passed over for 5 seconds")?;
    assert_quicker(rt, node, info, first)?;
    assert_count(rt, &script.calls, 1, "calls of a peer that is passed over");
    script.answers.store(true, Ordering::SeqCst);
    thread::sleep(rt, Duration::from_millis(PASSED_OVER));
    let _ = assert_reply(rt, node, info)?;
    assert_eq!(rt; script.calls() > 2, true, "it is asked again");
    assert_told(rt, alloc, notices, address, "answers again")
}

/// Asserts this of a node, while another thread is the peer, whose chunks are those of another node.
fn assert_served<
    R: Net<Stream = TcpStream> + Clock + Threads + Wait + Abort + Sync,
    C: LocalChunks + Sync,
    S: Source + Copy,
>(
    rt: &R,
    alloc: Global,
    listener: &TcpListener,
    chunks: &C,
    node: &AskingNode<'_, R, S>,
    info: &Arc<BlobInfo>,
    notices: &Notices,
) -> Result<(), Fail> {
    let address = listener.local_addr()?;
    let script = Script::new();
    let told = &script;
    thread::scope(thread::scope_env(), rt, |scope| {
        let server = scope.spawn(move || serve(rt, alloc, listener, chunks, told));
        if server.is_err() {
            return Err(Fail::from("no thread"));
        }
        let done = assert_replies(rt, alloc, node, info, address, notices, told);
        told.is_over.store(true, Ordering::SeqCst);
        let _ = TcpStream::connect(rt, address);
        done
    })
}

/// Asserts this of a node and its peer, which read the file from this source. Neither keeps a chunk.
fn assert_over<
    'x,
    R: Net<Listener = TcpListener, Stream = TcpStream> + Clock + Threads + Wait + Abort + Sync,
    S: Source + Copy + Send + Sync,
>(rt: &'x R, alloc: Global, source: S, info: &Arc<BlobInfo>) -> Result<(), Fail> {
    let listener = TcpListener::bind(rt, "127.0.0.1:0")?;
    let address = listener.local_addr()?;
    let peers = [Peer::new(address), Peer::new(address)];
    let notices = Notices::new();
    let link = TcpLink::new(alloc, rt, &peers, &notices);
    let node = first_node(alloc, 0, &NAMES, source, link)?;
    let peer = first_node(alloc, 0, &["node1"], source, NoLink)?;
    assert_served(rt, alloc, &listener, &peer, &node, info, &notices)
}

/// Asserts this over a shelf that has the file.
fn assert_over_shelf<
    R: Net<Listener = TcpListener, Stream = TcpStream> + Clock + Threads + Wait + Abort + Sync,
    Q: ShelfAccess<MemShelf, U, N> + Sync,
    U: PutReceipt + Drop + Send + Sync,
    N: AbsenceReceipt + Drop + Send + Sync,
>(
    rt: &R,
    alloc: Global,
    files: &Mutex<Files<MemShelf>>,
    access: &Q,
    info: &Arc<BlobInfo>,
) -> Result<(), Fail> {
    assert_over(rt, alloc, SharedSource::new(rt, files, access), info)
}

/// A file, no two pieces of which are the same.
fn file(alloc: Global) -> Result<Vec<u8>, AllocError> {
    let mut file = Vec::with_capacity(alloc, SIZE)?;
    for place in 0..SIZE {
        file.push((place % 251) as u8)?;
    }
    Ok(file)
}

#[test]
fn a_peer_that_hangs_costs_one_wait_and_is_asked_again(rt: HostRuntime) -> Result<(), Fail> {
    let alloc = rt.alloc();
    let mut blobs = Blobs::new(alloc, MemShelf::new(alloc));
    let info = blobs.upload(file(alloc)?.as_slice())?;
    let files = Mutex::new(blobs.into_parts().1);
    assert_over_shelf(&rt, alloc, &files, &LockedAccess, &info)
}
