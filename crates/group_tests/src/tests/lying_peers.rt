//! A node whose peer gives or lies, over loopback: each read is right, and waits no longer than a fetch may take. What the peer gave right, also
//! late, is taken; else the read falls back to the source.

use super::fixtures::{Giver, is_chunk_of, names};
use super::gates::assert_count;
use super::node_fixtures::first_node;
use super::nodes_with_peers::{PEERS, number_of_others};
use super::peer_behaviors::{BEHAVIORS, Behavior, serve_one};
use chunk_group::{Counter, Group};
use host_names::Digest;
use operator_notices::Notices;
use peer_link::{Peer, TcpLink};
use peer_ring::DigestHash;
use std::alloc::Global;
use std::net::{Net, TcpListener, TcpStream};
use std::process::Abort;
use std::sync::Wait;
use std::sync::atomic::AtomicU64;
use std::test::Fail;
use std::thread;
use std::thread::Threads;
use std::time::{Clock, Duration, Instant};

/// How many milliseconds a read may take with such a peer: a fetch has 2,000.
const MOST_MILLISECONDS: u64 = 2500;

/// How often a read is made that other work may hold up.
const ATTEMPTS: u32 = 5;

type AskingNode<'s, 'l, R> = Group<DigestHash, Giver<'s>, TcpLink<'l, R>, Counter>;

/// Reads a chunk twice, and answers how many reads were right and how long the first took.
fn read_twice<R: Net<Stream = TcpStream> + Clock + Wait>(
    rt: &R,
    alloc: Global,
    node: &AskingNode<'_, '_, R>,
    name: &Digest,
    number: usize,
) -> Result<(usize, Duration), Fail> {
    let begun = Instant::now(rt)?;
    let first = node.get(rt, name);
    let took = begun.elapsed(rt)?;
    let second = node.get(rt, name);
    let mut right = 0;
    if is_chunk_of(alloc, &first, number)? {
        right += 1;
    }
    if is_chunk_of(alloc, &second, number)? {
        right += 1;
    }
    Ok((right, took))
}

/// Reads while another thread answers for the peer.
fn read_answered<R: Net<Stream = TcpStream> + Clock + Threads + Wait + Sync>(
    rt: &R,
    alloc: Global,
    node: &AskingNode<'_, '_, R>,
    listener: &TcpListener,
    behavior: Behavior,
    name: &Digest,
    number: usize,
    calls: &AtomicU64,
) -> Result<(usize, Duration), Fail> {
    thread::scope(thread::scope_env(), rt, |scope| {
        let server = scope.spawn(move || serve_one(rt, alloc, listener, behavior, number, calls));
        if server.is_err() {
            return Err(Fail::from("no thread"));
        }
        read_twice(rt, alloc, node, name, number)
    })
}

/// How often the source is asked for a chunk about which its owner tells this.
fn loads_of(behavior: Behavior) -> u64 {
    match behavior {
        Behavior::Right | Behavior::Late => 0,
        _ => 1,
    }
}

/// Asserts both reads of a chunk that another node owns, whose owner tells this, and who is asked for it. Answers how long the first took.
fn read_from<
    'x,
    R: Net<Listener = TcpListener, Stream = TcpStream> + Clock + Threads + Wait + Abort + Sync,
>(
    rt: &'x R,
    alloc: Global,
    names: &'x [Digest],
    number: usize,
    behavior: Behavior,
) -> Result<Duration, Fail> {
    let listener = TcpListener::bind(rt, "127.0.0.1:0")?;
    let address = listener.local_addr()?;
    let peers = [Peer::new(address), Peer::new(address), Peer::new(address)];
    let notices = Notices::new();
    let (loads, calls) = (AtomicU64::new(0), AtomicU64::new(0));
    let source = Giver::new(alloc, names, &[], &loads);
    let link = TcpLink::new(alloc, rt, &peers, &notices);
    let node = first_node(alloc, 100_000, &PEERS, source, link)?;
    let name = names.get(number).ok_or("no such chunk")?;
    let (right, took) = read_answered(rt, alloc, &node, &listener, behavior, name, number, &calls)?;
    assert_eq!(rt; right, 2, "{behavior:?}");
    assert_count(rt, &loads, loads_of(behavior), "loads from the source");
    assert_count(rt, &calls, 1, "calls of the peer");
    Ok(took)
}

/// Asserts this, and that the first read takes no longer than a fetch may. Other work may hold up one read, and not each.
fn assert_soon<
    R: Net<Listener = TcpListener, Stream = TcpStream> + Clock + Threads + Wait + Abort + Sync,
>(rt: &R, alloc: Global, names: &[Digest], number: usize, behavior: Behavior) -> Result<(), Fail> {
    for _ in 0..ATTEMPTS {
        let took = read_from(rt, alloc, names, number, behavior)?;
        if took < Duration::from_millis(MOST_MILLISECONDS) {
            return Ok(());
        }
    }
    Err(Fail::from("each read waited longer than a fetch may take"))
}

#[test]
fn a_read_is_right_and_soon_whatever_its_peer_answers(rt: HostRuntime) -> Result<(), Fail> {
    let names = names(rt.alloc(), 40)?;
    let number = number_of_others(rt.alloc(), names.as_slice())?;
    for behavior in BEHAVIORS {
        assert_soon(&rt, rt.alloc(), names.as_slice(), number, behavior)?;
    }
    Ok(())
}

/// Asserts both reads of such a chunk, whose owner is at a port that nobody has.
fn assert_unreached<'x, R: Net<Listener = TcpListener, Stream = TcpStream> + Clock + Wait + Abort>(
    rt: &'x R,
    alloc: Global,
    names: &'x [Digest],
    number: usize,
) -> Result<(), Fail> {
    let address = TcpListener::bind(rt, "127.0.0.1:0")?.local_addr()?;
    let peers = [Peer::new(address), Peer::new(address), Peer::new(address)];
    let notices = Notices::new();
    let loads = AtomicU64::new(0);
    let source = Giver::new(alloc, names, &[], &loads);
    let link = TcpLink::new(alloc, rt, &peers, &notices);
    let node = first_node(alloc, 100_000, &PEERS, source, link)?;
    let name = names.get(number).ok_or("no such chunk")?;
    let (right, _) = read_twice(rt, alloc, &node, name, number)?;
    assert_eq!(rt; right, 2);
    assert_count(rt, &loads, 1, "loads from the source");
    Ok(())
}

#[test]
fn a_read_is_right_where_its_peer_is_not_there(rt: HostRuntime) -> Result<(), Fail> {
    let names = names(rt.alloc(), 40)?;
    let number = number_of_others(rt.alloc(), names.as_slice())?;
    assert_unreached(&rt, rt.alloc(), names.as_slice(), number)
}
