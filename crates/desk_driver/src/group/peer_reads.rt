//! Reads through a node that asks its peers over loopback.
use crate::group::Measured;
use crate::group::chunks::names;
use crate::group::loopback::{
    CHUNKS, Loads, PeerNode, Ports, SERVERS, new_nodes, ring_of, serve, stop_all,
};
use anyhow::{Result, anyhow};
use host_names::Digest;
use peer_link::TcpLink;
use std::alloc::Global;
use std::net::{Net, SocketAddr, TcpListener, TcpStream};
use std::sync::Wait;
use std::sync::atomic::{AtomicBool, AtomicU64, Ordering};
use std::thread;
use std::thread::Threads;
use std::time::{Clock, Instant};

/// How many threads read.
const ASKERS: u64 = 8;

/// How many chunks of other nodes are read once they are kept.
const HOT_CHUNKS: usize = 64;

/// How often each of them is read first: of so many fetches in a row one at least is kept.
const DRAWS: u32 = 10;

/// How often each of them is read then.
const ROUNDS: u64 = 5000;

/// What threads read between them: how many chunks were taken to be read, and what came of it.
#[derive(Drop)]
struct Reads {
    taken: AtomicU64,
    bytes: AtomicU64,
    failed: AtomicU64,
}

impl Reads {
    fn new() -> Reads {
        Reads {
            taken: AtomicU64::new(0),
            bytes: AtomicU64::new(0),
            failed: AtomicU64::new(0),
        }
    }

    /// The bytes that were read, if all reads gave a chunk.
    fn all_bytes(&self) -> Result<u64> {
        if self.failed.load(Ordering::SeqCst) > 0 {
            return Err(anyhow!("a read or a thread failed"));
        }
        Ok(self.bytes.load(Ordering::SeqCst))
    }
}

/// Reads a chunk, and counts its bytes.
fn read<R: Net<Stream = TcpStream> + Clock + Wait>(
    rt: &R,
    node: &PeerNode<'_, '_, R>,
    name: &Digest,
    reads: &Reads,
) {
    match node.get(rt, name) {
        Ok(chunk) => reads
            .bytes
            .fetch_add(chunk.view().len() as u64, Ordering::SeqCst),
        Err(_) => reads.failed.fetch_add(1, Ordering::SeqCst),
    };
}

/// Reads the next chunk that no thread has taken, until there is none.
fn read_in_turn<R: Net<Stream = TcpStream> + Clock + Wait>(
    rt: &R,
    node: &PeerNode<'_, '_, R>,
    names: &[Digest],
    reads: &Reads,
) {
    for _ in 0..names.len() {
        let number = reads.taken.fetch_add(1, Ordering::SeqCst);
        let Some(name) = names.get(number as usize) else {
            return;
        };
        read(rt, node, name, reads);
    }
}

/// All threads that read. One that can't be made counts as failed.
fn read_all<R: Net<Listener = TcpListener, Stream = TcpStream> + Clock + Threads + Wait + Sync>(
    rt: &R,
    node: &PeerNode<'_, '_, R>,
    names: &[Digest],
    reads: &Reads,
) {
    thread::scope(thread::scope_env(), rt, |scope| {
        for _ in 0..ASKERS {
            if scope
                .spawn(move || read_in_turn(rt, node, names, reads))
                .is_err()
            {
                reads.failed.fetch_add(1, Ordering::SeqCst);
            }
        }
    });
}

/// The time in which all chunks are read once, by all threads.
fn time_all<R: Net<Listener = TcpListener, Stream = TcpStream> + Clock + Threads + Wait + Sync>(
    rt: &R,
    node: &PeerNode<'_, '_, R>,
    names: &[Digest],
) -> Result<Measured> {
    let reads = Reads::new();
    let begun = Instant::now(rt)?;
    read_all(rt, node, names, &reads);
    let took = begun.elapsed(rt)?;
    Ok(Measured {
        took,
        sum: reads.all_bytes()?,
    })
}

/// Reads chunks of other nodes so often that each is kept.
fn fetch_hot<R: Net<Stream = TcpStream> + Clock + Wait>(
    rt: &R,
    node: &PeerNode<'_, '_, R>,
    hot: &[Digest],
) -> Result<()> {
    for name in hot {
        for _ in 0..DRAWS {
            let _ = node.get(rt, name)?;
        }
    }
    Ok(())
}

/// The time in which the first node is filled, while threads answer the peers of each. Then it keeps what is hot.
fn fill_served<R: Net<Listener = TcpListener, Stream = TcpStream> + Clock + Threads + Wait + Sync>(
    rt: &R,
    alloc: Global,
    ports: &Ports,
    nodes: &[PeerNode<'_, '_, R>; 3],
    names: &[Digest],
    hot: &[Digest],
) -> Result<Measured> {
    let stop = AtomicBool::new(false);
    let stop = &stop;
    thread::scope(thread::scope_env(), rt, |scope| {
        for (listener, node) in ports.listeners.iter().zip(nodes.iter()) {
            for _ in 0..SERVERS {
                let _ = scope.spawn(move || serve(rt, alloc, listener, node, stop));
            }
        }
        let filled = time_all(rt, &nodes[0], names);
        let kept = fetch_hot(rt, &nodes[0], hot);
        stop_all(rt, &ports.addresses, stop);
        kept?;
        filled
    })
}

/// The same of nodes that are new.
fn fill_new<'x, R: Net<Listener = TcpListener, Stream = TcpStream> + Clock + Threads + Wait + Sync>(
    rt: &'x R,
    alloc: Global,
    ports: &'x Ports,
    loads: &'x Loads,
    names: &'x [Digest],
) -> Result<Measured> {
    let link = TcpLink::new(alloc, rt, &ports.peers, &ports.notices);
    let nodes = new_nodes(alloc, &ports.addresses, names, loads, link)?;
    fill_served(rt, alloc, ports, &nodes, names, &[])
}

/// A port by its number.
fn port_of(number: u64) -> Result<u16> {
    u16::try_from(number).ok().ok_or(anyhow!("no such port"))
}

/// The time in which a node that is new is filled, over these ports. The sum has what it loaded itself, too.
pub(crate) fn time_fill<
    R: Net<Listener = TcpListener, Stream = TcpStream> + Clock + Threads + Wait + Sync,
>(rt: &R, alloc: Global, port: u64) -> Result<Measured> {
    let names = names(alloc, CHUNKS)?;
    let loads = Loads::new();
    let ports = Ports::new(rt, port_of(port)?)?;
    let Measured { took, sum } = fill_new(rt, alloc, &ports, &loads, names.as_slice())?;
    Ok(Measured {
        took,
        sum: sum.wrapping_add(loads.of_first()),
    })
}

/// The first chunks that another node owns than the first.
fn chunks_of_others(
    alloc: Global,
    addresses: &[SocketAddr; 3],
    names: &[Digest],
) -> Result<Vec<Digest>> {
    let ring = ring_of(alloc, addresses)?;
    let mut others = Vec::new(alloc);
    for name in names {
        if others.len() < HOT_CHUNKS && ring.owner(name.to_hex().as_bytes()) != 0 {
            others.push(*name)?;
        }
    }
    Ok(others)
}

/// Reads the chunks of these names, and counts their bytes.
fn read_hot<R: Net<Stream = TcpStream> + Clock + Wait>(
    rt: &R,
    node: &PeerNode<'_, '_, R>,
    hot: &[Digest],
) -> Result<u64> {
    let mut sum = 0u64;
    for name in hot {
        let chunk = node.get(rt, name)?;
        sum = sum.wrapping_add(chunk.view().len() as u64);
    }
    Ok(sum)
}

/// The time of all reads of what is hot.
fn time_hot<R: Net<Stream = TcpStream> + Clock + Wait>(
    rt: &R,
    node: &PeerNode<'_, '_, R>,
    hot: &[Digest],
) -> Result<Measured> {
    let mut sum = 0u64;
    let begun = Instant::now(rt)?;
    for _ in 0..ROUNDS {
        sum = sum.wrapping_add(read_hot(rt, node, hot)?);
    }
    Ok(Measured {
        took: begun.elapsed(rt)?,
        sum,
    })
}

/// The same after a fill of nodes that are new. Nobody answers any more, so that one that isn't kept would be loaded.
fn time_hot_of_new<
    'x,
    R: Net<Listener = TcpListener, Stream = TcpStream> + Clock + Threads + Wait + Sync,
>(
    rt: &'x R,
    alloc: Global,
    ports: &'x Ports,
    loads: &'x Loads,
    names: &'x [Digest],
    hot: &[Digest],
) -> Result<Measured> {
    let link = TcpLink::new(alloc, rt, &ports.peers, &ports.notices);
    let nodes = new_nodes(alloc, &ports.addresses, names, loads, link)?;
    let _ = fill_served(rt, alloc, ports, &nodes, names, hot)?;
    let loaded = loads.of_first();
    let measured = time_hot(rt, &nodes[0], hot)?;
    if loads.of_first() != loaded {
        return Err(anyhow!("a chunk was loaded while reads were timed"));
    }
    Ok(measured)
}

/// The time of reads of chunks of other nodes that are kept.
pub(crate) fn time_hits<
    R: Net<Listener = TcpListener, Stream = TcpStream> + Clock + Threads + Wait + Sync,
>(rt: &R, alloc: Global, port: u64) -> Result<Measured> {
    let names = names(alloc, CHUNKS)?;
    let loads = Loads::new();
    let ports = Ports::new(rt, port_of(port)?)?;
    let hot = chunks_of_others(alloc, &ports.addresses, names.as_slice())?;
    time_hot_of_new(rt, alloc, &ports, &loads, names.as_slice(), hot.as_slice())
}
