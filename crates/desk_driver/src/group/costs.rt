//! What a fetch of a chunk costs beside the chunk itself.
use crate::group::Measured;
use crate::group::chunks::CHUNK;
use anyhow::{Result, anyhow};
use host_names::Digest;
use std::alloc::Global;
use std::io::Read;
use std::net::{Net, SocketAddr, TcpListener, TcpStream};
use std::sync::Wait;
use std::sync::atomic::{AtomicBool, AtomicU64, Ordering};
use std::thread;
use std::thread::Threads;
use std::time::{Clock, Duration, Instant};

/// The time of so many digests of a chunk.
pub(crate) fn time_digests<R: Clock>(rt: &R, alloc: Global, count: u64) -> Result<Measured> {
    let bytes: Vec<u8> = Vec::from_elem(alloc, 7, CHUNK)?;
    let mut sum = 0u64;
    let begun = Instant::now(rt)?;
    for _ in 0..count {
        let digest = Digest::of_bytes(bytes.as_slice());
        sum = sum.wrapping_add(u64::from(digest.0[0]));
    }
    Ok(Measured {
        took: begun.elapsed(rt)?,
        sum,
    })
}

/// Takes connections, each of which it ends at once, until it is told to stop.
fn take_all(listener: &TcpListener, taken: &AtomicU64, stop: &AtomicBool) {
    for stream in listener.incoming() {
        if stop.load(Ordering::SeqCst) {
            return;
        }
        if stream.is_ok() {
            taken.fetch_add(1, Ordering::SeqCst);
        }
    }
}

/// Makes a connection, and waits for its end.
fn connect<R: Net<Listener = TcpListener, Stream = TcpStream>>(
    rt: &R,
    address: &SocketAddr,
) -> Result<()> {
    let stream = TcpStream::connect_timeout(rt, address, Duration::from_secs(2))?;
    let mut buf = [0; 1];
    let _ = (&stream).read(&mut buf)?;
    Ok(())
}

/// Makes so many connections, one after another.
fn connect_all<R: Net<Listener = TcpListener, Stream = TcpStream> + Clock>(
    rt: &R,
    listener: &TcpListener,
    count: u64,
) -> Result<Duration> {
    let address = listener.local_addr()?;
    let begun = Instant::now(rt)?;
    for _ in 0..count {
        connect(rt, &address)?;
    }
    Ok(begun.elapsed(rt)?)
}

/// Lets who takes connections take one more, which tells it to stop.
fn stop_taking<R: Net<Listener = TcpListener, Stream = TcpStream>>(
    rt: &R,
    listener: &TcpListener,
    stop: &AtomicBool,
) {
    stop.store(true, Ordering::SeqCst);
    if let Ok(address) = listener.local_addr() {
        let _ = TcpStream::connect(rt, address);
    }
}

/// The same while a thread takes them.
fn connect_taken<
    R: Net<Listener = TcpListener, Stream = TcpStream> + Clock + Threads + Wait + Sync,
>(rt: &R, listener: &TcpListener, count: u64, taken: &AtomicU64) -> Result<Duration> {
    let stop = AtomicBool::new(false);
    let stop = &stop;
    thread::scope(thread::scope_env(), rt, |scope| {
        if scope
            .spawn(move || take_all(listener, taken, stop))
            .is_err()
        {
            return Err(anyhow!("no thread"));
        }
        let took = connect_all(rt, listener, count);
        stop_taking(rt, listener, stop);
        took
    })
}

/// The time of so many connections over loopback, one after another.
pub(crate) fn time_connections<
    R: Net<Listener = TcpListener, Stream = TcpStream> + Clock + Threads + Wait + Sync,
>(rt: &R, count: u64) -> Result<Measured> {
    let listener = TcpListener::bind(rt, "127.0.0.1:0")?;
    let taken = AtomicU64::new(0);
    let took = connect_taken(rt, &listener, count, &taken)?;
    Ok(Measured {
        took,
        sum: taken.load(Ordering::SeqCst),
    })
}
