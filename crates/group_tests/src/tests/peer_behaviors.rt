//! What a peer may do with a connection over loopback on which it is asked for a chunk.

use super::fixtures::bytes_of;
use std::alloc::Global;
use std::io::{Read, Write};
use std::net::{TcpListener, TcpStream};
use std::sync::atomic::{AtomicU64, Ordering};
use std::time::{Clock, Duration};
use std::{io, thread};

/// How many milliseconds a late peer lets pass.
const LATE_MILLISECONDS: u64 = 500;

/// What the peer does with a connection.
#[derive(Clone, Copy, Debug, PartialEq, Eq)]
pub(super) enum Behavior {
    /// It answers the chunk.
    Right,
    /// It answers the chunk after a while.
    Late,
    /// It answers another chunk.
    Other,
    /// It answers all but the last byte of the chunk, and says so.
    Short,
    /// It announces the chunk, and leaves its last byte out.
    Cut,
    /// It answers a fault.
    Fault,
    /// It answers that it has no such chunk.
    Absent,
    /// It says something that is no answer, and closes.
    Hello,
    /// It answers a head that isn't one.
    BadHead,
    /// It closes at once.
    Close,
    /// It resets the connection, since it closes it before it has read the request.
    Reset,
    /// It answers a byte every fifth of a second.
    Drip,
    /// It answers nothing.
    Silent,
    /// It answers 65,537 bytes.
    Long,
    /// It answers a head without an end.
    Endless,
}

pub(super) const BEHAVIORS: [Behavior; 15] = [
    Behavior::Right,
    Behavior::Late,
    Behavior::Other,
    Behavior::Short,
    Behavior::Cut,
    Behavior::Fault,
    Behavior::Absent,
    Behavior::Hello,
    Behavior::BadHead,
    Behavior::Close,
    Behavior::Reset,
    Behavior::Drip,
    Behavior::Silent,
    Behavior::Long,
    Behavior::Endless,
];

/// Writes the head of an answer with so many bytes, and then these bytes.
fn answer(alloc: Global, stream: &TcpStream, length: usize, bytes: &[u8]) -> io::Result<()> {
    let mut stream = stream;
    let head = format!(in alloc; "HTTP/1.1 200 OK\r\nContent-Length: {length}\r\n\r\n")?;
    stream.write_all(head.as_bytes())?;
    stream.write_all(bytes)
}

/// The answer of a peer that always says the same.
fn said_by(behavior: Behavior) -> &'static [u8] {
    match behavior {
        Behavior::Fault => b"HTTP/1.1 503 Service Unavailable\r\nContent-Length: 0\r\n\r\n",
        Behavior::Absent => b"HTTP/1.1 404 Not Found\r\nContent-Length: 0\r\n\r\n",
        Behavior::Hello => b"hello",
        Behavior::BadHead => b"hello\r\n\r\n",
        _ => b"",
    }
}

/// Writes that.
fn say(stream: &TcpStream, behavior: Behavior) -> io::Result<()> {
    let mut stream = stream;
    stream.write_all(said_by(behavior))
}

/// Writes a text again and again, until so many times or until the reader is gone.
fn repeat<R: Clock>(
    rt: &R,
    stream: &TcpStream,
    text: &[u8],
    times: usize,
    pause: Duration,
) -> io::Result<()> {
    let mut stream = stream;
    for _ in 0..times {
        stream.write_all(text)?;
        thread::sleep(rt, pause);
    }
    Ok(())
}

/// Writes a head that is longer than any that is read.
fn answer_endlessly<R: Clock>(rt: &R, stream: &TcpStream) -> io::Result<()> {
    let mut stream = stream;
    stream.write_all(b"HTTP/1.1 200 OK\r\n")?;
    repeat(
        rt,
        stream,
        b"Content-Length: 20\r\n",
        2000,
        Duration::from_millis(0),
    )
}

/// Waits until the reader is gone, and no longer than 20 seconds.
pub(super) fn wait_for_end(stream: &TcpStream) -> io::Result<()> {
    let mut stream = stream;
    stream.set_read_timeout(Some(Duration::from_secs(20)))?;
    let mut buf = [0; 512];
    for _ in 0..8 {
        if stream.read(&mut buf)? == 0 {
            return Ok(());
        }
    }
    Ok(())
}

/// Does this with the chunk of a number.
fn tell<R: Clock>(
    rt: &R,
    alloc: Global,
    stream: &TcpStream,
    behavior: Behavior,
    number: usize,
) -> io::Result<()> {
    let right = bytes_of(alloc, number)?;
    let short = &right.as_slice()[..right.len().saturating_sub(1)];
    match behavior {
        Behavior::Right => answer(alloc, stream, right.len(), right.as_slice()),
        Behavior::Late => {
            thread::sleep(rt, Duration::from_millis(LATE_MILLISECONDS));
            answer(alloc, stream, right.len(), right.as_slice())
        }
        Behavior::Other => {
            let other = bytes_of(alloc, number.wrapping_add(1))?;
            answer(alloc, stream, other.len(), other.as_slice())
        }
        Behavior::Short => answer(alloc, stream, short.len(), short),
        Behavior::Cut => answer(alloc, stream, right.len(), short),
        Behavior::Fault | Behavior::Absent | Behavior::Hello | Behavior::BadHead => {
            say(stream, behavior)
        }
        Behavior::Close | Behavior::Reset => Ok(()),
        Behavior::Drip => repeat(rt, stream, b"H", 60, Duration::from_millis(200)),
        Behavior::Silent => wait_for_end(stream),
        Behavior::Long => {
            let long: Vec<u8> = Vec::from_elem(alloc, 7, 65537)?;
            answer(alloc, stream, long.len(), long.as_slice())
        }
        Behavior::Endless => answer_endlessly(rt, stream),
    }
}

/// Reads a request, or its first byte, or nothing.
fn read_request(stream: &TcpStream, behavior: Behavior) {
    let mut stream = stream;
    let mut buf = [0; 512];
    let _ = match behavior {
        Behavior::Close => Ok(0),
        Behavior::Reset => stream.read(&mut buf[..1]),
        _ => stream.read(&mut buf),
    };
}

/// Takes one connection, reads its request if it isn't closed at once, and does this with it.
pub(super) fn serve_one<R: Clock>(
    rt: &R,
    alloc: Global,
    listener: &TcpListener,
    behavior: Behavior,
    number: usize,
    calls: &AtomicU64,
) {
    let Ok((stream, _)) = listener.accept() else {
        return;
    };
    calls.fetch_add(1, Ordering::SeqCst);
    read_request(&stream, behavior);
    let _ = tell(rt, alloc, &stream, behavior, number);
}
