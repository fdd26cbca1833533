//! Requests of peers as a node answers them, in memory.
use byte_view::Chunk;
use host_names::Digest;
use http_wire::{Pair, Writing};
use peer_link::{LocalChunks, ServeFault, serve_peer};
use std::alloc::{AllocError, Global};
use std::process::Abort;
use std::sync::{Arc, Wait};
use std::test::Fail;

/// A node that has one chunk.
#[derive(Drop)]
pub(super) struct OneChunk {
    chunk: Arc<Chunk>,
}

impl LocalChunks for OneChunk {
    fn local<R: Wait>(&self, _rt: &R, key: &Digest) -> Option<Arc<Chunk>> {
        if self.chunk.name() != *key {
            return None;
        }
        Arc::try_clone(&self.chunk).ok()
    }
}

/// A node that has the chunk `hello`.
pub(super) fn hello(alloc: Global) -> Result<OneChunk, Fail> {
    let bytes = Vec::from_slice(alloc, b"hello")?;
    let name = Digest::of_bytes(bytes.as_slice());
    let chunk = Chunk::check(name, bytes)?;
    Ok(OneChunk {
        chunk: Arc::new(alloc, chunk)?,
    })
}

pub(super) const FOUND: &str = "HTTP/1.1 200 OK\r\nContent-Length: 5\r\n\r\nhello";

pub(super) const NOT_FOUND: &str = "HTTP/1.1 404 Not Found\r\nContent-Length: 0\r\n\r\n";

/// First lines of requests, and what they are answered. The node goes on after each.
const LINES: [(&str, &str); 9] = [
    (
        "GET /_groupcache/chunks/aaf4c61ddcc5e8a2dabede0f3b482cd9aea9434d HTTP/1.1",
        FOUND,
    ),
    (
        "GET /_groupcache/chunks/AAF4C61DDCC5E8A2DABEDE0F3B482CD9AEA9434D HTTP/1.1",
        FOUND,
    ),
    (
        "GET /_groupcache/chunks/a9993e364706816aba3e25717850c26c9cd0d89d HTTP/1.1",
        NOT_FOUND,
    ),
    (
        "GET /_groupcache/chunks/aaf4c61ddcc5e8a2dabede0f3b482cd9aea9434 HTTP/1.1",
        NOT_FOUND,
    ),
    (
        "GET /_groupcache/chunks/aaf4c61ddcc5e8a2dabede0f3b482cd9aea9434dd HTTP/1.1",
        NOT_FOUND,
    ),
    (
        "GET /_groupcache/aaf4c61ddcc5e8a2dabede0f3b482cd9aea9434d HTTP/1.1",
        NOT_FOUND,
    ),
    ("GET / HTTP/1.1", NOT_FOUND),
    (
        "HEAD /_groupcache/chunks/aaf4c61ddcc5e8a2dabede0f3b482cd9aea9434d HTTP/1.1",
        NOT_FOUND,
    ),
    (
        "POST /_groupcache/chunks/aaf4c61ddcc5e8a2dabede0f3b482cd9aea9434d HTTP/1.1",
        NOT_FOUND,
    ),
];

/// What is sent after these lines, what it is answered, and how the connection ends.
pub(super) type End = (&'static str, &'static str, Result<(), ServeFault>);

pub(super) const ENDS: [End; 7] = [
    ("", "", Ok(())),
    ("GET / HTTP/1.1\r\nHost", "", Ok(())),
    (
        "hello\r\n\r\nGET / HTTP/1.1\r\n\r\n",
        "",
        Err(ServeFault::BadHead),
    ),
    (
        "GET / HTTP/1.1\r\nContent-Length: 1\r\n\r\nx",
        "",
        Err(ServeFault::BadHead),
    ),
    (
        "GET / HTTP/1.1\r\nTransfer-Encoding: chunked\r\n\r\n",
        "",
        Err(ServeFault::BadHead),
    ),
    (
        "GET / HTTP/1.1\r\nConnection: close\r\n\r\nGET / HTTP/1.1\r\n\r\n",
        NOT_FOUND,
        Ok(()),
    ),
    (
        "GET / HTTP/1.0\r\n\r\nGET / HTTP/1.0\r\n\r\n",
        NOT_FOUND,
        Ok(()),
    ),
];

/// All that is sent, and all that it is answered.
pub(super) fn texts(alloc: Global, end: &End) -> Result<(String, String), AllocError> {
    let mut sent = String::new(alloc);
    let mut wanted = String::new(alloc);
    for (line, answer) in &LINES {
        sent.push_str(line)?;
        sent.push_str("\r\nHost: peer\r\n\r\n")?;
        wanted.push_str(answer)?;
    }
    sent.push_str(end.0)?;
    wanted.push_str(end.1)?;
    Ok((sent, wanted))
}

/// What a node writes, and how it ends.
fn serve<R: Wait>(
    rt: &R,
    alloc: Global,
    node: &OneChunk,
    sent: &str,
) -> (Vec<u8>, Result<(), ServeFault>) {
    let mut duplex = Pair {
        source: sent.as_bytes(),
        sink: Writing(Vec::new(alloc)),
    };
    let ended = serve_peer(rt, alloc, &mut duplex, node);
    let Pair { sink, .. } = duplex;
    let Writing(written) = sink;
    (written, ended)
}

fn assert_end<R: Abort + Wait>(
    rt: &R,
    alloc: Global,
    node: &OneChunk,
    end: &End,
) -> Result<(), Fail> {
    let (sent, wanted) = texts(alloc, end)?;
    let (written, ended) = serve(rt, alloc, node, sent.as_str());
    assert_eq!(rt; ended, end.2, "{}", end.0);
    assert_eq!(rt; written.as_slice(), wanted.as_bytes(), "{}", end.0);
    Ok(())
}

#[test]
fn peers_are_answered_until_one_sends_no_request(rt: HostRuntime) -> Result<(), Fail> {
    let node = hello(rt.alloc())?;
    for end in &ENDS {
        assert_end(&rt, rt.alloc(), &node, end)?;
    }
    Ok(())
}

fn assert_hundred<R: Abort + Wait>(rt: &R, alloc: Global, node: &OneChunk) -> Result<(), Fail> {
    let sent = "GET / HTTP/1.1\r\n\r\n".repeat(alloc, 101)?;
    let (written, ended) = serve(rt, alloc, node, sent.as_str());
    assert_eq!(rt; ended, Ok(()));
    assert_eq!(rt; written.len(), 100 * NOT_FOUND.len());
    Ok(())
}

#[test]
fn a_connection_of_a_peer_has_a_hundred_requests(rt: HostRuntime) -> Result<(), Fail> {
    let node = hello(rt.alloc())?;
    assert_hundred(&rt, rt.alloc(), &node)
}
