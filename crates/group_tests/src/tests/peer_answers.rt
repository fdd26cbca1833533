//! Answers of peers as a node reads them, from memory.

use http_wire::{AnswerFault, Pair, Writing, read_answer};
use std::alloc::Global;
use std::process::Abort;
use std::test::Fail;

/// The limit of each answer.
const LIMIT: u64 = 65536;

/// What a peer sends, and what is read of it.
type Row = (&'static str, Result<&'static str, AnswerFault>);

const ROWS: [Row; 20] = [
    (
        "HTTP/1.1 200 OK\r\nContent-Length: 5\r\n\r\nhello",
        Ok("hello"),
    ),
    (
        "HTTP/1.1 200 OK\r\nContent-Length: 5\r\n\r\nhello, and more",
        Ok("hello"),
    ),
    (
        "HTTP/1.0 200\r\nServer: x\r\ncontent-length: 0\r\n\r\n",
        Ok(""),
    ),
    (
        "HTTP/1.1 404 Not Found\r\nContent-Length: 0\r\n\r\n",
        Err(AnswerFault::NotOk),
    ),
    ("HTTP/1.1 404 Not Found\r\n\r\n", Err(AnswerFault::NotOk)),
    (
        "HTTP/1.1 206 Partial Content\r\nContent-Length: 5\r\n\r\nhello",
        Err(AnswerFault::NotOk),
    ),
    (
        "HTTP/1.1 200 OK\r\nContent-Length: 65537\r\n\r\n",
        Err(AnswerFault::TooLong),
    ),
    (
        "HTTP/1.1 200 OK\r\nContent-Length: 18446744073709551615\r\n\r\nhello",
        Err(AnswerFault::TooLong),
    ),
    (
        "HTTP/1.1 200 OK\r\nContent-Length: 65536\r\n\r\nhello",
        Err(AnswerFault::ReadFault),
    ),
    (
        "HTTP/1.1 200 OK\r\nContent-Length: 6\r\n\r\nhello",
        Err(AnswerFault::ReadFault),
    ),
    (
        "HTTP/1.1 200 OK\r\nContent-Length: 5\r\n",
        Err(AnswerFault::ReadFault),
    ),
    ("hello", Err(AnswerFault::ReadFault)),
    ("", Err(AnswerFault::ReadFault)),
    ("hello\r\n\r\n", Err(AnswerFault::BadHead)),
    ("HTTP/1.1 200 OK\r\n\r\nhello", Err(AnswerFault::BadHead)),
    (
        "HTTP/1.1 200 OK\r\nContent-Length: 5\r\nContent-Length: 5\r\n\r\nhello",
        Err(AnswerFault::BadHead),
    ),
    (
        "HTTP/1.1 200 OK\r\nContent-Length: +5\r\n\r\nhello",
        Err(AnswerFault::BadHead),
    ),
    (
        "HTTP/1.1 200 OK\r\nContent-Length: 18446744073709551616\r\n\r\nhello",
        Err(AnswerFault::BadHead),
    ),
    (
        "HTTP/1.1 200 OK\r\nTransfer-Encoding: chunked\r\nContent-Length: 5\r\n\r\nhello",
        Err(AnswerFault::BadHead),
    ),
    (
        "GET / HTTP/1.1\r\nContent-Length: 5\r\n\r\nhello",
        Err(AnswerFault::BadHead),
    ),
];

/// What is read of a text.
fn read(alloc: Global, sent: &str) -> Result<Vec<u8>, AnswerFault> {
    let mut duplex = Pair {
        source: sent.as_bytes(),
        sink: Writing(Vec::new(alloc)),
    };
    read_answer(alloc, &mut duplex, LIMIT)
}

/// Whether a row is read as it says.
fn is_read_as(alloc: Global, row: &Row) -> bool {
    match (read(alloc, row.0), row.1) {
        (Ok(bytes), Ok(wanted)) => bytes.as_slice() == wanted.as_bytes(),
        (Err(fault), Err(wanted)) => fault == wanted,
        _ => false,
    }
}

fn assert_row(rt: &impl Abort, alloc: Global, row: &Row) {
    assert_eq!(rt; is_read_as(alloc, row), true, "{}", row.0);
}

#[test]
fn answers_are_read_whole_or_not_at_all(rt: HostRuntime) -> Result<(), Fail> {
    for row in &ROWS {
        assert_row(&rt, rt.alloc(), row);
    }
    Ok(())
}
