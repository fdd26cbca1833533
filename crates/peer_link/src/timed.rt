//! The two directions of a connection to a peer, until its time is over.
ghost use Rattle.std.specs.Prelude.{◌<◌, ◌≤◌, length, IfOk, None, ⊤};

use http_wire::{ReadFailed, Sink, Source, WriteFailed};
use std::io::{ErrorKind, Read, Write};
use std::net::TcpStream;
use std::time::{Clock, Duration};

/// How often a call is repeated that a signal interrupted.
const MOST_TRIES: u32 = 16;

/// How long something may take: until a time of a clock.
#[derive(Drop)]
pub(crate) struct Budget<'a, R> {
    rt: &'a R,
    end: Duration,
}

impl<'a, R: Clock> Budget<'a, R> {
    pub(crate) fn new(rt: &'a R, end: Duration) -> Budget<'a, R> {
        Budget { rt, end }
    }

    /// What is left of it; none once it is over, or if the clock can't tell the time.
    pub(crate) fn left(&self) -> Option<Duration> {
        let now = self.rt.monotonic().ok()?;
        let left = self.end.checked_sub(now)?;
        if left.is_zero() { None } else { Some(left) }
    }
}

/// What comes from a peer.
#[derive(Drop)]
pub(crate) struct TimedReads<'a, R> {
    pub(crate) stream: &'a TcpStream,
    pub(crate) budget: &'a Budget<'a, R>,
}

impl<R: Clock> Source for TimedReads<'_, R> {
    ghost left = { λ _. None };

    ghost may_fail = { ⊤ };

    fn read_some(&mut self, buf: &mut [u8]) -> Result<usize, ReadFailed> {
        let mut stream = self.stream;
        for _ in 0..MOST_TRIES {
            let left = self.budget.left().ok_or(ReadFailed)?;
            stream.set_read_timeout(Some(left)).map_err(|_| ReadFailed)?;
            match stream.read(buf) {
                Ok(count) => return Ok(count),
                Err(error) if error.kind() == ErrorKind::Interrupted => {}
                Err(_) => return Err(ReadFailed),
            }
        }
        Err(ReadFailed)
    }
}

/// What goes to a peer.
#[derive(Drop)]
pub(crate) struct TimedWrites<'a, R> {
    pub(crate) stream: &'a TcpStream,
    pub(crate) budget: &'a Budget<'a, R>,
}

impl<R: Clock> Sink for TimedWrites<'_, R> {
    ghost held = { λ _. None };

    ghost may_fail = { ⊤ };

    fn write_some(&mut self, bytes: &[u8]) -> Result<usize, WriteFailed> {
        let mut stream = self.stream;
        for _ in 0..MOST_TRIES {
            let left = self.budget.left().ok_or(WriteFailed)?;
            stream
                .set_write_timeout(Some(left))
                .map_err(|_| WriteFailed)?;
            match stream.write(bytes) {
                Ok(0) if !bytes.is_empty() => return Err(WriteFailed),
                Ok(count) => return Ok(count),
                Err(error) if error.kind() == ErrorKind::Interrupted => {}
                Err(_) => return Err(WriteFailed),
            }
        }
        Err(WriteFailed)
    }
}
