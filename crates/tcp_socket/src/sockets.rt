//! A socket that doesn't block, as a stream in both directions.
ghost use Rattle.std.specs.Prelude.{◌≡◌, ◌<◌, IfOk, MatchResult, None, Ok, false, ⊤};
ghost use Rattle.std.specs.Io.{WritesAtMost};
ghost use Rattle.byte_slices.specs.Slices.{joined};
ghost use Rattle.http_wire.specs.Halting.{Halts};
ghost use Rattle.http_wire.specs.Timing.{ReadFails, WriteFails};
ghost use Rattle.tcp_socket.specs.Trails.{moves, notes};

use crate::trails::Trail;
use byte_slices::Slices;
use http_wire::{Duplex, Halt, ReadFailed, WriteFailed};
use std::io;
use std::io::{ErrorKind, IoSlice, Read, Write};
use std::marker::Model;
use std::net::TcpStream;

/// A socket that doesn't block, lent for a step. It counts the bytes of the step. Contracts see what went over it so far: each read and each write, with its
/// bytes, as the system's call told. What its client will send and has got isn't known here.
#[derive(Drop)]
pub struct Socket<'a> {
    // None where the socket is elsewhere, so that each call would have to wait.
    stream: Option<&'a TcpStream>,
    read: u64,
    written: u64,
    // Whether a read gave less than it had room for, so that nothing more is there. The set tells of what comes then.
    is_drained: bool,
    // Whether a read gave nothing, so that nothing more will come.
    is_at_end: bool,
    trail: Trail,
}

impl<'a> Model for Socket<'a> {
    ghost use Rattle.std.specs.Prelude.{List};
    ghost use Rattle.http_wire.specs.Timing.{Event};

    ghost Value = { List Event };

    ghost view = { λ socket. socket.trail };
}

impl<'a> Socket<'a> {
    /// A socket over which this went before: in this step nothing was read from it or written to it.
    pub fn new(stream: &'a TcpStream, before: &Trail) -> Socket<'a>
        ensures { result ≡ before.now }
    {
        Socket::of(Some(stream), before)
    }

    /// A socket that is elsewhere, for a step that needs none: each call of it would have to wait.
    pub fn away(before: &Trail) -> Socket<'a>
        ensures { result ≡ before.now }
    {
        Socket::of(None, before)
    }

    fn of(stream: Option<&'a TcpStream>, before: &Trail) -> Socket<'a>
        ensures { result ≡ before.now }
    {
        Socket {
            stream,
            read: 0,
            written: 0,
            is_drained: false,
            is_at_end: false,
            trail: before.again(),
        }
    }

    /// What went over it so far.
    pub fn trail(&self) -> Trail
        ensures { result ≡ self.now }
    {
        self.trail.again()
    }

    /// How many bytes were read.
    pub fn read(&self) -> u64 {
        self.read
    }

    /// Whether the last read took all that was there.
    pub fn is_drained(&self) -> bool {
        self.is_drained
    }

    /// Whether all that the client sends was read.
    pub fn is_at_end(&self) -> bool {
        self.is_at_end
    }

    /// How many bytes were written.
    pub fn written(&self) -> u64 {
        self.written
    }

    // Counts what a write took of some bytes, or of none. One that took no byte of some has failed, which is noted.
    fn count_written(
        &mut self,
        taken: io::Result<usize>,
        is_empty: bool,
    ) -> Result<usize, Halt<WriteFailed>>
        ensures taken { IfOk result (λ count. taken ≡ Ok count) }
        ensures some { IfOk result (λ count. is_empty ≡ false → 0 < count) }
        ensures noted { MatchResult result (λ _. self.new ≡ self.old)
            (Halts notes (λ _. ⊤) WriteFails self.old self.new) }
    {
        let failed = match taken {
            Ok(0) if !is_empty => Halt::Failed(WriteFailed),
            Ok(count) => {
                self.written = self.written.saturating_add(count as u64);
                return Ok(count);
            }
            Err(error) => halt_of(&error, WriteFailed),
        };
        if let Halt::Failed(_) = &failed {
            self.trail.note_write_failed();
        }
        Err(failed)
    }

    // Why a read gave nothing. If it failed, that is noted.
    fn not_read(&mut self, error: &io::Error) -> Halt<ReadFailed>
        ensures { Halts notes (λ _. ⊤) ReadFails self.old self.new result }
    {
        let failed = halt_of(error, ReadFailed);
        if let Halt::Failed(_) = &failed {
            self.trail.note_read_failed();
        }
        failed
    }
}

/// Writes some bytes of slices to a stream, one slice after another, in one call of the system. If only one has bytes, that is a cheaper call.
pub fn write_to(stream: &TcpStream, slices: &Slices<'_>) -> io::Result<usize>
    ensures { WritesAtMost result (joined slices.now) }
{
    let all = [slices.first, slices.second, slices.third, slices.fourth];
    if all.iter().filter(|slice| !slice.is_empty()).count() < 2 {
        let mut stream = stream;
        return stream.write(slices.front());
    }
    stream.write_vectored(&[
        IoSlice::new(slices.first),
        IoSlice::new(slices.second),
        IoSlice::new(slices.third),
        IoSlice::new(slices.fourth),
    ])
}

// Why a call gave nothing. A signal that cuts a call short is no fault of the client: the call is made again once the socket is ready.
fn halt_of<E: Drop>(error: &io::Error, failed: E) -> Halt<E> {
    match error.kind() {
        ErrorKind::WouldBlock | ErrorKind::Interrupted => Halt::WouldWait,
        _ => Halt::Failed(failed),
    }
}

impl Duplex for Socket<'_> {
    ghost left = { λ _. None };

    ghost held = { λ _. None };

    ghost read_fails = { ⊤ };

    ghost write_fails = { ⊤ };

    ghost waits = { λ _. ⊤ };

    ghost saw = { notes };

    fn read_some(&mut self, buf: &mut [u8]) -> Result<usize, Halt<ReadFailed>> {
        if self.is_drained {
            return Err(Halt::WouldWait);
        }
        let Some(mut stream) = self.stream else {
            return Err(Halt::WouldWait);
        };
        match stream.read(buf) {
            Ok(count) => {
                self.is_drained = count > 0 && count < buf.len();
                self.is_at_end = count == 0 && !buf.is_empty();
                self.read = self.read.saturating_add(count as u64);
                self.trail.note_read(&buf[..count]);
                Ok(count)
            }
            Err(error) => Err(self.not_read(&error)),
        }
    }

    fn write_some(&mut self, bytes: &[u8]) -> Result<usize, Halt<WriteFailed>> {
        let Some(mut stream) = self.stream else {
            return Err(Halt::WouldWait);
        };
        let taken = stream.write(bytes);
        let count = self.count_written(taken, bytes.is_empty())?;
        self.trail.note_written(&bytes[..count]);
        Ok(count)
    }

    fn write_slices(&mut self, slices: &Slices<'_>) -> Result<usize, Halt<WriteFailed>> {
        let Some(stream) = self.stream else {
            return Err(Halt::WouldWait);
        };
        let taken = write_to(stream, slices);
        let count = self.count_written(taken, slices.is_empty())?;
        self.trail.note_slices(slices, count);
        Ok(count)
    }

    ghost told = { λ _ _ event _. moves event };
}
