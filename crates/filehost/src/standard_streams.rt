//! The standard streams, as one stream in both directions.
ghost use Rattle.std.specs.Prelude.{◌<◌, ◌≤◌, ⊤, None, length};
ghost use Rattle.byte_slices.specs.Slices.{joined};
ghost use Rattle.http_wire.specs.Timing.{Moves};

use byte_slices::Slices;
use http_wire::{Duplex, Halt, ReadFailed, Reading, Sink, Source, Steady, WriteFailed, Writing};
use libc::STDERR_FILENO;
use libc::net::{POLLOUT, poll};
use libc::types::pollfd;
use std::os::fd::AsRawFd;
use std::rt::{Stderr, Stdin, Stdout};

/// The standard input and output. What comes in and goes out is not known here, so contracts see nothing of it. Several slices are written in one
/// call of the system.
#[derive(Drop)]
pub(crate) struct StandardStreams {
    pub input: Stdin,
    pub output: Stdout,
}

/// How many bytes the slices have together. If a `usize` doesn't hold the number, it is the greatest one.
fn total(slices: &Slices<'_>) -> usize
    ensures bound { result ≤ length (joined slices.now) }
    ensures some { 0 < length (joined slices.now) → 0 < result }
{
    let lengths = slices.first.len().saturating_add(slices.second.len());
    lengths
        .saturating_add(slices.third.len())
        .saturating_add(slices.fourth.len())
}

impl Duplex for StandardStreams {
    ghost left = { λ _. None };

    ghost held = { λ _. None };

    ghost read_fails = { ⊤ };

    ghost write_fails = { ⊤ };

    ghost waits = { λ _. ⊥ };

    ghost saw = { λ _ event _. Moves ⊤ ⊤ event None None None None };

    fn read_some(&mut self, buf: &mut [u8]) -> Result<usize, Halt<ReadFailed>> {
        Reading(self.input)
            .read_some(buf)
            .map_err(|failed| Halt::Failed(failed))
    }

    fn write_some(&mut self, bytes: &[u8]) -> Result<usize, Halt<WriteFailed>> {
        Writing(self.output)
            .write_some(bytes)
            .map_err(|failed| Halt::Failed(failed))
    }

    fn write_slices(&mut self, slices: &Slices<'_>) -> Result<usize, Halt<WriteFailed>> {
        let front = slices.front();
        let most = total(slices);
        if front.len() == most {
            return self.write_some(front);
        }
        let parts = [slices.first, slices.second, slices.third, slices.fourth];
        match usize::try_from(os::writev(self.output.as_raw_fd(), parts)) {
            Ok(count) if count > 0 => Ok(count.min(most)),
            _ => Err(Halt::Failed(WriteFailed)),
        }
    }

    ghost told = { λ _ _ _ seen. seen };
}

impl Steady for StandardStreams {
    ghost never_waits = { λ _ never. never };
}

/// The standard error, to which nothing is written that would have to wait. So whoever leaves its lines unread holds up nobody.
#[derive(Drop)]
pub(crate) struct ReadyErrors(pub Stderr);

/// Whether the standard error takes a line at once.
fn is_ready() -> bool {
    let mut errors = [pollfd {
        fd: STDERR_FILENO,
        events: POLLOUT,
        revents: 0,
    }];
    poll(&mut errors, 0) > 0
}

impl Sink for ReadyErrors {
    ghost held = { λ _. None };

    ghost may_fail = { ⊤ };

    fn write_some(&mut self, bytes: &[u8]) -> Result<usize, WriteFailed> {
        if is_ready() {
            Writing(self.0).write_some(bytes)
        } else {
            Err(WriteFailed)
        }
    }
}
