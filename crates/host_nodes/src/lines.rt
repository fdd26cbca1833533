//! What the program says, and its exit status.
ghost use Rattle.host_nodes.specs.Ends.{SaysFailure};

use found_host::OpenFault;
use host_server::{fail, line_of, status_of};
use http_wire::{Sink, write_all};
use std::alloc::AllocError;

/// The exit status if a port can't be listened on.
const CANNOT_LISTEN: u8 = 2;

/// Why the nodes don't serve.
#[derive(Clone, Copy, Debug, PartialEq, Eq)]
pub(crate) enum Failure {
    /// The host can't be opened, or there was no memory for the nodes.
    NotOpened(OpenFault),
    /// A port can't be listened on.
    CannotListen,
}

impl From<AllocError> for Failure {
    ghost use Rattle.std.specs.Prelude.{◌≡◌};
    ghost use Rattle.found_host.specs.declared.faults.OpenFault.TheVariants.{OutOfMemory};
    ghost use Rattle.host_nodes.specs.declared.lines.Failure.TheVariants.{NotOpened};

    ghost from_gives = { λ _ failure. failure ≡ NotOpened OutOfMemory };

    fn from(_error: AllocError) -> Failure {
        Failure::NotOpened(OpenFault::OutOfMemory)
    }
}

/// Writes a line, as far as anyone listens.
pub(crate) fn say<E: Sink>(sink: &mut E, line: &str) {
    let _ = write_all(sink, line.as_bytes());
}

/// Says why the nodes don't serve, as far as that can be written, and answers the exit status.
pub(crate) fn refuse<E: Sink>(errors: &mut E, failure: &Failure) -> u8
    ensures { SaysFailure E.may_fail failure.now result (E.held errors.old) (E.held errors.new) }
{
    match failure {
        Failure::NotOpened(fault) => fail(errors, status_of(fault), line_of(fault).as_str()),
        Failure::CannotListen => fail(errors, CANNOT_LISTEN, "filehost: cannot listen\n"),
    }
}
