//! A server of its own for each thing that is asked of one. No other function owns a server, since that makes its proof slow.
ghost use Rattle.std.specs.Prelude.{◌≡◌};

use crate::calls::serving::OfServer;
use crate::numbers::say;
use crate::steps::serving::written;
use anyhow::Result;
use blob_store::MemShelf;
use change_undo::GREATEST_LIMIT;
use host_disk::MemDisk;
use host_server::Server;
use std::alloc::{AllocError, Global};

/// What is asked of a server, which has no entries at first.
#[derive(Clone, Copy)]
pub(crate) enum Asked<'a> {
    /// The number of a measurement, with so many files or changes.
    Measure(OfServer, u64),
    /// What it writes to the connection of a line.
    Serve(&'a str),
}

/// A server without entries, whose files are in memory.
fn empty_server(alloc: Global) -> Result<Server<MemShelf, MemDisk>, AllocError> {
    Server::new(alloc, MemShelf::new(alloc), GREATEST_LIMIT)
}

/// Serves the connection of a line, and prints what was written.
fn serve(rt: &HostRuntime, server: &mut Server<MemShelf, MemDisk>, line: &str) -> Result<()> {
    let written = written(rt.alloc(), server, line)?;
    let digits = hex::encode(rt.alloc(), written.as_slice())?;
    Ok(println!(rt; "{digits}")?)
}

/// Prints what a server answers.
fn answer(
    rt: &HostRuntime,
    server: &mut Server<MemShelf, MemDisk>,
    asked: Asked<'_>,
) -> Result<()> {
    match asked {
        Asked::Measure(calls, count) => say(rt, calls.run(rt, server, count)?),
        Asked::Serve(line) => serve(rt, server, line),
    }
}

/// Prints what a new server answers.
pub(crate) fn ask(rt: &HostRuntime, asked: Asked<'_>) -> Result<()> {
    let mut server = empty_server(rt.alloc())?;
    answer(rt, &mut server, asked)
}
