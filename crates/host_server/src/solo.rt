//! The program's run: its words are read, and one connection is served.
ghost use Rattle.std.specs.Prelude.{◌⊎◌, ℕ, Err, List, map};
ghost use Rattle.command_line.specs.CommandLine.{Reads};
ghost use Rattle.host_server.specs.Solo.{IsEmptyServed, IsOutOfMemory, IsRefused, RunsSolo};

use crate::runs::{FAILED, OUT_OF_MEMORY, fail, serve_server};
use crate::servers::Server;
use crate::stores::run_folder;
use blob_store::{DirShelf, MemShelf, Shelf};
use change_undo::GREATEST_LIMIT;
use command_line::{Refusal, ServeOptions, Wanted, read};
use host_disk::{Disk, FileDisk, MemDisk};
use http_wire::{Sink, Steady};
use std::alloc::{AllocError, Global};
use std::convert::AsStr;
use std::fs::File;
use std::io::Eprint;
use std::rt::Files;

/// The exit status if the words ask for nothing that the program does.
const NOT_TAKEN: u8 = 1;

/// Writes that the words ask for nothing that the program does, or that memory ran out, and answers the exit status.
fn refuse<E: Sink>(errors: &mut E, refusal: Refusal) -> u8
    ensures { (words : List (List ℕ)) → Reads words (Err refusal)
        → IsRefused E.may_fail words result (E.held errors.old) (E.held errors.new)
        ⊎ IsOutOfMemory E.may_fail result (E.held errors.old) (E.held errors.new) }
{
    match refusal {
        Refusal::Shown(text) => fail(errors, NOT_TAKEN, text.as_str()),
        Refusal::OutOfMemory => fail(errors, FAILED, OUT_OF_MEMORY),
    }
}

/// Serves one connection over an empty server in memory, and answers the exit status. There may be no memory for the server.
fn run_in_memory<D: Steady, E: Sink>(alloc: Global, duplex: &mut D, errors: &mut E) -> u8
    ensures { IsEmptyServed ⟦<MemDisk as Disk>⟧ D.Duplex E.may_fail result
        duplex.old duplex.new (E.held errors.old) (E.held errors.new) }
{
    let made: Result<Server<MemShelf, MemDisk>, AllocError> = Server::new(
        alloc,
        MemShelf::new(alloc),
        GREATEST_LIMIT,
    );
    match made {
        Ok(server) => serve_server(alloc, server, duplex, errors),
        Err(_) => fail(errors, FAILED, OUT_OF_MEMORY),
    }
}

/// Runs the program for the words after its name, and answers its exit status. `solo` serves one connection over an empty server;
/// `solo --store DIR` serves one over the server that the folder keeps. If the status isn't 0, `errors` is told why; else nothing is written
/// there. If the words ask for `serve`, they are handed back, and nothing is read or written. What `open_folder` says of a lost journal is not
/// written to `errors`.
///
/// Memory may run out while the words are read, whatever they are: no contract tells when it does.
///
/// The contract speaks of the stream before and after, and not of its bytes alone: so it also says when the run reads, and that the stream
/// is left as it was if no store is opened.
pub fn run_solo<R: Files<File = File> + Eprint, S: AsStr, D: Steady, E: Sink>(
    rt: &R,
    alloc: Global,
    words: &[S],
    duplex: &mut D,
    errors: &mut E,
) -> Result<u8, ServeOptions>
    ensures { RunsSolo ⟦<MemDisk as Disk>⟧ ⟦<FileDisk<'static, R> as Disk>⟧ ⟦<DirShelf<'static, R> as Shelf>⟧ D.Duplex
        E.may_fail (map S.text words.now) result duplex.old duplex.new (E.held errors.old) (E.held errors.new) }
{
    match read(alloc, words) {
        Ok(Wanted::Solo { store: None }) => Ok(run_in_memory(alloc, duplex, errors)),
        Ok(
            Wanted::Solo {
                store: Some(folder),
            },
        ) => Ok(run_folder(rt, alloc, folder.as_str(), duplex, errors)),
        Ok(Wanted::Serve(options)) => Err(options),
        Err(refusal) => Ok(refuse(errors, refusal)),
    }
}
