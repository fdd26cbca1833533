//! The program `filehost`: its words, its standard streams and its exit status. All else is `host_server` and `host_nodes`.
#![tactic(auto)]

ghost use Rattle.std.specs.Prelude.{◌≡◌, ◌⊎◌, IfOk};
ghost use Rattle.host_nodes.specs.Ports.{HasPorts};

mod process;
mod standard_streams;

use blob_store::{DirShelf, FolderAccess, LockedAccess};
use command_line::ServeOptions;
use found_host::OpenFault;
use host_disk::FileDisk;
use host_nodes::{has_ports, open_memory, refuse_memory, refuse_ports, run_serve};
use host_server::{Store, open_folder, run_solo};
use http_wire::Writing;
use node_process::{GivingAccess, Halt, HaltingShelf, Stop, Surroundings};
use operator_notices::Notices;
use process::ThisProcess;
use standard_streams::{ReadyErrors, StandardStreams};
use std::alloc::Global;
use std::io::ErrorKind;
use std::process::ExitCode;
use std::sync::{Arc, Mutex};
use std::{env, io};

/// The exit status where a word is no text.
const NOT_TAKEN: u8 = 1;

/// The exit status where there was no memory for the words.
const FAILED: u8 = 2;

fn main(rt: HostRuntime) -> ExitCode {
    let options = match asked(&rt) {
        Ok(options) => options,
        Err(status) => return ExitCode::from(status),
    };
    // Only here has the runtime threads.
    let alloc = rt.alloc();
    let mut out = Writing(rt.stdout());
    let mut errors = Writing(rt.stderr());
    let Ok(notices) = Arc::new(alloc, Notices::new()) else {
        return ExitCode::from(refuse_memory(&mut errors));
    };
    let told = Mutex::new(ReadyErrors(rt.stderr()));
    let process = ThisProcess::new(&rt);
    let halt = Halt::new(&rt, &process);
    let stop = Stop::new();
    ExitCode::from(match &options.store {
        None => {
            let opened = open_memory(alloc);
            let around = Surroundings::new(&LockedAccess, &stop, &notices, &told, &process, &halt);
            run_serve(&rt, alloc, &options, opened, &around, &mut out, &mut errors)
        }
        Some(folder) => {
            let (opened, shelf) = folder_store(&rt, alloc, folder.as_str(), &notices, &halt);
            let access = GivingAccess::new(&shelf, &stop);
            let around = Surroundings::new(&access, &stop, &notices, &told, &process, &halt);
            run_serve(&rt, alloc, &options, opened, &around, &mut out, &mut errors)
        }
    })
}

/// What is opened of a store in a folder.
type OpenedFolder<'a> = Store<
    FileDisk<'a, HostRuntime>,
    HaltingShelf<'a, DirShelf<'a, HostRuntime>, HostRuntime, ThisProcess<'a>>,
>;

/// Opens the store in a folder: its disks tell why a call failed, and the opening of its shelf stops once the program is asked to end.
fn opened_folder<'a>(
    rt: &'a HostRuntime,
    alloc: Global,
    folder: &str,
    notices: &'a Notices,
    halt: &'a Halt<'a, HostRuntime, ThisProcess<'a>>,
) -> Result<OpenedFolder<'a>, OpenFault> {
    let store = open_folder(rt, alloc, folder)?;
    Ok(Store {
        first: store.first.told(notices),
        second: store.second.told(notices),
        shelf: HaltingShelf::new(store.shelf, halt),
    })
}

/// The store in a folder, as it is opened, and how threads reach its files.
fn folder_store<'a>(
    rt: &'a HostRuntime,
    alloc: Global,
    folder: &'a str,
    notices: &'a Notices,
    halt: &'a Halt<'a, HostRuntime, ThisProcess<'a>>,
) -> (
    Result<OpenedFolder<'a>, OpenFault>,
    FolderAccess<'a, HostRuntime>,
) {
    let opened = opened_folder(rt, alloc, folder, notices, halt);
    let access = FolderAccess::new(rt, alloc, folder, notices);
    (opened, access)
}

/// What `serve` is told, if the words ask for that and its port leaves room; else the exit status.
fn asked(rt: &HostRuntime) -> Result<ServeOptions, u8>
    ensures { IfOk result (λ options. HasPorts options.listen) }
{
    let options = match words(rt) {
        Ok(words) => match run(rt, words.as_slice()) {
            Ok(status) => return Err(status),
            Err(options) => options,
        },
        Err(error) => return Err(fail(rt, &error)),
    };
    if !has_ports(&options) {
        return Err(refuse_ports(&mut Writing(rt.stderr())));
    }
    Ok(options)
}

/// The words after the program's name.
fn words(rt: &HostRuntime) -> io::Result<Vec<String>> {
    Ok(env::args(rt)?.skip(1).collect(rt.alloc())?)
}

/// Runs the program on its standard streams, and answers its exit status; or what `serve` is told, if the words ask for that.
fn run(rt: &HostRuntime, words: &[String]) -> Result<u8, ServeOptions> {
    let mut duplex = StandardStreams {
        input: rt.stdin(),
        output: rt.stdout(),
    };
    let mut errors = Writing(rt.stderr());
    run_solo(rt, rt.alloc(), words, &mut duplex, &mut errors)
}

/// Says why the words can't be read, as far as anyone listens, and answers the exit status.
fn fail(rt: &HostRuntime, error: &io::Error) -> u8
    ensures { (result ≡ 1) ⊎ (result ≡ 2) }
{
    if error.kind() == ErrorKind::OutOfMemory {
        let _ = rt.eprint("filehost: out of memory\n");
        return FAILED;
    }
    let _ = rt.eprint("filehost: an argument is no text\n");
    NOT_TAKEN
}
