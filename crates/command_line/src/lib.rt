//! The words of the program's command line.
#![tactic(auto)]

pub mod laws;
mod options;
mod serve_options;
mod serve_words;
mod texts;

ghost use Rattle.std.specs.Prelude.{◌≡◌, ◌≢◌, [], IfOk, codes, false, map, option_map};
ghost use Rattle.std.specs.String.{string_bytes};
ghost use Rattle.clap.specs.Words.{app_of, first_of, found_of, kind_of, new_app, rows_of};
ghost use Rattle.clap.specs.declared.builder.command.Command.TheViews.{out-Command};
ghost use Rattle.command_line.specs.CommandLine.{HasText, Reads, ReadsMatches, filehost, wanting};
ghost use Rattle.command_line.specs.declared.Refusal.TheVariants.{OutOfMemory};

use crate::options::{text_option, with_command, with_option};
use crate::serve_words::{Misread, options_in, serve_command};
use crate::texts::{ABOUT, ABOUT_SOLO, ABOUT_STORE, EXAMPLE, MORE_ON_SOLO};
use clap::error::ErrorKind;
use clap::{ArgMatches, Command, Error};
pub use serve_options::ServeOptions;
use std::alloc::{AllocError, Global};
use std::convert::AsStr;

const NOT_TAKEN: &str = "filehost: these arguments are not taken\n";

const BAD_ADDRESS: &str = "filehost: bad address\n";

/// What the command line asks for.
#[derive(Debug, Drop, PartialEq, Eq)]
pub enum Wanted {
    /// Serve one connection on standard input and standard output.
    Solo {
        /// The folder that keeps the host, if one does.
        store: Option<String>,
    },
    /// Serve clients over TCP.
    Serve(ServeOptions),
}

/// Why the command line asks for nothing that the program does.
#[derive(Debug, Drop, thiserror::Error)]
pub enum Refusal {
    /// The words have a mistake, or ask for help or the version. This is the text to show.
    #[error("{0}")]
    Shown(String),
    /// Memory ran out.
    #[error("memory ran out")]
    OutOfMemory,
}

impl From<AllocError> for Refusal {
    ghost from_gives = { λ _ e. e ≡ OutOfMemory };

    fn from(_error: AllocError) -> Refusal {
        Refusal::OutOfMemory
    }
}

/// Reads the words after the program's name.
///
/// If they ask for nothing that the program does, the answer has the text to show, unless memory runs out. The contract can't say that
/// memory suffices: `clap` excludes `OutOfMemory` for no words.
pub fn read<S: AsStr>(alloc: Global, words: &[S]) -> Result<Wanted, Refusal>
    ensures { Reads (map S.text words.now) result }
{
    let command = commands(alloc)?;
    match command.try_get_matches_from(words) {
        Ok(matches) => read_matches(alloc, &matches),
        Err(error) => Err(make_refusal(alloc, &error)),
    }
}

/// What is wanted by what a parse found.
fn read_matches(alloc: Global, matches: &ArgMatches) -> Result<Wanted, Refusal>
    ensures { ReadsMatches matches.now result }
{
    if let Some(solo) = matches.subcommand_matches("solo") {
        return Ok(Wanted::Solo {
            store: store_in(alloc, solo)?,
        });
    }
    let Some(serve) = matches.subcommand_matches("serve") else {
        return Err(shown(alloc, NOT_TAKEN));
    };
    match options_in(alloc, serve) {
        Ok(options) => Ok(Wanted::Serve(options)),
        Err(Misread::BadAddress) => Err(shown(alloc, BAD_ADDRESS)),
        Err(Misread::BadNumber) => Err(shown(alloc, NOT_TAKEN)),
        Err(Misread::OutOfMemory) => Err(Refusal::OutOfMemory),
    }
}

/// A refusal that shows this text, unless memory runs out.
fn shown(alloc: Global, text: &str) -> Refusal
    requires { text.now ≢ [] }
    ensures { HasText result }
{
    let Ok(text) = String::from_str(alloc, text) else {
        return Refusal::OutOfMemory;
    };
    Refusal::Shown(text)
}

/// The folder that is given to a command.
fn store_in(alloc: Global, given: &ArgMatches) -> Result<Option<String>, AllocError>
    ensures { IfOk result (λ store. option_map string_bytes store ≡ first_of (codes "store") (rows_of (found_of given.now))) }
{
    match given.get_str("store") {
        Some(folder) => Ok(Some(String::from_str(alloc, folder)?)),
        None => Ok(None),
    }
}

/// What is shown of an error of the parse.
fn make_refusal(alloc: Global, error: &Error) -> Refusal
    ensures memory { kind_of error.now ≡ ErrorKind.OutOfMemory → result ≡ Refusal.OutOfMemory }
    ensures told { HasText result }
{
    if error.kind() == ErrorKind::OutOfMemory {
        return Refusal::OutOfMemory;
    }
    match text_of(alloc, error) {
        Ok(text) => Refusal::Shown(text),
        Err(_) => Refusal::OutOfMemory,
    }
}

/// The text of a mistake in the words. `clap` doesn't promise that its own text says anything.
fn text_of(alloc: Global, error: &Error) -> Result<String, AllocError>
    ensures { IfOk result (λ text. string_bytes text ≢ []) }
{
    let text = error.to_string(alloc)?;
    if text.is_empty() {
        return String::from_str(alloc, NOT_TAKEN);
    }
    Ok(text)
}

/// The program, without its commands.
fn program<'a>(alloc: Global) -> Result<Command<'a>, AllocError>
    ensures { IfOk result (λ program. app_of program ≡ wanting) }
{
    let named = Command::new(alloc, "filehost").bin_name("filehost")?;
    Ok(
        named
            .no_binary_name(true)
            .version("0.1.0")
            .about(ABOUT)
            .after_help(EXAMPLE)
            .subcommand_required(true)
            .arg_required_else_help(true),
    )
}

/// The command `solo`, without its option.
fn bare_solo<'a>(alloc: Global) -> Command<'a>
    ensures app { app_of result ≡ new_app (codes "solo") }
    ensures plain { (out-Command result).has_globals ≡ false }
{
    Command::new(alloc, "solo")
        .about(ABOUT_SOLO)
        .after_help(MORE_ON_SOLO)
}

/// The program with its commands.
fn commands<'a>(alloc: Global) -> Result<Command<'a>, AllocError>
    ensures { IfOk result (λ command. app_of command ≡ filehost) }
{
    let store = text_option(alloc, "store", "DIR", ABOUT_STORE);
    let solo = with_option(bare_solo(alloc), store)?;
    let with_solo = with_command(program(alloc)?, solo)?;
    with_command(with_solo, serve_command(alloc)?)
}
