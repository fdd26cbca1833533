//! The words of the command `serve`.
ghost use Rattle.std.specs.Prelude.{◌≡◌, ◌≢◌, ℕ, Option, Some, IfErr, IfNone, IfOk, IfSome, IsSomeAnd, OnErr, codes, false, option_map};
ghost use Rattle.std.specs.Net.Grammar.{IsSocketText};
ghost use Rattle.std.specs.declared.net.socket_addr.SocketAddr.{SocketAddr as Address};
ghost use Rattle.clap.specs.Words.{app_of, first_of, found_of, new_app, rows_of};
ghost use Rattle.clap.specs.declared.builder.command.Command.TheViews.{out-Command};
ghost use Rattle.command_line.specs.Serving as spec;
ghost use Rattle.command_line.specs.Serving.{AreServeRows, IsNumberAt, IsOptionalAt};
ghost use Rattle.command_line.specs.declared.serve_words.Misread.TheVariants.{OutOfMemory};
ghost use Rattle.command_line.specs.declared.serve_options.ServeOptions.{ServeOptions as Options};

use crate::options::{number_option, required, text_option, with_default, with_option};
use crate::serve_options::ServeOptions;
use crate::texts::{
    ABOUT_CONNS, ABOUT_LISTEN, ABOUT_NODES, ABOUT_SERVE, ABOUT_SERVED_STORE, ABOUT_WORKERS,
    MORE_ON_SERVE,
};
use clap::{ArgMatches, Command};
use std::alloc::{AllocError, Global};
use std::net::SocketAddr;

/// Why the words of `serve` can't be followed.
#[derive(Debug, Drop)]
pub(crate) enum Misread {
    /// What stands after `--listen` is no address.
    BadAddress,
    /// A number isn't in its range. `clap` refuses such words before.
    BadNumber,
    OutOfMemory,
}

/// The command, with its options.
pub(crate) fn serve_command<'a>(alloc: Global) -> Result<Command<'a>, AllocError>
    ensures app { IfOk result (λ command. app_of command ≡ spec.serve) }
    ensures plain { IfOk result (λ command. (out-Command command).has_globals ≡ false) }
{
    let listen = required(text_option(alloc, "listen", "IP:PORT", ABOUT_LISTEN));
    let nodes = with_default(number_option(alloc, "nodes", ABOUT_NODES, 8), "1");
    let workers = with_default(number_option(alloc, "workers", ABOUT_WORKERS, 8), "2");
    let store = text_option(alloc, "store", "DIR", ABOUT_SERVED_STORE);
    let conns = number_option(alloc, "conns", ABOUT_CONNS, 1_000_000);
    let command = with_option(bare_command(alloc), listen)?;
    let command = with_option(command, nodes)?;
    let command = with_option(command, workers)?;
    let command = with_option(command, store)?;
    with_option(command, conns)
}

/// The command, without its options.
fn bare_command<'a>(alloc: Global) -> Command<'a>
    ensures app { app_of result ≡ new_app (codes "serve") }
    ensures plain { (out-Command result).has_globals ≡ false }
{
    Command::new(alloc, "serve")
        .about(ABOUT_SERVE)
        .after_help(MORE_ON_SERVE)
}

/// The text of an option, if it was given or has a default.
fn text_in<'a>(given: &ArgMatches<'a>, name: &str) -> Option<&'a str>
    ensures { option_map (λ text. text.now) result ≡ first_of name.now (rows_of (found_of given.now)) }
{
    given.get_str(name)
}

/// The number that a text writes, if it is one from 1 to `most`.
fn number_of(text: &str, most: u64) -> Option<u64>
    ensures some { IfSome result (IsNumberAt most (Some text.now)) }
    ensures none { IfNone result ((n : ℕ) → ¬ (IsNumberAt most (Some text.now) n)) }
{
    match text.parse::<u64>() {
        Ok(number) => {
            if 1 <= number && number <= most {
                Some(number)
            } else {
                None
            }
        }
        Err(_) => None,
    }
}

/// The number of an option that was given or has a default, if it is one from 1 to `most`.
fn number_in(given: &ArgMatches, name: &str, most: u64) -> Option<u64>
    ensures some { IfSome result (IsNumberAt most (first_of name.now (rows_of (found_of given.now)))) }
    ensures none { IfNone result ((n : ℕ)
        → ¬ (IsNumberAt most (first_of name.now (rows_of (found_of given.now))) n)) }
{
    match text_in(given, name) {
        Some(text) => number_of(text, most),
        None => None,
    }
}

/// The number of an option that may be left out, if it is one from 1 to `most`.
fn optional_in(given: &ArgMatches, name: &str, most: u64) -> Result<Option<u64>, Misread>
    ensures ok { IfOk result (IsOptionalAt most (first_of name.now (rows_of (found_of given.now)))) }
    ensures err { OnErr result ((n : Option ℕ)
        → ¬ (IsOptionalAt most (first_of name.now (rows_of (found_of given.now))) n)) }
{
    match text_in(given, name) {
        Some(text) => match number_of(text, most) {
            Some(number) => Ok(Some(number)),
            None => Err(Misread::BadNumber),
        },
        None => Ok(None),
    }
}

/// The address that a text writes, if it writes one.
fn address_of(text: &str) -> Option<SocketAddr>
    ensures some { IfSome result (IsSocketText text.now) }
    ensures none { IfNone result ((address : Address) → ¬ (IsSocketText text.now address)) }
{
    match text.parse::<SocketAddr>() {
        Ok(address) => Some(address),
        Err(_) => None,
    }
}

/// The address of the first node.
fn address_in(given: &ArgMatches) -> Option<SocketAddr>
    ensures some { IfSome result (λ address.
        IsSomeAnd (first_of (codes "listen") (rows_of (found_of given.now))) (λ text. IsSocketText text address)) }
    ensures none { IfNone result ((address : Address)
        → ¬ (IsSomeAnd (first_of (codes "listen") (rows_of (found_of given.now)))
        (λ text. IsSocketText text address))) }
{
    match text_in(given, "listen") {
        Some(text) => address_of(text),
        None => None,
    }
}

/// What the command is told.
pub(crate) fn options_in(alloc: Global, given: &ArgMatches) -> Result<ServeOptions, Misread>
    ensures ok { IfOk result (AreServeRows (rows_of (found_of given.now))) }
    ensures err { IfErr result (λ why. why ≢ OutOfMemory
        → (options : Options) → ¬ (AreServeRows (rows_of (found_of given.now)) options)) }
{
    let Some(listen) = address_in(given) else {
        return Err(Misread::BadAddress);
    };
    let Some(nodes) = number_in(given, "nodes", 8) else {
        return Err(Misread::BadNumber);
    };
    let Some(workers) = number_in(given, "workers", 8) else {
        return Err(Misread::BadNumber);
    };
    let conns = optional_in(given, "conns", 1_000_000)?;
    let Ok(store) = crate::store_in(alloc, given) else {
        return Err(Misread::OutOfMemory);
    };
    Ok(ServeOptions {
        listen,
        nodes,
        workers,
        store,
        conns,
    })
}
