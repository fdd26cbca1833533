//! A connection over a server, which is new, by a line.
use crate::steps::pieces::Pieces;
use crate::steps::scripts::Script;
use anyhow::{Result, anyhow};
use blob_store::MemShelf;
use host_connection::{Connection, Metered, Progress, serve_connection};
use host_disk::MemDisk;
use host_server::Server;
use http_wire::{Pair, Writing};
use std::alloc::Global;

/// After so many steps a connection is given up.
const MOST_STEPS: u64 = 100_000_000;

/// What is written to a stream of this input, at once.
fn written_at_once(
    alloc: Global,
    server: &mut Server<MemShelf, MemDisk>,
    input: Pieces,
) -> Result<Vec<u8>> {
    let mut duplex = Pair {
        source: input,
        sink: Writing(Vec::new(alloc)),
    };
    let _ = serve_connection(alloc, &mut duplex, server);
    Ok(duplex.sink.0)
}

/// Takes the steps of a connection up to its end.
fn go_to_the_end(
    alloc: Global,
    connection: &mut Connection,
    duplex: &mut Metered<Script>,
    server: &mut Server<MemShelf, MemDisk>,
) -> Result<()> {
    for _ in 0..MOST_STEPS {
        if let Progress::Ended(_) = connection.go_on(alloc, duplex, server) {
            return Ok(());
        }
    }
    Err(anyhow!("the connection doesn't end"))
}

/// Serves a connection over a stream, in steps.
fn serve_in_steps(
    alloc: Global,
    server: &mut Server<MemShelf, MemDisk>,
    duplex: &mut Metered<Script>,
) -> Result<()> {
    let mut connection = Connection::new(alloc)?;
    go_to_the_end(alloc, &mut connection, duplex, server)
}

/// What is written to a stream, in steps.
fn written_in_steps(
    alloc: Global,
    server: &mut Server<MemShelf, MemDisk>,
    script: Script,
) -> Result<Vec<u8>> {
    let mut duplex = Metered::new(script);
    serve_in_steps(alloc, server, &mut duplex)?;
    Ok(Vec::from_slice(alloc, duplex.stream().written())?)
}

/// The numbers of a word, with commas between them.
fn numbers(alloc: Global, word: &str) -> Result<Vec<usize>> {
    let mut numbers = Vec::new(alloc);
    for number in word.split(',') {
        numbers.push(number.parse::<usize>()?)?;
    }
    Ok(numbers)
}

/// The bytes of these digits, cut at these places.
fn pieces(alloc: Global, digits: &str, cuts: &[usize]) -> Result<Pieces> {
    Ok(Pieces::new(alloc, hex::decode(alloc, digits)?, cuts)?)
}

/// The bytes of these digits, cut at the places that a word lists.
fn cut_pieces(alloc: Global, cuts: &str, digits: &str) -> Result<Pieces> {
    let cuts = numbers(alloc, cuts)?;
    pieces(alloc, digits, cuts.as_slice())
}

/// How many bytes a write takes, if it has to wait before it takes some.
fn bound(word: &str) -> Result<Option<usize>> {
    if word == "all" {
        return Ok(None);
    }
    Ok(Some(word.parse::<usize>()?))
}

/// What is written to the stream of a line. At its end the line has the stream's bytes as hexadecimal digits. Before them it may have the places
/// where the stream is cut. Between these there may be how many bytes a write takes, or `all`: then the stream is answered in steps, and else at once.
pub(crate) fn written(
    alloc: Global,
    server: &mut Server<MemShelf, MemDisk>,
    line: &str,
) -> Result<Vec<u8>> {
    let words: Vec<&str> = line.split(' ').collect(alloc)?;
    written_by(alloc, server, words.as_slice())
}

/// The same by the words of a line.
fn written_by(
    alloc: Global,
    server: &mut Server<MemShelf, MemDisk>,
    words: &[&str],
) -> Result<Vec<u8>> {
    match words {
        [digits] => written_at_once(alloc, server, pieces(alloc, *digits, &[])?),
        [cuts, digits] => written_at_once(alloc, server, cut_pieces(alloc, *cuts, *digits)?),
        [cuts, most, digits] => {
            let most = bound(*most)?;
            let input = cut_pieces(alloc, *cuts, *digits)?;
            written_in_steps(alloc, server, Script::new(input, most, Vec::new(alloc)))
        }
        _ => Err(anyhow!(
            "a stream is wanted, or its cuts and the stream, or its cuts, its writes and the stream"
        )),
    }
}
