//! What is told of a visitor.
ghost use Rattle.std.specs.Prelude.{◌≡◌, ◌<◌, false, length};
ghost use Rattle.host_replies.specs.Bodies.{answer_of};

use anyhow::{Result, anyhow};
use host_names::Digest;
use host_replies::Reply;
use host_world::World;
use http_wire::{Outgoing, Pair, Writing};
use std::alloc::Global;
use world_read::FileRead;

/// The digest of a reply as it is sent.
fn digest_of(alloc: Global, reply: &Reply) -> Result<Digest>
    requires { (answer_of reply.now).withheld ≡ false }
{
    let mut duplex = Pair {
        source: "".as_bytes(),
        sink: Writing(Vec::new(alloc)),
    };
    let mut out = Outgoing::new(alloc)?;
    if !out.is_counted() {
        return Err(anyhow!("a reply is too long to be counted"));
    }
    match reply.try_send(&mut duplex, &mut out, false, false) {
        Ok(()) => Ok(Digest::of_bytes(duplex.sink.0.as_slice())),
        Err(_) => Err(anyhow!("a reply isn't sent")),
    }
}

/// How far a read has come.
fn stage(alloc: Global, read: &FileRead) -> Result<String> {
    if let Some(reply) = read.reply() {
        let digest = digest_of(alloc, reply)?;
        return Ok(format!(in alloc; "answered {}", digest.to_hex())?);
    }
    match read.wants() {
        Some(name) => Ok(format!(in alloc; "waits {}", name.to_hex())?),
        None => Ok(format!(in alloc; "failed")?),
    }
}

/// How many reads a visitor has, and of the last one the place of its look, and how far it has come.
fn told_of_reads(alloc: Global, reads: &[FileRead]) -> Result<String> {
    let count = reads.len();
    let Some(read) = reads.last() else {
        return Ok(format!(in alloc; "reads 0")?);
    };
    let stage = stage(alloc, read)?;
    Ok(format!(in alloc; "reads {count} look {} {stage}", read.look())?)
}

/// How many looks a visitor has had, and how many entries the last one saw.
fn told_of_looks(alloc: Global, world: &World, visitor: usize) -> Result<String>
    requires { visitor < length world.now.desk.visitors }
{
    let looks = world.looks(visitor);
    let count = looks.len();
    match looks.last() {
        Some(log) => Ok(format!(in alloc; "looks {count} entries {}", log.len())?),
        None => Ok(format!(in alloc; "looks 0")?),
    }
}

/// The looks and the reads of a visitor, in words.
pub(crate) fn told_of(alloc: Global, world: &World, visitor: usize) -> Result<String> {
    if visitor >= world.visitors() {
        return Err(anyhow!("there is no such visitor"));
    }
    let Some(reads) = world.reads(visitor) else {
        return Err(anyhow!("there is no such visitor"));
    };
    let looks = told_of_looks(alloc, world, visitor)?;
    let reads = told_of_reads(alloc, reads)?;
    Ok(format!(in alloc; "{looks} {reads}")?)
}
