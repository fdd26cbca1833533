//! Measurements of replies: each makes what is read, and then takes the time of reading it once.
ghost use Rattle.std.specs.Prelude.{◌≡◌};

use crate::contents::random;
use crate::numbers::speed;
use crate::replies::files::{beginnings, held};
use crate::replies::values::{commas, count_asked, count_bytes, digits, sixteens};
use anyhow::{Result, anyhow};
use host_names::Digest;
use range_reply::boundary;
use std::time::Instant;

/// The number with which the generator of random bytes begins.
const FIRST: u64 = 88_172_645_463_325_252;

/// What is measured on a reply.
#[derive(Clone, Copy)]
pub(crate) enum OfReply {
    Commas,
    Digits,
    Sixteens,
    Random,
    Beginnings,
}

impl OfReply {
    /// What this name stands for.
    pub(crate) fn named(name: &str) -> Option<OfReply> {
        match name {
            "commas" => Some(OfReply::Commas),
            "digits" => Some(OfReply::Digits),
            "sixteens" => Some(OfReply::Sixteens),
            "random" => Some(OfReply::Random),
            "beginnings" => Some(OfReply::Beginnings),
            _ => None,
        }
    }

    /// Makes the measurement over so many bytes, and answers its number.
    pub(crate) fn run(self, rt: &HostRuntime, bytes: usize) -> Result<u128> {
        let alloc = rt.alloc();
        match self {
            OfReply::Commas => parsed(rt, commas(alloc, bytes)?.as_slice(), 1),
            OfReply::Digits => parsed(rt, digits(alloc, bytes)?.as_slice(), 1),
            OfReply::Sixteens => parsed(rt, sixteens(alloc, bytes)?.as_slice(), 16),
            OfReply::Random => searched(rt, random(alloc, bytes, FIRST)?.as_slice()),
            OfReply::Beginnings => searched(rt, beginnings(alloc, bytes)?.as_slice()),
        }
    }
}

/// How fast these values are read, each of which asks for so many ranges.
fn parsed(rt: &HostRuntime, values: &[Vec<u8>], ranges: usize) -> Result<u128> {
    let begun = Instant::now(rt)?;
    let count = count_asked(values);
    let took = begun.elapsed(rt)?;
    if count != values.len().saturating_mul(ranges) {
        return Err(anyhow!("a value was not understood"));
    }
    Ok(speed(count_bytes(values), took))
}

/// How fast a boundary is looked for in all of a file, which has none of the candidates.
fn searched(rt: &HostRuntime, file: &[u8]) -> Result<u128> {
    let digest = Digest::of_bytes(file);
    let holds = [held(rt.alloc(), file)?];
    let begun = Instant::now(rt)?;
    let found = boundary(&holds, digest);
    let took = begun.elapsed(rt)?;
    let is_first = found.is_some_and(|found| found.text().as_str().starts_with("fh0-"));
    if !is_first {
        return Err(anyhow!("a candidate occurs in the file"));
    }
    Ok(speed(file.len(), took))
}
