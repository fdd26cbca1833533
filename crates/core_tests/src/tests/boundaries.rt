//! The boundary of a body of several ranges.
ghost use Rattle.std.specs.Prelude.{◌≡◌};

use super::files::{CutFile, cut, holds};
use super::fixtures::{assert_text, halves};
use host_names::Digest;
use range_reply::{Boundary, boundary};
use std::alloc::Global;
use std::test::Fail;

/// The digest of the empty file.
const EMPTY: &str = "da39a3ee5e6b4b0d3255bfef95601890afd80709";

/// A file of so many zeros, and then so many candidates for the boundary, from the first on.
fn file_with_candidates(alloc: Global, zeros: usize, candidates: u8) -> Result<CutFile, Fail> {
    let digest = Digest::of_hex(EMPTY)?;
    let mut file = Vec::from_elem(alloc, 0u8, zeros)?;
    for number in 0..candidates {
        file.extend_from_slice(Boundary::candidate(digest, number).text().as_bytes())?;
    }
    cut(alloc, file.as_slice())
}

/// The stretches of some words, as `0-4 6-10`.
fn stretches(alloc: Global, words: &str) -> Result<Vec<(u64, u64)>, Fail> {
    let mut stretches = Vec::new(alloc);
    for word in words.split(' ') {
        let (first, last) = halves(word, "-")?;
        stretches.push((first.parse::<u64>()?, last.parse::<u64>()?))?;
    }
    Ok(stretches)
}

/// The boundary for these stretches of a file.
fn told_boundary(alloc: Global, file: &CutFile, words: &str) -> Result<String, Fail> {
    let stretches = stretches(alloc, words)?;
    let held = holds(alloc, file, stretches.as_slice())?;
    match boundary(held.as_slice(), Digest::of_hex(EMPTY)?) {
        Some(found) => Ok(format!(in alloc; "{}", found.text().as_str())?),
        None => Ok(format!(in alloc; "none")?),
    }
}

/// The boundary for stretches of a file, by its zeros and its candidates, as `65530 8: 65530-65536`.
fn told(alloc: Global, asked: &str) -> Result<String, Fail> {
    let (file, words) = halves(asked, ": ")?;
    let (zeros, candidates) = halves(file, " ")?;
    let file = file_with_candidates(alloc, zeros.parse::<usize>()?, candidates.parse::<u8>()?)?;
    told_boundary(alloc, &file, words)
}

#[test]
fn the_boundary_is_the_first_that_occurs_in_no_stretch(rt: HostRuntime) -> Result<(), Fail> {
    let rows = "\
1 0: 0-0 -> fh0-da39a3ee5e6b4b0d3255bfef95601890afd80709
0 1: 0-43 -> fh1-da39a3ee5e6b4b0d3255bfef95601890afd80709
0 1: 0-42 -> fh0-da39a3ee5e6b4b0d3255bfef95601890afd80709
0 1: 1-43 -> fh0-da39a3ee5e6b4b0d3255bfef95601890afd80709
65530 1: 65530-65573 -> fh1-da39a3ee5e6b4b0d3255bfef95601890afd80709
65530 1: 0-65573 -> fh1-da39a3ee5e6b4b0d3255bfef95601890afd80709
65530 1: 65530-65572 -> fh0-da39a3ee5e6b4b0d3255bfef95601890afd80709
65530 1: 65530-65535 65536-65573 -> fh0-da39a3ee5e6b4b0d3255bfef95601890afd80709
65492 2: 65492-65535 65536-65579 -> fh2-da39a3ee5e6b4b0d3255bfef95601890afd80709
65492 2: 65536-65579 65536-65579 -> fh0-da39a3ee5e6b4b0d3255bfef95601890afd80709
0 7: 0-307 -> fh7-da39a3ee5e6b4b0d3255bfef95601890afd80709
0 8: 0-351 -> none
65530 8: 65530-65881 -> none
65530 8: 65530-65880 -> fh7-da39a3ee5e6b4b0d3255bfef95601890afd80709";
    for row in rows.lines() {
        let (asked, wanted) = halves(row, " -> ")?;
        let text = told(rt.alloc(), asked)?;
        assert_text(&rt, asked, text.as_str(), wanted);
    }
    Ok(())
}
