//! Reads through a node that threads share, whose loads are held back for each other.
ghost use Rattle.std.specs.Prelude.{⊤};

use super::fixtures::{chunk_of, is_chunk_of, name_of};
use super::gates::{ATTEMPTS, CALLERS, Gate};
use super::node_fixtures::first_node;
use byte_view::Chunk;
use chunk_group::{Counter, Group, Outcome, Source};
use chunk_reads::ReadFault;
use host_names::Digest;
use peer_link::NoLink;
use peer_ring::DigestHash;
use std::alloc::Global;
use std::process::Abort;
use std::sync::Wait;
use std::test::Fail;
use std::thread;
use std::thread::Threads;

/// A source whose load of the first chunk is held back. It may not have that.
#[derive(Clone, Copy)]
struct GatedSource<'a> {
    alloc: Global,
    gate: &'a Gate,
    shared: Digest,
    is_missing: bool,
}

impl Source for GatedSource<'_> {
    ghost allows = { λ _ _. ⊤ };

    ghost loaded = { λ _ _ _ _. Unit {0} };

    fn load(&mut self, key: &Digest) -> Result<Chunk, ReadFault> {
        if *key != self.shared {
            self.gate.load_other();
            return chunk_of(self.alloc, 1);
        }
        self.gate.load_shared();
        if self.is_missing {
            return Err(ReadFault::Missing);
        }
        chunk_of(self.alloc, 0)
    }
}

type GatedNode<'a> = Group<DigestHash, GatedSource<'a>, NoLink, Counter>;

/// Counts a caller by what it was given.
fn note(alloc: Global, gate: &Gate, given: &Outcome, number: usize, is_missing: bool) {
    match given {
        Err(ReadFault::OutOfMemory) => gate.refuse(),
        Err(fault) => gate.note(is_missing && *fault == ReadFault::Missing),
        Ok(_) => match is_chunk_of(alloc, given, number) {
            Ok(is_right) => gate.note(is_right && !is_missing),
            Err(_) => gate.refuse(),
        },
    }
}

fn call_shared<R: Wait>(rt: &R, node: &GatedNode<'_>, source: GatedSource<'_>) {
    source.gate.call_shared();
    let given = node.get(rt, &source.shared);
    note(source.alloc, source.gate, &given, 0, source.is_missing);
}

/// Calls the other key, and lets the load of the shared one pass once that was answered.
fn call_other<R: Wait>(rt: &R, node: &GatedNode<'_>, source: GatedSource<'_>, other: &Digest) {
    let given = node.get(rt, other);
    source.gate.pass_other();
    note(source.alloc, source.gate, &given, 1, false);
}

/// All callers, each in a thread of its own. A thread that can't be made counts as refused.
fn call_all<R: Threads + Wait + Sync>(
    rt: &R,
    node: &GatedNode<'_>,
    source: GatedSource<'_>,
    other: &Digest,
) {
    thread::scope(thread::scope_env(), rt, |scope| {
        for _ in 0..CALLERS {
            if scope.spawn(move || call_shared(rt, node, source)).is_err() {
                source.gate.refuse();
            }
        }
        if scope
            .spawn(move || call_other(rt, node, source, other))
            .is_err()
        {
            source.gate.refuse();
        }
    });
}

/// All callers through a node over this source.
fn call_node<R: Threads + Wait + Sync>(
    rt: &R,
    source: GatedSource<'_>,
    other: &Digest,
) -> Result<(), Fail> {
    let node = first_node(source.alloc, 10_000, &["node0"], source, NoLink)?;
    call_all(rt, &node, source, other);
    Ok(())
}

/// All callers, whose loads go through this gate.
fn call_gated<R: Threads + Wait + Sync>(
    rt: &R,
    alloc: Global,
    gate: &Gate,
    is_missing: bool,
) -> Result<(), Fail> {
    let source = GatedSource {
        alloc,
        gate,
        shared: name_of(alloc, 0)?,
        is_missing,
    };
    let other = name_of(alloc, 1)?;
    call_node(rt, source, &other)
}

/// Whether callers of one key share one load of it, which is held until another key's call was answered.
fn is_gated<R: Threads + Wait + Abort + Sync>(
    rt: &R,
    alloc: Global,
    is_missing: bool,
) -> Result<bool, Fail> {
    let gate = Gate::new();
    call_gated(rt, alloc, &gate, is_missing)?;
    gate.is_shared(rt)
}

fn assert_gated<R: Threads + Wait + Abort + Sync>(
    rt: &R,
    alloc: Global,
    is_missing: bool,
) -> Result<(), Fail> {
    for _ in 0..ATTEMPTS {
        if is_gated(rt, alloc, is_missing)? {
            return Ok(());
        }
    }
    Err(Fail::from("no load was shared by all"))
}

#[test]
fn a_load_waits_for_another_that_is_answered(rt: HostRuntime) -> Result<(), Fail> {
    assert_gated(&rt, rt.alloc(), false)
}

#[test]
fn who_joins_is_told_that_a_chunk_is_missing(rt: HostRuntime) -> Result<(), Fail> {
    assert_gated(&rt, rt.alloc(), true)
}
