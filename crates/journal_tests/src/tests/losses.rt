//! What an opening would drop of two slots, told by a look that leaves them as they are.
use super::files::{assert_bytes, disk_of};
use change_journal::look;
use host_disk::MemDisk;
use record_file::{Looked, Loss, Losses, OpenFault};
use std::alloc::Global;
use std::process::Abort;
use std::test::Fail;

/// Two entries in a file of each version, the second one behind a closed gate.
const OLD: &str = "\
0146484a524e4c01 01 0000000d 03036f6e650000000000000001 00 0000000d 03036f6e650000000000000001 00";

const CURRENT: &str = "\
0146484a524e4c02 0000000000000001 01 0000000d 03036f6e650000000000000001 07 0000000d 03036f6e650000000000000001 01";

/// The same with a part of the second one, and with bytes that are all the same.
const TORN: &str = "\
0146484a524e4c02 0000000000000001 01 0000000d 03036f6e650000000000000001 00 0000000d 03036f6e6500000000";

const FILLED: &str = "\
0146484a524e4c02 0000000000000001 01 0000000d 03036f6e650000000000000001 00 000000000000000000";

/// Files whose own gate is closed.
const CLOSED: &str = "\
0046484a524e4c02 0000000000000001 01 0000000d 03036f6e650000000000000001 01 0000000d 03036f6e650000000000000001 00";

const CLOSED_EMPTY: &str = "0046484a524e4c02 0000000000000001 00";

/// A file whose first record is malformed.
const BAD: &str =
    "0146484a524e4c02 0000000000000001 01 0000000d 03036f6e650000000000000000 00 0000000d 03036f6e650000000000000001 00";

const NOTHING: Losses = Losses {
    first: None,
    second: None,
};

/// Asserts what an opening would drop of two slots, or why they would be refused. The look leaves them as they are.
fn assert_lost(
    rt: &impl Abort,
    alloc: Global,
    files: (&str, &str),
    wanted: Result<Losses, OpenFault>,
) -> Result<(), Fail> {
    let first: MemDisk = disk_of(alloc, files.0)?;
    let second: MemDisk = disk_of(alloc, files.1)?;
    let Looked {
        mut first,
        mut second,
        outcome,
    } = look(alloc, first, second);
    assert_eq!(rt; outcome, wanted);
    assert_bytes(rt, alloc, &mut first, files.0)?;
    assert_bytes(rt, alloc, &mut second, files.1)
}

/// Asserts what it would drop of the one slot, whichever that is, and nothing of the other.
fn assert_one(
    rt: &impl Abort,
    alloc: Global,
    files: (&str, &str),
    loss: Option<Loss>,
) -> Result<(), Fail> {
    assert_lost(
        rt,
        alloc,
        files,
        Ok(Losses {
            first: loss,
            second: None,
        }),
    )?;
    assert_lost(
        rt,
        alloc,
        (files.1, files.0),
        Ok(Losses {
            first: None,
            second: loss,
        }),
    )
}

#[test]
fn whole_records_behind_a_closed_gate_are_told(rt: HostRuntime) -> Result<(), Fail> {
    let alloc = rt.alloc();
    let loss = |from, bytes, records| {
        Some(Loss {
            from,
            bytes,
            records,
        })
    };
    assert_one(&rt, alloc, (OLD, ""), loss(27, 18, 1))?;
    assert_one(&rt, alloc, (CURRENT, "00 46"), loss(35, 18, 1))?;
    assert_one(&rt, alloc, (CLOSED, ""), loss(1, 52, 2))?;
    assert_one(&rt, alloc, (CLOSED, TORN), loss(1, 52, 2))
}

#[test]
fn what_one_record_may_have_left_is_not_told(rt: HostRuntime) -> Result<(), Fail> {
    let alloc = rt.alloc();
    assert_lost(&rt, alloc, ("", ""), Ok(NOTHING))?;
    assert_lost(&rt, alloc, (TORN, ""), Ok(NOTHING))?;
    assert_lost(&rt, alloc, ("", FILLED), Ok(NOTHING))?;
    assert_lost(&rt, alloc, (CLOSED_EMPTY, "07 46"), Ok(NOTHING))
}

#[test]
fn slots_that_are_refused_are_told_as_by_an_opening(rt: HostRuntime) -> Result<(), Fail> {
    let alloc = rt.alloc();
    assert_lost(&rt, alloc, (CURRENT, CURRENT), Err(OpenFault::BadHeader))?;
    assert_lost(&rt, alloc, (CLOSED, "01 46"), Err(OpenFault::BadHeader))?;
    assert_lost(&rt, alloc, (BAD, ""), Err(OpenFault::BadRecord(1)))?;
    assert_lost(&rt, alloc, (BAD, CLOSED), Err(OpenFault::BadRecord(1)))
}
