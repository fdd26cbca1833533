//! What stands behind the records of a file, and behind a gate that isn't open.
ghost use Rattle.std.specs.Prelude.{◌+◌, ◌<◌, ◌≤◌, IfOk, IsTrue, OnOk, length};
ghost use Rattle.record_file.specs.Walks.{IsOnlyRead};

use crate::bodies::Bodies;
use crate::faults::OpenFault;
use crate::positions::{LONGEST_BODY, Position};
use crate::walks::{read_gate, read_length, read_record, record_length, take_body};
use host_disk::{DeviceFault, Disk};
use std::alloc::Global;

/// The bytes of a record beside its body: its length, and the gate behind it.
const AROUND_BODY: usize = 5;

/// The first position from one on whose gate isn't open. Of the records before it only the lengths are looked at.
pub(crate) fn skip_records<D: Disk>(
    disk: &mut D,
    from: Position,
    size: usize,
) -> Result<Position, OpenFault>
    requires { from.gate < size }
    ensures within { IfOk result (λ position. position.gate < size) }
    ensures same { IsTrue D.is_modelled → IsOnlyRead D.seen D.may_leave D.moment D.left_since disk.old disk.new }
{
    let mut position = from;
    loop {
        let gate = read_gate(disk, position.gate)?;
        if gate != 1 {
            return Ok(position);
        }
        let length = record_length(disk, size, position)?;
        position = position.after(length);
    }
}

/// Whether the bytes from an offset to the end are all the same.
fn is_of_one_byte<D: Disk>(disk: &mut D, from: usize, size: usize) -> Result<bool, DeviceFault>
    ensures same { IsTrue D.is_modelled → IsOnlyRead D.seen D.may_leave D.moment D.left_since disk.old disk.new }
{
    let first = read_gate(disk, from)?;
    for at in from..size {
        let byte = read_gate(disk, at)?;
        if byte != first {
            return Ok(false);
        }
    }
    Ok(true)
}

/// Whether the bytes behind a gate that isn't open may be all that a stop left of one record: there are fewer than its length tells, or all are the
/// same, as if a file grew and wasn't written. It has never left more bytes than the longest record has.
pub(crate) fn may_be_unfinished<D: Disk>(
    disk: &mut D,
    gate: usize,
    size: usize,
) -> Result<bool, DeviceFault>
    requires { gate < size }
    ensures same { IsTrue D.is_modelled → IsOnlyRead D.seen D.may_leave D.moment D.left_since disk.old disk.new }
{
    let behind = size - gate - 1;
    if behind < AROUND_BODY {
        return Ok(true);
    }
    let most = behind - AROUND_BODY;
    if most > LONGEST_BODY {
        return Ok(false);
    }
    let length = read_length(disk, gate + 1)?;
    if most < length {
        return Ok(true);
    }
    is_of_one_byte(disk, gate + 1, size)
}

/// Reads the record behind the gate at a position, whatever that gate is, and hands on its body.
fn take_record<D: Disk, B: Bodies>(
    disk: &mut D,
    header: &[u8],
    size: usize,
    position: Position,
    body: &mut Vec<u8>,
    bodies: &mut B,
) -> Result<(), OpenFault>
    requires { position.gate < size }
    ensures same { IsTrue D.is_modelled → IsOnlyRead D.seen D.may_leave D.moment D.left_since disk.old disk.new }
    ensures within { OnOk result (position.gate + 5 + length body.new.items < size) }
    ensures short { OnOk result (length body.new.items ≤ 10470070) }
    ensures few { OnOk result (position.count < 1000000) }
{
    read_record(disk, size, position, body)?;
    take_body(bodies, header, body, position)
}

/// How many whole records follow one another from a position on, with bodies that are lawful in a file with this header, whatever the gates before them are.
pub(crate) fn count_whole<D: Disk, B: Bodies>(
    alloc: Global,
    disk: &mut D,
    header: &[u8],
    from: Position,
    size: usize,
    bodies: &mut B,
) -> Result<usize, OpenFault>
    requires { from.gate < size }
    ensures same { IsTrue D.is_modelled → IsOnlyRead D.seen D.may_leave D.moment D.left_since disk.old disk.new }
{
    let mut body = Vec::new(alloc);
    let mut position = from;
    loop {
        match take_record(disk, header, size, position, &mut body, bodies) {
            Ok(()) => position = position.after(body.len()),
            Err(OpenFault::BadRecord(_)) => return Ok(position.count - from.count),
            Err(fault) => return Err(fault),
        }
    }
}
