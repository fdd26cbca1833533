//! The walk from gate to gate.
ghost use Rattle.std.specs.Prelude.{◌≡◌, ◌≢◌, ◌⊎◌, ◌+◌, ◌*◌, ◌<◌, ◌≤◌, ◌^◌, IfErr, IfOk, IfSome, IsErrOf, IsNone, IsTrue, List, OnErr, OnOk, [], ◌∷◌, ◌++◌, drop, length, ℕ};
ghost use Rattle.std.specs.Int.{to_be_bytes, w32};
ghost use Rattle.host_disk.specs.Crashes.{CountsFailure};
ghost use Rattle.record_file.specs.declared.faults.OpenFault.TheVariants.{BadHeader, BadRecord, Device, OutOfMemory};
ghost use Rattle.record_file.specs.Failures.{MayFailReading};
ghost use Rattle.record_file.specs.Frames.{framed, opened};
ghost use Rattle.record_file.specs.Walks.{IsOnlyRead, HasCounted, HasEnded, HasRecord, HasWalked, IsBadRecord, IsNoRecord, IsNotWhole, IsOpened, IsShort, TellsDevice};

use crate::bodies::{Bodies, BodyFault};
use crate::faults::OpenFault;
use crate::positions::{LONGEST_BODY, MOST_RECORDS, Position};
use host_disk::{DeviceFault, Disk};
use std::alloc::Global;

/// The gate at an offset.
pub(crate) fn read_gate<D: Disk>(disk: &mut D, at: usize) -> Result<u8, DeviceFault>
    ensures gate { IsTrue D.is_modelled → IfOk result (λ gate. drop at (D.seen disk.old)
        ≡ gate ∷ drop (at + 1) (D.seen disk.old)) }
    ensures same { IsTrue D.is_modelled → IsOnlyRead D.seen D.may_leave D.moment D.left_since disk.old disk.new }
    ensures reason { IsTrue D.is_modelled → at < length (D.seen disk.old)
        → OnErr result (MayFailReading D.seen D.may_fail (D.seen disk.old)) }
    ensures cause { CountsFailure result (D.faults disk.old) (D.faults disk.new) }
{
    let mut gate = [0];
    disk.read(at, &mut gate)?;
    Ok(gate[0])
}

/// The length that 4 bytes write, most significant byte first.
#[tactic(auto, using(std::proofs::lemmas::Nat::be_bytes_4))]
fn told_length(bytes: [u8; 4]) -> usize
    ensures told { to_be_bytes w32 result ≡ bytes }
    ensures fits { result < 2 ^ 32 }
{
    u32::from_be_bytes(bytes) as usize
}

/// The length at an offset.
pub(crate) fn read_length<D: Disk>(disk: &mut D, at: usize) -> Result<usize, DeviceFault>
    ensures length { IsTrue D.is_modelled → IfOk result (λ size. drop at (D.seen disk.old)
        ≡ to_be_bytes w32 size ++ drop (at + 4) (D.seen disk.old)) }
    ensures fits { IfOk result (λ size. size < 2 ^ 32) }
    ensures same { IsTrue D.is_modelled → IsOnlyRead D.seen D.may_leave D.moment D.left_since disk.old disk.new }
    ensures reason { IsTrue D.is_modelled → at + 4 ≤ length (D.seen disk.old)
        → OnErr result (MayFailReading D.seen D.may_fail (D.seen disk.old)) }
    ensures cause { CountsFailure result (D.faults disk.old) (D.faults disk.new) }
{
    let mut size = [0; 4];
    disk.read(at, &mut size)?;
    Ok(told_length(size))
}

/// Reads this many bytes from an offset on, in place of those read before.
fn read_body<D: Disk>(
    disk: &mut D,
    at: usize,
    size: usize,
    body: &mut Vec<u8>,
) -> Result<(), OpenFault>
    ensures body { IsTrue D.is_modelled
        → OnOk result (drop at (D.seen disk.old) ≡ body.new.items ++ drop (at + size) (D.seen disk.old)) }
    ensures size { OnOk result (length body.new.items ≡ size) }
    ensures fault { IfErr result (λ fault. (i : ℕ) → fault ≡ BadRecord i → ⊥) }
    ensures same { IsTrue D.is_modelled → IsOnlyRead D.seen D.may_leave D.moment D.left_since disk.old disk.new }
    ensures header { IsErrOf result BadHeader → ⊥ }
    ensures reason { IsTrue D.is_modelled → at + size ≤ length (D.seen disk.old) → IsErrOf result Device
        → MayFailReading D.seen D.may_fail (D.seen disk.old) }
    ensures cause { TellsDevice result (D.faults disk.old) (D.faults disk.new) }
{
    body.resize(size, 0)?;
    disk.read(at, body)?;
    Ok(())
}

/// The length of the body after the open gate at a position.
pub(crate) fn record_length<D: Disk>(
    disk: &mut D,
    size: usize,
    position: Position,
) -> Result<usize, OpenFault>
    requires { position.gate < size }
    ensures length { IsTrue D.is_modelled → IfOk result (λ n. drop (position.gate + 1) (D.seen disk.old)
        ≡ to_be_bytes w32 n ++ drop (position.gate + 5) (D.seen disk.old)) }
    ensures short { IfOk result (λ n. n ≤ 10470070) }
    ensures within { IfOk result (λ n. position.gate + 5 + n < size) }
    ensures few { IfOk result (λ _. position.count < 1000000) }
    ensures bad { IsTrue D.is_modelled → size ≡ length (D.seen disk.old) → IfErr result (λ fault. (i : ℕ)
        → fault ≡ BadRecord i → (i ≡ position.count + 1) × (IsNotWhole (drop (position.gate + 1) (D.seen disk.old))
        ⊎ (1000000 ≤ position.count))) }
    ensures same { IsTrue D.is_modelled → IsOnlyRead D.seen D.may_leave D.moment D.left_since disk.old disk.new }
    ensures header { IsErrOf result BadHeader → ⊥ }
    ensures memory { IsErrOf result OutOfMemory → ⊥ }
    ensures reason { IsTrue D.is_modelled → size ≡ length (D.seen disk.old) → IsErrOf result Device
        → MayFailReading D.seen D.may_fail (D.seen disk.old) }
    ensures cause { TellsDevice result (D.faults disk.old) (D.faults disk.new) }
{
    let behind = size - position.gate - 1;
    if position.count == MOST_RECORDS || behind < 5 {
        return Err(position.bad_record());
    }
    let length = read_length(disk, position.gate + 1)?;
    if length > LONGEST_BODY || length > behind - 5 {
        return Err(position.bad_record());
    }
    Ok(length)
}

/// Reads the body after the open gate at a position.
pub(crate) fn read_record<D: Disk>(
    disk: &mut D,
    size: usize,
    position: Position,
    body: &mut Vec<u8>,
) -> Result<(), OpenFault>
    requires { position.gate < size }
    ensures body { IsTrue D.is_modelled → OnOk result (drop (position.gate + 1) (D.seen disk.old)
        ≡ framed body.new.items ++ drop (position.gate + 5 + length body.new.items) (D.seen disk.old)) }
    ensures short { OnOk result (length body.new.items ≤ 10470070) }
    ensures within { OnOk result (position.gate + 5 + length body.new.items < size) }
    ensures few { OnOk result (position.count < 1000000) }
    ensures bad { IsTrue D.is_modelled → size ≡ length (D.seen disk.old) → IfErr result (λ fault. (i : ℕ)
        → fault ≡ BadRecord i → (i ≡ position.count + 1) × (IsNotWhole (drop (position.gate + 1) (D.seen disk.old))
        ⊎ (1000000 ≤ position.count))) }
    ensures same { IsTrue D.is_modelled → IsOnlyRead D.seen D.may_leave D.moment D.left_since disk.old disk.new }
    ensures header { IsErrOf result BadHeader → ⊥ }
    ensures reason { IsTrue D.is_modelled → size ≡ length (D.seen disk.old) → IsErrOf result Device
        → MayFailReading D.seen D.may_fail (D.seen disk.old) }
    ensures cause { TellsDevice result (D.faults disk.old) (D.faults disk.new) }
{
    let length = record_length(disk, size, position)?;
    read_body(disk, position.gate + 5, length, body)
}

/// Hands on the body that was read after the gate at a position of a file with this header.
pub(crate) fn take_body<B: Bodies>(
    bodies: &mut B,
    header: &[u8],
    body: &[u8],
    position: Position,
) -> Result<(), OpenFault>
    ensures taken { (had : List (List ℕ)) → B.has bodies.old had
        → OnOk result (B.has bodies.new (had ++ body.now ∷ [])) }
    ensures lawful { (had : List (List ℕ)) → B.has bodies.old had → OnOk result (B.is_lawful header.now had body.now) }
    ensures number { IfErr result (λ fault. (i : ℕ) → fault ≡ BadRecord i → i ≡ position.count + 1) }
    ensures bad { (had : List (List ℕ)) → B.has bodies.old had → IfErr result (λ fault. (i : ℕ) → fault ≡ BadRecord i
        → B.is_lawful header.now had body.now → ⊥) }
    ensures header { IsErrOf result BadHeader → ⊥ }
    ensures device { IfErr result (λ fault. fault ≡ Device → ⊥) }
{
    bodies.take(header, body).map_err(|fault| match fault {
        BodyFault::Bad => position.bad_record(),
        BodyFault::OutOfMemory => OpenFault::OutOfMemory,
    })
}

/// Where a walk ended: a position whose gate isn't open, and that gate.
#[derive(Clone, Copy)]
pub(crate) struct End {
    pub position: Position,
    pub gate: u8,
}

/// Reads the gate at a position of a file with this header. If it is open, reads the body after it and hands that on.
fn hand_on<D: Disk, B: Bodies>(
    disk: &mut D,
    header: &[u8],
    size: usize,
    position: Position,
    body: &mut Vec<u8>,
    bodies: &mut B,
) -> Result<Option<u8>, OpenFault>
    requires { position.gate < size }
    ensures end { IsTrue D.is_modelled → IfOk result (λ gate. IfSome gate (λ gate. (gate ≢ 1)
        × (drop position.gate (D.seen disk.old) ≡ gate ∷ drop (position.gate + 1) (D.seen disk.old)))) }
    ensures stays { IfOk result (λ gate. IfSome gate (λ _. bodies.new ≡ bodies.old)) }
    ensures open { IsTrue D.is_modelled → IfOk result (λ gate. IsNone gate → drop position.gate (D.seen disk.old)
        ≡ 1 ∷ (framed body.new.items ++ drop (position.gate + 5 + length body.new.items) (D.seen disk.old))) }
    ensures taken { (had : List (List ℕ)) → B.has bodies.old had → IfOk result (λ gate. IsNone gate
        → B.has bodies.new (had ++ body.new.items ∷ [])) }
    ensures short { IfOk result (λ gate. IsNone gate → IsShort body.new.items) }
    ensures lawful { (had : List (List ℕ)) → B.has bodies.old had
        → IfOk result (λ gate. IsNone gate → B.is_lawful header.now had body.new.items) }
    ensures within { IfOk result (λ gate. IsNone gate → position.gate + 5 + length body.new.items < size) }
    ensures few { IfOk result (λ gate. IsNone gate → position.count < 1000000) }
    ensures bad { IsTrue D.is_modelled → size ≡ length (D.seen disk.old) → (had : List (List ℕ)) → B.has bodies.old had
        → IfErr result (λ fault. (i : ℕ) → fault ≡ BadRecord i → (i ≡ position.count + 1)
        × (drop position.gate (D.seen disk.old) ≡ 1 ∷ drop (position.gate + 1) (D.seen disk.old))
        × (IsNoRecord (B.is_lawful header.now had) (drop (position.gate + 1) (D.seen disk.old)) ⊎ (1000000 ≤ position.count))) }
    ensures same { IsTrue D.is_modelled → IsOnlyRead D.seen D.may_leave D.moment D.left_since disk.old disk.new }
    ensures header { IsErrOf result BadHeader → ⊥ }
    ensures memory { IsTrue D.is_modelled → IsErrOf result OutOfMemory → drop position.gate (D.seen disk.old)
        ≡ 1 ∷ drop (position.gate + 1) (D.seen disk.old) }
    ensures reason { IsTrue D.is_modelled → size ≡ length (D.seen disk.old) → IsErrOf result Device
        → MayFailReading D.seen D.may_fail (D.seen disk.old) }
    ensures cause { TellsDevice result (D.faults disk.old) (D.faults disk.new) }
{
    let gate = read_gate(disk, position.gate)?;
    if gate != 1 {
        return Ok(Some(gate));
    }
    read_record(disk, size, position, body)?;
    take_body(bodies, header, body, position)?;
    Ok(None)
}

/// Hands on the bodies of a file with an opened header, up to the first gate that isn't open. Answers where that is.
pub(crate) fn walk_records<D: Disk, B: Bodies>(
    alloc: Global,
    disk: &mut D,
    header: &[u8],
    size: usize,
    bodies: &mut B,
) -> Result<End, OpenFault>
    requires short { length header.now ≤ 64 }
    requires long { length header.now + 1 < size }
    ensures end { IsTrue D.is_modelled → size ≡ length (D.seen disk.old) → IsOpened header.now (D.seen disk.old)
        → B.has bodies.old []
        → IfOk result
        (λ end. HasEnded header.now (B.has bodies.new) (B.is_lawful header.now) end.position.gate end.position.count end.gate (D.seen disk.old)) }
    ensures count { B.has bodies.old [] → IfOk result (λ end. HasCounted (B.has bodies.new) end.position.count) }
    ensures within { IfOk result (λ end. end.position.gate < size) }
    ensures far { IfOk result (λ end. length header.now < end.position.gate) }
    ensures near { IfOk result (λ end. end.position.gate ≤ length header.now + 1 + 10470075 * end.position.count) }
    ensures bad { IsTrue D.is_modelled → size ≡ length (D.seen disk.old) → IsOpened header.now (D.seen disk.old)
        → B.has bodies.old [] → IfErr result (λ fault. (i : ℕ) → fault ≡ BadRecord i
        → IsBadRecord header.now (B.is_lawful header.now) i (D.seen disk.old)) }
    ensures same { IsTrue D.is_modelled → IsOnlyRead D.seen D.may_leave D.moment D.left_since disk.old disk.new }
    ensures header { IsErrOf result BadHeader → ⊥ }
    ensures memory { IsTrue D.is_modelled → IsOpened header.now (D.seen disk.old) → B.has bodies.old []
        → IsErrOf result OutOfMemory → HasRecord header.now (D.seen disk.old) }
    ensures reason { IsTrue D.is_modelled → size ≡ length (D.seen disk.old) → IsErrOf result Device
        → MayFailReading D.seen D.may_fail (D.seen disk.old) }
    ensures cause { TellsDevice result (D.faults disk.old) (D.faults disk.new) }
{
    let mut body = Vec::new(alloc);
    let mut position = Position::first(header);
    loop {
        if let Some(gate) = hand_on(disk, header, size, position, &mut body, bodies)? {
            return Ok(End { position, gate });
        }
        position = position.after(body.len());
    }
}
