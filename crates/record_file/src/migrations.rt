//! A file of version 1, which is brought over into the other slot, and a file without records.
ghost use Rattle.std.specs.Prelude.{◌≡◌, ◌+◌, ◌<◌, ◌≤◌, ◌^◌, IfErr, IfOk, IsErrOf, IsTrue, List, OnOk, [], ◌∷◌, ◌++◌, length, take, drop, ℕ};
ghost use Rattle.host_disk.specs.Crashes.{CountsFailure, LeavesOnly, Only};
ghost use Rattle.record_file.specs.declared.faults.OpenFault.TheVariants.{BadHeader, BadRecord, Device, OutOfMemory};
ghost use Rattle.record_file.specs.Frames.{opened};
ghost use Rattle.record_file.specs.Openings.{IsExactly};
ghost use Rattle.record_file.specs.Slots.{IsInUse, IsReplacing, new_header, old_header};
ghost use Rattle.record_file.specs.Walks.{IsOnlyRead, TellsDevice, TellsEither};

use crate::faults::OpenFault;
use crate::filling::replace;
use crate::headers::HEADER;
use crate::positions::Position;
use host_disk::{DeviceFault, Disk};
use std::alloc::Global;

/// The offset of the first gate in a file of version 1.
const OLD_START: usize = 8;

/// What follows the gate of a file without records: its header, and a gate of 0.
const WITHOUT_RECORDS: [u8; 16] = *b"FHJRNL\x02\0\0\0\0\0\0\0\x01\0";

/// Makes a file without records in a slot of this size that isn't in use.
pub(crate) fn begin<D: Disk>(disk: &mut D, size: usize) -> Result<(), DeviceFault>
    ensures made { IsTrue D.is_modelled
        → OnOk result (IsExactly (opened new_header [] ++ 0 ∷ []) (D.seen disk.new) (D.may_leave disk.new)) }
    ensures any_moment { IsTrue D.is_modelled → size ≡ length (D.seen disk.old) → (IsInUse (D.seen disk.old) → ⊥)
        → Only (D.seen disk.old) (D.may_leave disk.old)
        → LeavesOnly D.moment D.left_since disk.old disk.new (IsReplacing (opened new_header [] ++ 0 ∷ [])) }
    ensures cause { CountsFailure result (D.faults disk.old) (D.faults disk.new) }
{
    replace(disk, size, &WITHOUT_RECORDS)
}

/// Reads this many bytes from an offset on, and puts them behind those of a list.
fn read_behind<D: Disk>(
    disk: &mut D,
    at: usize,
    size: usize,
    bytes: &mut Vec<u8>,
) -> Result<(), OpenFault>
    requires { length bytes.old.items + size < 2 ^ 64 }
    ensures bytes { IsTrue D.is_modelled → OnOk result (at + size ≤ length (D.seen disk.old)
        × (bytes.new.items ≡ bytes.old.items ++ take size (drop at (D.seen disk.old)))) }
    ensures fault { IfErr result (λ fault. (i : ℕ) → fault ≡ BadRecord i → ⊥) }
    ensures header { IsErrOf result BadHeader → ⊥ }
    ensures same { IsTrue D.is_modelled → IsOnlyRead D.seen D.may_leave D.moment D.left_since disk.old disk.new }
    ensures cause { TellsDevice result (D.faults disk.old) (D.faults disk.new) }
{
    let had = bytes.len();
    bytes.resize(had + size, 0)?;
    disk.read(at, &mut bytes[had..])?;
    Ok(())
}

/// What follows the gate of a file of version 2 with the records of one of version 1, whose last gate is there.
fn text_of<D: Disk>(alloc: Global, disk: &mut D, gate: usize) -> Result<Vec<u8>, OpenFault>
    requires start { 8 ≤ gate }
    requires end { gate + 8 < 2 ^ 64 }
    ensures text { IsTrue D.is_modelled → (bodies : List (List ℕ)) (rest : List ℕ) → gate ≡ length (opened old_header bodies)
        → D.seen disk.old ≡ opened old_header bodies ++ rest
        → IfOk result (λ text. 1 ∷ text.items ≡ opened new_header bodies ++ 0 ∷ []) }
    ensures fault { IfErr result (λ fault. (i : ℕ) → fault ≡ BadRecord i → ⊥) }
    ensures header { IsErrOf result BadHeader → ⊥ }
    ensures same { IsTrue D.is_modelled → IsOnlyRead D.seen D.may_leave D.moment D.left_since disk.old disk.new }
    ensures cause { TellsDevice result (D.faults disk.old) (D.faults disk.new) }
{
    let size = gate - OLD_START;
    let mut text = Vec::with_capacity(alloc, size + 16)?;
    text.extend_from_slice(&HEADER)?;
    read_behind(disk, OLD_START, size, &mut text)?;
    text.extend_from_slice(&[0])?;
    Ok(text)
}

/// Writes a file of version 2 with the records of one of version 1, up to this position, into the slot beside it, which has this size and isn't
/// in use. Nothing is written to the old file, so that it stays whole until the new one is shown.
pub(crate) fn bring_over<D: Disk>(
    alloc: Global,
    old: &mut D,
    beside: &mut D,
    size: usize,
    position: Position,
) -> Result<(), OpenFault>
    requires start { 8 ≤ position.gate }
    ensures made { IsTrue D.is_modelled → (bodies : List (List ℕ)) (rest : List ℕ)
        → position.gate ≡ length (opened old_header bodies) → position.count ≡ length bodies
        → D.seen old.old ≡ opened old_header bodies ++ rest
        → OnOk result (IsExactly (opened new_header bodies ++ 0 ∷ []) (D.seen beside.new) (D.may_leave beside.new)) }
    ensures any_moment { IsTrue D.is_modelled → (bodies : List (List ℕ)) (rest : List ℕ)
        → position.gate ≡ length (opened old_header bodies) → position.count ≡ length bodies
        → D.seen old.old ≡ opened old_header bodies ++ rest → size ≡ length (D.seen beside.old)
        → (IsInUse (D.seen beside.old) → ⊥) → Only (D.seen beside.old) (D.may_leave beside.old)
        → LeavesOnly D.moment D.left_since beside.old beside.new (IsReplacing (opened new_header bodies ++ 0 ∷ [])) }
    ensures fault { IfErr result (λ fault. (i : ℕ) → fault ≡ BadRecord i → ⊥) }
    ensures header { IsErrOf result BadHeader → ⊥ }
    ensures memory { IsErrOf result OutOfMemory → 1 ≤ position.count }
    ensures same { IsTrue D.is_modelled → IsOnlyRead D.seen D.may_leave D.moment D.left_since old.old old.new }
    ensures unwritten { IsTrue D.is_modelled → IfErr result (λ fault. (fault ≡ Device → ⊥)
        → IsOnlyRead D.seen D.may_leave D.moment D.left_since beside.old beside.new) }
    ensures cause { TellsEither result (D.faults old.old) (D.faults beside.old) (D.faults old.new) (D.faults beside.new) }
{
    if position.count == 0 {
        begin(beside, size)?;
        return Ok(());
    }
    let text = text_of(alloc, old, position.gate)?;
    replace(beside, size, text.as_slice())?;
    Ok(())
}
