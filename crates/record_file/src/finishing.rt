//! What is done to two slots once the records of the one that is read were handed on.
ghost use Rattle.std.specs.Prelude.{◌≡◌, ◌+◌, ◌*◌, ◌<◌, ◌≤◌, ◌^◌, IfErr, IfOk, IsErrOf, IsTrue, List, OnOk, [], ◌∷◌, ◌++◌, cond, length, ℕ};
ghost use Rattle.host_disk.specs.Crashes.{CountsFailure, LeavesOnly, Only};
ghost use Rattle.record_file.specs.declared.faults.OpenFault.TheVariants.{BadHeader, BadRecord, Device, OutOfMemory};
ghost use Rattle.record_file.specs.declared.headers.Version.TheVariants.{Current, Old};
ghost use Rattle.record_file.specs.Frames.{opened};
ghost use Rattle.record_file.specs.Openings.{IsMending};
ghost use Rattle.record_file.specs.Pairs.{BothOnlyRead, IsBeside, IsEnd, IsMade, IsReady, is_moved};
ghost use Rattle.record_file.specs.Slots.{AllStale, IsBelow, IsInUse, IsReplacing, IsSurveyed, header_of, new_header, old_header};
ghost use Rattle.record_file.specs.Walks.{IsOnlyRead, TellsEither};

use crate::faults::OpenFault;
use crate::filling::clear;
use crate::headers::Version;
use crate::mending::mend;
use crate::migrations::bring_over;
use crate::positions::Position;
use crate::surveys::Found;
use crate::walks::End;
use host_disk::{DeviceFault, Disk};
use std::alloc::Global;

/// Leaves nothing of a slot that isn't read which a later write of its gate could bring back.
fn clear_unused<D: Disk>(disk: &mut D, found: Found) -> Result<(), DeviceFault>
    ensures stale { IsTrue D.is_modelled → IsSurveyed found.size found.version (D.seen disk.old)
        → Only (D.seen disk.old) (D.may_leave disk.old) → IsBelow 1 (D.seen disk.old)
        → OnOk result (AllStale 1 (D.may_leave disk.new)) }
    ensures used { IsTrue D.is_modelled → IsSurveyed found.size found.version (D.seen disk.old)
        → IsInUse (D.seen disk.old) → IsOnlyRead D.seen D.may_leave D.moment D.left_since disk.old disk.new }
    ensures unused { IsTrue D.is_modelled → IsSurveyed found.size found.version (D.seen disk.old)
        → Only (D.seen disk.old) (D.may_leave disk.old)
        → LeavesOnly D.moment D.left_since disk.old disk.new (IsBeside Current (λ c. ⊥) (D.seen disk.old)) }
    ensures cause { CountsFailure result (D.faults disk.old) (D.faults disk.new) }
{
    if found.version.is_none() {
        return clear(disk, found.size);
    }
    Ok(())
}

/// Clears the slot beside one of version 2 if that isn't in use, and mends the end of its records. Answers where the next record goes.
fn finish_current<D: Disk>(
    read: &mut D,
    other: &mut D,
    end: End,
    size: usize,
    beside: Found,
) -> Result<Position, OpenFault>
    requires { end.position.gate + 1 < 2 ^ 64 }
    ensures made { IsTrue D.is_modelled → (bodies : List (List ℕ))
        → IsEnd new_header bodies end.position.gate end.position.count end.gate (D.seen read.old)
        → IsReady D.seen D.may_leave Current size beside read.old other.old
        → IfOk result (λ position. IsMade bodies position.gate position.count (D.seen read.new) (D.may_leave read.new)
        (D.may_leave other.new)) }
    ensures count { IfOk result (λ position. position.count ≡ end.position.count) }
    ensures device { IfErr result (λ fault. fault ≡ Device) }
    ensures any_moment { IsTrue D.is_modelled → (bodies : List (List ℕ)) (rest : List ℕ)
        → end.position.gate ≡ length (opened new_header bodies)
        → D.seen read.old ≡ opened new_header bodies ++ end.gate ∷ rest
        → Only (D.seen read.old) (D.may_leave read.old)
        → LeavesOnly D.moment D.left_since read.old read.new (IsMending (opened new_header bodies) end.gate rest) }
    ensures any_moment_beside { IsTrue D.is_modelled → IsReady D.seen D.may_leave Current size beside read.old other.old
        → LeavesOnly D.moment D.left_since other.old other.new (IsBeside Current (λ c. ⊥) (D.seen other.old)) }
    ensures used { IsTrue D.is_modelled → IsReady D.seen D.may_leave Current size beside read.old other.old
        → IsInUse (D.seen other.old) → IsOnlyRead D.seen D.may_leave D.moment D.left_since other.old other.new }
    ensures cause { TellsEither result (D.faults read.old) (D.faults other.old) (D.faults read.new) (D.faults other.new) }
{
    clear_unused(other, beside)?;
    mend(read, end.position.gate, end.gate, size)?;
    Ok(end.position)
}

/// Brings a file of version 1 over into the slot beside it, which isn't in use. Answers where the next record goes there.
fn finish_old<D: Disk>(
    alloc: Global,
    read: &mut D,
    other: &mut D,
    end: End,
    beside: Found,
) -> Result<Position, OpenFault>
    requires start { 8 ≤ end.position.gate }
    requires near { end.position.gate ≤ 8 + 10470075 * end.position.count }
    ensures made { IsTrue D.is_modelled → (size : ℕ) (bodies : List (List ℕ))
        → IsEnd old_header bodies end.position.gate end.position.count end.gate (D.seen read.old)
        → IsReady D.seen D.may_leave Old size beside read.old other.old
        → IfOk result (λ position. IsMade bodies position.gate position.count (D.seen other.new) (D.may_leave other.new)
        (D.may_leave read.new)) }
    ensures count { IfOk result (λ position. position.count ≡ end.position.count) }
    ensures fault { IfErr result (λ fault. (i : ℕ) → fault ≡ BadRecord i → ⊥) }
    ensures header { IsErrOf result BadHeader → ⊥ }
    ensures memory { IsErrOf result OutOfMemory → 1 ≤ end.position.count }
    ensures same { IsTrue D.is_modelled → IsOnlyRead D.seen D.may_leave D.moment D.left_since read.old read.new }
    ensures unwritten { IsTrue D.is_modelled → IfErr result (λ fault. (fault ≡ Device → ⊥)
        → IsOnlyRead D.seen D.may_leave D.moment D.left_since other.old other.new) }
    ensures any_moment_beside { IsTrue D.is_modelled → (size : ℕ) (bodies : List (List ℕ))
        → IsEnd old_header bodies end.position.gate end.position.count end.gate (D.seen read.old)
        → IsReady D.seen D.may_leave Old size beside read.old other.old
        → LeavesOnly D.moment D.left_since other.old other.new (IsReplacing (opened new_header bodies ++ 0 ∷ [])) }
    ensures cause { TellsEither result (D.faults read.old) (D.faults other.old) (D.faults read.new) (D.faults other.new) }
{
    bring_over(alloc, read, other, beside.size, end.position)?;
    Ok(end.position.moved())
}

/// Readies a slot of this version, whose records end there, and the slot beside it. Answers where the next record goes: in the slot beside it if
/// its file is brought over.
pub(crate) fn finish<D: Disk>(
    alloc: Global,
    read: &mut D,
    other: &mut D,
    version: Version,
    end: End,
    size: usize,
    beside: Found,
) -> Result<Position, OpenFault>
    requires far { length (header_of version) < end.position.gate }
    requires near { end.position.gate ≤ length (header_of version) + 1 + 10470075 * end.position.count }
    ensures made { IsTrue D.is_modelled → (bodies : List (List ℕ))
        → IsEnd (header_of version) bodies end.position.gate end.position.count end.gate (D.seen read.old)
        → IsReady D.seen D.may_leave version size beside read.old other.old
        → IfOk result (λ position. IsMade bodies position.gate position.count
        (cond (is_moved version) (D.seen other.new) (D.seen read.new))
        (cond (is_moved version) (D.may_leave other.new) (D.may_leave read.new))
        (cond (is_moved version) (D.may_leave read.new) (D.may_leave other.new))) }
    ensures count { IfOk result (λ position. position.count ≡ end.position.count) }
    ensures fault { IfErr result (λ fault. (i : ℕ) → fault ≡ BadRecord i → ⊥) }
    ensures header { IsErrOf result BadHeader → ⊥ }
    ensures memory { IsErrOf result OutOfMemory → 1 ≤ end.position.count }
    ensures unwritten { IsTrue D.is_modelled → IfErr result (λ fault. (fault ≡ Device → ⊥)
        → BothOnlyRead D.seen D.may_leave D.moment D.left_since read.old other.old read.new other.new) }
    ensures any_moment { IsTrue D.is_modelled → (bodies : List (List ℕ)) (rest : List ℕ)
        → end.position.gate ≡ length (opened (header_of version) bodies)
        → D.seen read.old ≡ opened (header_of version) bodies ++ end.gate ∷ rest
        → Only (D.seen read.old) (D.may_leave read.old)
        → LeavesOnly D.moment D.left_since read.old read.new (IsMending (opened (header_of version) bodies) end.gate rest) }
    ensures any_moment_beside { IsTrue D.is_modelled → (bodies : List (List ℕ))
        → IsEnd (header_of version) bodies end.position.gate end.position.count end.gate (D.seen read.old)
        → IsReady D.seen D.may_leave version size beside read.old other.old
        → LeavesOnly D.moment D.left_since other.old other.new
        (IsBeside version (λ c. c ≡ opened new_header bodies ++ 0 ∷ []) (D.seen other.old)) }
    ensures old { IsTrue D.is_modelled → version ≡ Old
        → IsOnlyRead D.seen D.may_leave D.moment D.left_since read.old read.new }
    ensures used { IsTrue D.is_modelled → IsReady D.seen D.may_leave version size beside read.old other.old
        → IsInUse (D.seen other.old) → IsOnlyRead D.seen D.may_leave D.moment D.left_since other.old other.new }
    ensures cause { TellsEither result (D.faults read.old) (D.faults other.old) (D.faults read.new) (D.faults other.new) }
{
    match version {
        Version::Old => finish_old(alloc, read, other, end, beside),
        Version::Current => finish_current(read, other, end, size, beside),
    }
}
