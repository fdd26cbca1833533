//! The opening of the slot that is read, beside the other one.
ghost use Rattle.std.specs.Prelude.{◌≡◌, ◌+◌, ◌*◌, ◌<◌, ◌≤◌, IfErr, IfOk, IsErrOf, IsTrue, List, [], cond, length, ℕ};
ghost use Rattle.host_disk.specs.Crashes.{LeavesOnly};
ghost use Rattle.record_file.specs.declared.faults.OpenFault.TheVariants.{BadHeader, BadRecord, Device, OutOfMemory};
ghost use Rattle.record_file.specs.declared.headers.Version.TheVariants.{Old};
ghost use Rattle.record_file.specs.Failures.{MayFailReading};
ghost use Rattle.record_file.specs.Frames.{MayHold};
ghost use Rattle.record_file.specs.Openings.{MayBePut};
ghost use Rattle.record_file.specs.Pairs.{BothOnlyRead, HasOpened, IsBadFile, IsBeside, IsReady, MayLead, is_moved};
ghost use Rattle.record_file.specs.Slots.{IsInUse, header_of};
ghost use Rattle.record_file.specs.Walks.{HasCounted, HasEnded, HasRecord, IsBadRecord, IsOnlyRead, IsOpened, TellsDevice, TellsEither};

use crate::bodies::Bodies;
use crate::faults::OpenFault;
use crate::finishing::finish;
use crate::headers::{HEADER, OLD_HEADER, Version};
use crate::positions::Position;
use crate::surveys::Found;
use crate::walks::{End, walk_records};
use host_disk::Disk;
use std::alloc::Global;

/// Hands on the bodies of a file of this version, up to the first gate that isn't open. Answers where that is.
pub(crate) fn walk_version<D: Disk, B: Bodies>(
    alloc: Global,
    disk: &mut D,
    version: Version,
    size: usize,
    bodies: &mut B,
) -> Result<End, OpenFault>
    requires { length (header_of version) + 1 < size }
    ensures end { IsTrue D.is_modelled → size ≡ length (D.seen disk.old) → IsOpened (header_of version) (D.seen disk.old)
        → B.has bodies.old [] → IfOk result (λ end. HasEnded (header_of version) (B.has bodies.new) (B.is_lawful (header_of version))
        end.position.gate end.position.count end.gate (D.seen disk.old)) }
    ensures count { B.has bodies.old [] → IfOk result (λ end. HasCounted (B.has bodies.new) end.position.count) }
    ensures far { IfOk result (λ end. length (header_of version) < end.position.gate) }
    ensures near { IfOk result (λ end. end.position.gate ≤ length (header_of version) + 1 + 10470075 * end.position.count) }
    ensures bad { IsTrue D.is_modelled → size ≡ length (D.seen disk.old) → IsOpened (header_of version) (D.seen disk.old)
        → B.has bodies.old [] → IfErr result (λ fault. (i : ℕ) → fault ≡ BadRecord i
        → IsBadRecord (header_of version) (B.is_lawful (header_of version)) i (D.seen disk.old)) }
    ensures same { IsTrue D.is_modelled → IsOnlyRead D.seen D.may_leave D.moment D.left_since disk.old disk.new }
    ensures header { IsErrOf result BadHeader → ⊥ }
    ensures memory { IsTrue D.is_modelled → IsOpened (header_of version) (D.seen disk.old) → B.has bodies.old []
        → IsErrOf result OutOfMemory → HasRecord (header_of version) (D.seen disk.old) }
    ensures reason { IsTrue D.is_modelled → size ≡ length (D.seen disk.old) → IsErrOf result Device
        → MayFailReading D.seen D.may_fail (D.seen disk.old) }
    ensures cause { TellsDevice result (D.faults disk.old) (D.faults disk.new) }
{
    match version {
        Version::Old => walk_records(alloc, disk, &OLD_HEADER, size, bodies),
        Version::Current => walk_records(alloc, disk, &HEADER, size, bodies),
    }
}

/// Hands on the bodies of the slot that is read, which has a file of this version, and readies it and the slot beside it. Answers where the next
/// record goes: in the slot beside it if the file is of version 1.
pub(crate) fn open_read<D: Disk, B: Bodies>(
    alloc: Global,
    read: &mut D,
    other: &mut D,
    version: Version,
    size: usize,
    beside: Found,
    bodies: &mut B,
) -> Result<Position, OpenFault>
    requires { length (header_of version) + 1 < size }
    ensures opened { IsTrue D.is_modelled → IsReady D.seen D.may_leave version size beside read.old other.old
        → B.has bodies.old [] → IfOk result (λ position. HasOpened (B.has bodies.new) B.is_lawful position.gate
        position.count (D.seen read.old) (D.seen other.old)
        (cond (is_moved version) (D.seen other.new) (D.seen read.new))
        (cond (is_moved version) (D.may_leave other.new) (D.may_leave read.new))
        (cond (is_moved version) (D.may_leave read.new) (D.may_leave other.new))) }
    ensures count { B.has bodies.old [] → IfOk result (λ position. HasCounted (B.has bodies.new) position.count) }
    ensures bad { IsTrue D.is_modelled → IsReady D.seen D.may_leave version size beside read.old other.old
        → B.has bodies.old [] → IfErr result (λ fault. (i : ℕ) → fault ≡ BadRecord i
        → IsBadRecord (header_of version) (B.is_lawful (header_of version)) i (D.seen read.old)) }
    ensures header { IsErrOf result BadHeader → ⊥ }
    ensures unwritten { IsTrue D.is_modelled → IfErr result (λ fault. (fault ≡ Device → ⊥)
        → BothOnlyRead D.seen D.may_leave D.moment D.left_since read.old other.old read.new other.new) }
    ensures refused { IsTrue D.is_modelled → IsReady D.seen D.may_leave version size beside read.old other.old
        → B.has bodies.old [] → IsBadFile (header_of version) (B.is_lawful (header_of version)) (D.seen read.old)
        → BothOnlyRead D.seen D.may_leave D.moment D.left_since read.old other.old read.new other.new }
    ensures any_moment { IsTrue D.is_modelled → IsReady D.seen D.may_leave version size beside read.old other.old
        → B.has bodies.old [] → (had : List (List ℕ)) (body : List ℕ) → MayBePut had body
        → MayHold (header_of version) had body (D.seen read.old)
        → LeavesOnly D.moment D.left_since read.old read.new (MayHold (header_of version) had body) }
    ensures any_moment_beside { IsTrue D.is_modelled → IsReady D.seen D.may_leave version size beside read.old other.old
        → B.has bodies.old [] → (had : List (List ℕ)) (body : List ℕ) → MayBePut had body
        → MayHold (header_of version) had body (D.seen read.old)
        → LeavesOnly D.moment D.left_since other.old other.new (IsBeside version (MayLead 1 had body) (D.seen other.old)) }
    ensures memory { IsTrue D.is_modelled → IsReady D.seen D.may_leave version size beside read.old other.old
        → B.has bodies.old [] → IsErrOf result OutOfMemory → HasRecord (header_of version) (D.seen read.old) }
    ensures reason { IsTrue D.is_modelled → IsReady D.seen D.may_leave version size beside read.old other.old
        → B.has bodies.old [] → IsBadFile (header_of version) (B.is_lawful (header_of version)) (D.seen read.old) → IsErrOf result Device
        → MayFailReading D.seen D.may_fail (D.seen read.old) }
    ensures old { IsTrue D.is_modelled → version ≡ Old
        → IsOnlyRead D.seen D.may_leave D.moment D.left_since read.old read.new }
    ensures used { IsTrue D.is_modelled → IsReady D.seen D.may_leave version size beside read.old other.old
        → IsInUse (D.seen other.old) → IsOnlyRead D.seen D.may_leave D.moment D.left_since other.old other.new }
    ensures cause { TellsEither result (D.faults read.old) (D.faults other.old) (D.faults read.new) (D.faults other.new) }
{
    let end = walk_version(alloc, read, version, size, bodies)?;
    finish(alloc, read, other, version, end, size, beside)
}
