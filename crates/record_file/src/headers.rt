//! The header of a file of records, by which a slot in use is told.
ghost use Rattle.std.specs.Prelude.{◌≡◌, ◌+◌, ◌≤◌, ◌<◌, IfErr, IfOk, IsErrOf, IsTrue, List, OnErr, ◌∷◌, ◌++◌, drop, false, length, ℕ};
ghost use Rattle.host_disk.specs.Crashes.{CountsFailure};
ghost use Rattle.record_file.specs.declared.faults.OpenFault.TheVariants.{BadHeader, BadRecord, Device, OutOfMemory};
ghost use Rattle.record_file.specs.Failures.{MayFailReading};
ghost use Rattle.record_file.specs.Slots.{HasFront, IsShown, generation_of, header_of, new_header, old_header};
ghost use Rattle.record_file.specs.Walks.{IsOnlyRead, TellsDevice};

use crate::faults::OpenFault;
use crate::positions::Position;
use crate::read_ahead::read_front;
use host_disk::{DeviceFault, Disk};

/// The most bytes of a header.
const LONGEST_HEADER: usize = 64;

/// `FHJRNL` and the version: the header of a file that was written before there were two slots.
pub(crate) const OLD_HEADER: [u8; 7] = *b"FHJRNL\x01";

/// `FHJRNL`, the version, and the generation in 8 bytes, which is 1.
pub(crate) const HEADER: [u8; 15] = *b"FHJRNL\x02\0\0\0\0\0\0\0\x01";

/// The version of a file.
#[derive(Clone, Copy)]
pub enum Version {
    /// Version 1, which has no generation, and counts as generation 0.
    Old,
    /// Version 2, with generation 1.
    Current,
}

impl Version {
    /// The generation of a file of this version: of two slots in use, the one with the greater one is read.
    pub(crate) fn generation(self) -> u64
        ensures { result ≡ generation_of self }
    {
        match self {
            Version::Old => 0,
            Version::Current => 1,
        }
    }

    /// The position of the first gate after the header of a file of this version.
    pub(crate) fn start(self) -> Position
        ensures { (result.gate ≡ length (header_of self) + 1) × (result.count ≡ 0) }
    {
        match self {
            Version::Old => Position::first(&OLD_HEADER),
            Version::Current => Position::first(&HEADER),
        }
    }
}

/// Whether bytes are the same.
fn is_same(bytes: &[u8], others: &[u8]) -> bool
    ensures same { IsTrue result → bytes.now ≡ others.now }
    ensures other { result ≡ false → bytes.now ≡ others.now → ⊥ }
{
    bytes == others
}

/// Whether this is the header of a file of version 1.
pub fn is_old_header(header: &[u8]) -> bool
    ensures old { IsTrue result → header.now ≡ old_header }
    ensures later { result ≡ false → header.now ≡ old_header → ⊥ }
{
    is_same(header, &OLD_HEADER)
}

/// Whether the header follows the gate of a file.
fn has_header<D: Disk>(disk: &mut D, header: &[u8]) -> Result<bool, DeviceFault>
    requires { length header.now ≤ 64 }
    ensures right { IsTrue D.is_modelled → IfOk result (λ right. IsTrue right → drop 1 (D.seen disk.old)
        ≡ header.now ++ drop (length header.now + 1) (D.seen disk.old)) }
    ensures wrong { IsTrue D.is_modelled → IfOk result (λ right. right ≡ false → (rest : List ℕ)
        → drop 1 (D.seen disk.old) ≡ header.now ++ rest → ⊥) }
    ensures same { IsTrue D.is_modelled → IsOnlyRead D.seen D.may_leave D.moment D.left_since disk.old disk.new }
    ensures reason { IsTrue D.is_modelled → length header.now + 1 ≤ length (D.seen disk.old)
        → OnErr result (MayFailReading D.seen D.may_fail (D.seen disk.old)) }
    ensures cause { CountsFailure result (D.faults disk.old) (D.faults disk.new) }
{
    let mut text = [0; LONGEST_HEADER];
    read_front(disk, 1, header.len(), &mut text)?;
    Ok(is_same(&text[..header.len()], header))
}

/// Whether this header follows the open gate of a file of this size, and a gate follows it.
fn has_front<D: Disk>(disk: &mut D, size: usize, header: &[u8]) -> Result<bool, DeviceFault>
    requires { length header.now ≤ 64 }
    ensures right { IsTrue D.is_modelled → size ≡ length (D.seen disk.old) → (rest : List ℕ) → D.seen disk.old ≡ 1 ∷ rest
        → IfOk result (λ right. IsTrue right → HasFront header.now (D.seen disk.old)) }
    ensures wrong { IsTrue D.is_modelled → size ≡ length (D.seen disk.old)
        → IfOk result (λ right. right ≡ false → HasFront header.now (D.seen disk.old) → ⊥) }
    ensures long { IfOk result (λ right. IsTrue right → length header.now + 1 < size) }
    ensures same { IsTrue D.is_modelled → IsOnlyRead D.seen D.may_leave D.moment D.left_since disk.old disk.new }
    ensures reason { IsTrue D.is_modelled → size ≡ length (D.seen disk.old)
        → OnErr result (MayFailReading D.seen D.may_fail (D.seen disk.old)) }
    ensures cause { CountsFailure result (D.faults disk.old) (D.faults disk.new) }
{
    let whole = header.len() + 2;
    if size < whole {
        return Ok(false);
    }
    has_header(disk, header)
}

/// The version of a file of this size whose own gate is open, by its header.
pub(crate) fn read_version<D: Disk>(disk: &mut D, size: usize) -> Result<Version, OpenFault>
    ensures shown { IsTrue D.is_modelled → size ≡ length (D.seen disk.old) → (rest : List ℕ) → D.seen disk.old ≡ 1 ∷ rest
        → IfOk result (λ version. HasFront (header_of version) (D.seen disk.old)) }
    ensures long { IfOk result (λ version. length (header_of version) + 1 < size) }
    ensures bad { IsTrue D.is_modelled → size ≡ length (D.seen disk.old) → IsErrOf result BadHeader
        → (generation : ℕ) → IsShown generation (D.seen disk.old) → ⊥ }
    ensures fault { IfErr result (λ fault. (i : ℕ) → fault ≡ BadRecord i → ⊥) }
    ensures memory { IsErrOf result OutOfMemory → ⊥ }
    ensures same { IsTrue D.is_modelled → IsOnlyRead D.seen D.may_leave D.moment D.left_since disk.old disk.new }
    ensures reason { IsTrue D.is_modelled → size ≡ length (D.seen disk.old) → IsErrOf result Device
        → MayFailReading D.seen D.may_fail (D.seen disk.old) }
    ensures cause { TellsDevice result (D.faults disk.old) (D.faults disk.new) }
{
    if has_front(disk, size, &OLD_HEADER)? {
        return Ok(Version::Old);
    }
    if has_front(disk, size, &HEADER)? {
        return Ok(Version::Current);
    }
    Err(OpenFault::BadHeader)
}
