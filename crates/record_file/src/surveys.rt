//! What is found of two slots before one is read.
ghost use Rattle.std.specs.Prelude.{◌≡◌, ◌⊎◌, ◌+◌, ◌<◌, IfErr, IfOk, IsErrOf, IsTrue, OnErr, OnOk, Some, length, ℕ};
ghost use Rattle.host_disk.specs.Crashes.{CountsFailure, Only};
ghost use Rattle.record_file.specs.declared.faults.OpenFault.TheVariants.{BadHeader, BadRecord, Device, OutOfMemory};
ghost use Rattle.record_file.specs.declared.headers.Version.{Version};
ghost use Rattle.record_file.specs.Failures.{MayFailReading};
ghost use Rattle.record_file.specs.Slots.{IsForeign, IsSurveyed, header_of};
ghost use Rattle.record_file.specs.Walks.{IsOnlyRead, TellsDevice, TellsEither};

use crate::faults::OpenFault;
use crate::headers::{Version, read_version};
use crate::walks::read_gate;
use host_disk::{DeviceFault, Disk};

/// What is found of a slot: how many bytes it has, and the version of its file if it is in use.
#[derive(Clone, Copy)]
pub(crate) struct Found {
    pub size: usize,
    pub version: Option<Version>,
    ghost long: { (v : Version) → version ≡ Some v → length (header_of v) + 1 < size },
}

/// Syncs, and tells the size.
fn measure<D: Disk>(disk: &mut D) -> Result<usize, DeviceFault>
    ensures size { IsTrue D.is_modelled → IfOk result (λ size. size ≡ length (D.seen disk.old)) }
    ensures durable { IsTrue D.is_modelled → OnOk result (Only (D.seen disk.new) (D.may_leave disk.new)) }
    ensures same { IsTrue D.is_modelled → IsOnlyRead D.seen D.may_leave D.moment D.left_since disk.old disk.new }
    ensures reason { IsTrue D.is_modelled → OnErr result (MayFailReading D.seen D.may_fail (D.seen disk.old)) }
    ensures cause { CountsFailure result (D.faults disk.old) (D.faults disk.new) }
{
    disk.sync()?;
    disk.len()
}

/// The version of the file of a slot of this size, if that is in use. Then its header has to be whole.
fn version_of<D: Disk>(disk: &mut D, size: usize) -> Result<Option<Version>, OpenFault>
    ensures found { IsTrue D.is_modelled → size ≡ length (D.seen disk.old)
        → IfOk result (λ version. IsSurveyed size version (D.seen disk.old)) }
    ensures long { IfOk result (λ version. (v : Version) → version ≡ Some v → length (header_of v) + 1 < size) }
    ensures bad { IsTrue D.is_modelled → size ≡ length (D.seen disk.old) → IsErrOf result BadHeader
        → IsForeign (D.seen disk.old) }
    ensures fault { IfErr result (λ fault. (i : ℕ) → fault ≡ BadRecord i → ⊥) }
    ensures memory { IsErrOf result OutOfMemory → ⊥ }
    ensures same { IsTrue D.is_modelled → IsOnlyRead D.seen D.may_leave D.moment D.left_since disk.old disk.new }
    ensures reason { IsTrue D.is_modelled → size ≡ length (D.seen disk.old) → IsErrOf result Device
        → MayFailReading D.seen D.may_fail (D.seen disk.old) }
    ensures cause { TellsDevice result (D.faults disk.old) (D.faults disk.new) }
{
    if size < 2 {
        return Ok(None);
    }
    let gate = read_gate(disk, 0)?;
    if gate != 1 {
        return Ok(None);
    }
    Ok(Some(read_version(disk, size)?))
}

/// What is found of a slot of this size.
fn survey<D: Disk>(disk: &mut D, size: usize) -> Result<Found, OpenFault>
    ensures found { IsTrue D.is_modelled → size ≡ length (D.seen disk.old)
        → IfOk result (λ found. IsSurveyed found.size found.version (D.seen disk.old)) }
    ensures bad { IsTrue D.is_modelled → size ≡ length (D.seen disk.old) → IsErrOf result BadHeader
        → IsForeign (D.seen disk.old) }
    ensures fault { IfErr result (λ fault. (i : ℕ) → fault ≡ BadRecord i → ⊥) }
    ensures memory { IsErrOf result OutOfMemory → ⊥ }
    ensures same { IsTrue D.is_modelled → IsOnlyRead D.seen D.may_leave D.moment D.left_since disk.old disk.new }
    ensures reason { IsTrue D.is_modelled → size ≡ length (D.seen disk.old) → IsErrOf result Device
        → MayFailReading D.seen D.may_fail (D.seen disk.old) }
    ensures cause { TellsDevice result (D.faults disk.old) (D.faults disk.new) }
{
    let version = version_of(disk, size)?;
    Ok(Found { size, version })
}

/// What is found of two slots of these sizes.
pub(crate) fn survey_measured<D: Disk>(
    first: &mut D,
    second: &mut D,
    one_size: usize,
    other_size: usize,
) -> Result<(Found, Found), OpenFault>
    ensures found { IsTrue D.is_modelled → one_size ≡ length (D.seen first.old) → other_size ≡ length (D.seen second.old)
        → IfOk result (λ found. IsSurveyed found.0.size found.0.version (D.seen first.old)
        × IsSurveyed found.1.size found.1.version (D.seen second.old)) }
    ensures bad { IsTrue D.is_modelled → one_size ≡ length (D.seen first.old) → other_size ≡ length (D.seen second.old)
        → IsErrOf result BadHeader → IsForeign (D.seen first.old) ⊎ IsForeign (D.seen second.old) }
    ensures fault { IfErr result (λ fault. (i : ℕ) → fault ≡ BadRecord i → ⊥) }
    ensures memory { IsErrOf result OutOfMemory → ⊥ }
    ensures same_first { IsTrue D.is_modelled
        → IsOnlyRead D.seen D.may_leave D.moment D.left_since first.old first.new }
    ensures same_second { IsTrue D.is_modelled
        → IsOnlyRead D.seen D.may_leave D.moment D.left_since second.old second.new }
    ensures reason { IsTrue D.is_modelled → one_size ≡ length (D.seen first.old)
        → other_size ≡ length (D.seen second.old) → IsErrOf result Device
        → MayFailReading D.seen D.may_fail (D.seen first.old) ⊎ MayFailReading D.seen D.may_fail (D.seen second.old) }
    ensures cause { TellsEither result (D.faults first.old) (D.faults second.old) (D.faults first.new) (D.faults second.new) }
{
    let one = survey(first, one_size)?;
    let other = survey(second, other_size)?;
    Ok((one, other))
}

/// Syncs two slots, and tells what is found of them.
pub(crate) fn survey_both<D: Disk>(
    first: &mut D,
    second: &mut D,
) -> Result<(Found, Found), OpenFault>
    ensures found { IsTrue D.is_modelled
        → IfOk result (λ found. IsSurveyed found.0.size found.0.version (D.seen first.old)
        × IsSurveyed found.1.size found.1.version (D.seen second.old)) }
    ensures durable { IsTrue D.is_modelled → OnOk result (Only (D.seen first.new) (D.may_leave first.new)
        × Only (D.seen second.new) (D.may_leave second.new)) }
    ensures bad { IsTrue D.is_modelled → IsErrOf result BadHeader
        → IsForeign (D.seen first.old) ⊎ IsForeign (D.seen second.old) }
    ensures fault { IfErr result (λ fault. (i : ℕ) → fault ≡ BadRecord i → ⊥) }
    ensures memory { IsErrOf result OutOfMemory → ⊥ }
    ensures same_first { IsTrue D.is_modelled
        → IsOnlyRead D.seen D.may_leave D.moment D.left_since first.old first.new }
    ensures same_second { IsTrue D.is_modelled
        → IsOnlyRead D.seen D.may_leave D.moment D.left_since second.old second.new }
    ensures reason { IsTrue D.is_modelled → IsErrOf result Device
        → MayFailReading D.seen D.may_fail (D.seen first.old) ⊎ MayFailReading D.seen D.may_fail (D.seen second.old) }
    ensures cause { TellsEither result (D.faults first.old) (D.faults second.old) (D.faults first.new) (D.faults second.new) }
{
    let one_size = measure(first)?;
    let other_size = measure(second)?;
    survey_measured(first, second, one_size, other_size)
}
