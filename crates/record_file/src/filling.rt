//! How a file is written into a slot that isn't read: the slot is closed, filled behind its closed gate, and shown.
ghost use Rattle.std.specs.Prelude.{◌≡◌, ◌⊎◌, ◌≤◌, IsTrue, List, OnOk, [], ◌∷◌, length, ℕ};
ghost use Rattle.host_disk.specs.Crashes.{CountsFailure, LeavesOnly, Only};
ghost use Rattle.record_file.specs.Openings.{IsExactly};
ghost use Rattle.record_file.specs.Slots.{AllClosed, AllStale, HasGate, IsClosed, IsInUse, IsReplacing, IsStale, IsWriting};

use crate::synced::{cut_synced, write_synced};
use host_disk::{DeviceFault, Disk};

/// Closes a slot: from then on its first byte is 0, whatever a crash leaves.
fn close<D: Disk>(disk: &mut D) -> Result<(), DeviceFault>
    ensures emptied { IsTrue D.is_modelled → OnOk result (D.seen disk.new ≡ 0 ∷ []) }
    ensures closed { IsTrue D.is_modelled → OnOk result (AllClosed (D.may_leave disk.new)) }
    ensures any_moment { IsTrue D.is_modelled → (generation : ℕ) → AllStale generation (D.may_leave disk.old)
        → LeavesOnly D.moment D.left_since disk.old disk.new (λ c. IsStale generation c ⊎ IsClosed c) }
    ensures cause { CountsFailure result (D.faults disk.old) (D.faults disk.new) }
{
    write_synced(disk, 0, &[0])?;
    disk.cut(1)
}

/// Writes a file's bytes, from its header on, behind the gate of a closed slot.
fn fill<D: Disk>(disk: &mut D, behind: &[u8]) -> Result<(), DeviceFault>
    ensures filled { IsTrue D.is_modelled → D.seen disk.old ≡ 0 ∷ []
        → OnOk result (IsExactly (0 ∷ behind.now) (D.seen disk.new) (D.may_leave disk.new)) }
    ensures any_moment { IsTrue D.is_modelled → AllClosed (D.may_leave disk.old)
        → LeavesOnly D.moment D.left_since disk.old disk.new IsClosed }
    ensures cause { CountsFailure result (D.faults disk.old) (D.faults disk.new) }
{
    write_synced(disk, 1, behind)
}

/// Opens the gate of a slot that was filled.
fn show<D: Disk>(disk: &mut D) -> Result<(), DeviceFault>
    ensures shown { IsTrue D.is_modelled → (behind : List ℕ) → D.seen disk.old ≡ 0 ∷ behind
        → OnOk result (IsExactly (1 ∷ behind) (D.seen disk.new) (D.may_leave disk.new)) }
    ensures any_moment { IsTrue D.is_modelled → (behind : List ℕ) → Only (0 ∷ behind) (D.may_leave disk.old)
        → LeavesOnly D.moment D.left_since disk.old disk.new (HasGate behind) }
    ensures cause { CountsFailure result (D.faults disk.old) (D.faults disk.new) }
{
    write_synced(disk, 0, &[1])
}

/// Fills a closed slot, and opens its gate.
fn fill_and_show<D: Disk>(disk: &mut D, behind: &[u8]) -> Result<(), DeviceFault>
    ensures shown { IsTrue D.is_modelled → D.seen disk.old ≡ 0 ∷ []
        → OnOk result (IsExactly (1 ∷ behind.now) (D.seen disk.new) (D.may_leave disk.new)) }
    ensures any_moment { IsTrue D.is_modelled → (generation : ℕ) → D.seen disk.old ≡ 0 ∷ []
        → AllClosed (D.may_leave disk.old)
        → LeavesOnly D.moment D.left_since disk.old disk.new (IsWriting generation behind.now) }
    ensures cause { CountsFailure result (D.faults disk.old) (D.faults disk.new) }
{
    fill(disk, behind)?;
    show(disk)
}

/// Writes a file into a slot that isn't read: these bytes behind an open gate.
fn write_file<D: Disk>(disk: &mut D, behind: &[u8]) -> Result<(), DeviceFault>
    ensures written { IsTrue D.is_modelled
        → OnOk result (IsExactly (1 ∷ behind.now) (D.seen disk.new) (D.may_leave disk.new)) }
    ensures any_moment { IsTrue D.is_modelled → (generation : ℕ) → AllStale generation (D.may_leave disk.old)
        → LeavesOnly D.moment D.left_since disk.old disk.new (IsWriting generation behind.now) }
    ensures cause { CountsFailure result (D.faults disk.old) (D.faults disk.new) }
{
    close(disk)?;
    fill_and_show(disk, behind)
}

/// Leaves at most one byte of a slot that isn't in use: what stands behind its gate would be read again if a later write opened that gate.
pub(crate) fn clear<D: Disk>(disk: &mut D, size: usize) -> Result<(), DeviceFault>
    ensures cleared { IsTrue D.is_modelled → size ≡ length (D.seen disk.old)
        → Only (D.seen disk.old) (D.may_leave disk.old) → OnOk result (AllStale 0 (D.may_leave disk.new)) }
    ensures any_moment { IsTrue D.is_modelled → size ≡ length (D.seen disk.old) → (IsInUse (D.seen disk.old) → ⊥)
        → Only (D.seen disk.old) (D.may_leave disk.old)
        → LeavesOnly D.moment D.left_since disk.old disk.new (λ c. IsInUse c → ⊥) }
    ensures cause { CountsFailure result (D.faults disk.old) (D.faults disk.new) }
{
    if size > 1 {
        return cut_synced(disk, 1);
    }
    Ok(())
}

/// Writes a file into a slot of this size that isn't in use, which is cleared first.
pub(crate) fn replace<D: Disk>(disk: &mut D, size: usize, behind: &[u8]) -> Result<(), DeviceFault>
    ensures written { IsTrue D.is_modelled
        → OnOk result (IsExactly (1 ∷ behind.now) (D.seen disk.new) (D.may_leave disk.new)) }
    ensures any_moment { IsTrue D.is_modelled → size ≡ length (D.seen disk.old) → (IsInUse (D.seen disk.old) → ⊥)
        → Only (D.seen disk.old) (D.may_leave disk.old)
        → LeavesOnly D.moment D.left_since disk.old disk.new (IsReplacing (1 ∷ behind.now)) }
    ensures cause { CountsFailure result (D.faults disk.old) (D.faults disk.new) }
{
    clear(disk, size)?;
    write_file(disk, behind)
}
