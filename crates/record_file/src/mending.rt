//! The end of a file of records, when it is opened.
ghost use Rattle.std.specs.Prelude.{◌≡◌, ◌+◌, ◌<◌, ◌≤◌, ◌^◌, IsTrue, List, OnOk, [], ◌∷◌, ◌++◌, length, ℕ};
ghost use Rattle.host_disk.specs.Crashes.{CountsFailure, LeavesOnly, Only};
ghost use Rattle.record_file.specs.Openings.{HasShut, HasSomeGate, IsExactly, IsMending};

use crate::synced::{cut_synced, write_synced};
use host_disk::{DeviceFault, Disk};

/// Shuts the gate at an offset by a 0, unless it is 0 already.
fn shut_gate<D: Disk>(disk: &mut D, at: usize, gate: u8) -> Result<(), DeviceFault>
    ensures shut { IsTrue D.is_modelled → (front rest : List ℕ) → at ≡ length front → D.seen disk.old
        ≡ front ++ gate ∷ rest → Only (D.seen disk.old) (D.may_leave disk.old)
        → OnOk result (IsExactly (front ++ 0 ∷ rest) (D.seen disk.new) (D.may_leave disk.new)) }
    ensures any_moment { IsTrue D.is_modelled → (front rest : List ℕ) → at ≡ length front → D.seen disk.old
        ≡ front ++ gate ∷ rest → Only (D.seen disk.old) (D.may_leave disk.old)
        → LeavesOnly D.moment D.left_since disk.old disk.new (HasSomeGate front gate rest) }
    ensures cause { CountsFailure result (D.faults disk.old) (D.faults disk.new) }
{
    if gate != 0 {
        return write_synced(disk, at, &[0]);
    }
    Ok(())
}

/// Cuts off what follows a gate of 0.
pub(crate) fn cut_behind<D: Disk>(disk: &mut D, at: usize, size: usize) -> Result<(), DeviceFault>
    requires { at + 1 < 2 ^ 64 }
    ensures cut { IsTrue D.is_modelled → (front rest : List ℕ) → at ≡ length front → size ≡ length (D.seen disk.old)
        → D.seen disk.old ≡ front ++ 0 ∷ rest → Only (D.seen disk.old) (D.may_leave disk.old)
        → OnOk result (IsExactly (front ++ 0 ∷ []) (D.seen disk.new) (D.may_leave disk.new)) }
    ensures any_moment { IsTrue D.is_modelled → (front rest : List ℕ) → at ≡ length front → D.seen disk.old
        ≡ front ++ 0 ∷ rest → Only (D.seen disk.old) (D.may_leave disk.old)
        → LeavesOnly D.moment D.left_since disk.old disk.new (HasShut front) }
    ensures cause { CountsFailure result (D.faults disk.old) (D.faults disk.new) }
{
    if at + 1 < size {
        return cut_synced(disk, at + 1);
    }
    Ok(())
}

/// Shuts the gate that ends a file's records, and cuts off what follows it.
pub(crate) fn mend<D: Disk>(
    disk: &mut D,
    at: usize,
    gate: u8,
    size: usize,
) -> Result<(), DeviceFault>
    requires { at + 1 < 2 ^ 64 }
    ensures mended { IsTrue D.is_modelled → (front rest : List ℕ) → at ≡ length front
        → size ≡ length (D.seen disk.old) → D.seen disk.old ≡ front ++ gate ∷ rest
        → Only (D.seen disk.old) (D.may_leave disk.old)
        → OnOk result (IsExactly (front ++ 0 ∷ []) (D.seen disk.new) (D.may_leave disk.new)) }
    ensures any_moment { IsTrue D.is_modelled → (front rest : List ℕ) → at ≡ length front → D.seen disk.old
        ≡ front ++ gate ∷ rest → Only (D.seen disk.old) (D.may_leave disk.old)
        → LeavesOnly D.moment D.left_since disk.old disk.new (IsMending front gate rest) }
    ensures cause { CountsFailure result (D.faults disk.old) (D.faults disk.new) }
{
    shut_gate(disk, at, gate)?;
    cut_behind(disk, at, size)
}
