//! A change of a disk that lasts: a sync follows it.
ghost use Rattle.std.specs.Prelude.{◌≡◌, ◌⊎◌, IsTrue, OnErr, OnOk, length, take};
ghost use Rattle.host_disk.specs.Calls.{Sync, WriteAt};
ghost use Rattle.host_disk.specs.Crashes.{CountsFailure, Cut, IsWritten, LeavesOnly, Only, Torn};
ghost use Rattle.record_file.specs.Frames.{MayLeave};

use host_disk::{DeviceFault, Disk};

/// Writes bytes from `at` on, and syncs.
pub(crate) fn write_synced<D: Disk>(
    disk: &mut D,
    at: usize,
    bytes: &[u8],
) -> Result<(), DeviceFault>
    ensures written { IsTrue D.is_modelled → OnOk result (IsWritten (D.seen disk.old) at bytes.now (D.seen disk.new)) }
    ensures durable { IsTrue D.is_modelled → OnOk result (Only (D.seen disk.new) (D.may_leave disk.new)) }
    ensures any_moment { IsTrue D.is_modelled
        → LeavesOnly D.moment D.left_since disk.old disk.new (MayLeave (Torn at (length bytes.now)) (D.may_leave disk.old)) }
    ensures reason { IsTrue D.is_modelled → OnErr result (D.may_fail disk.old (WriteAt at (length bytes.now))
        ⊎ ((mid : D) × IsWritten (D.seen disk.old) at bytes.now (D.seen mid) × D.may_fail mid Sync)) }
    ensures cause { CountsFailure result (D.faults disk.old) (D.faults disk.new) }
{
    disk.write_at(at, bytes)?;
    disk.sync()
}

/// Cuts the disk to its first `size` bytes, and syncs.
pub(crate) fn cut_synced<D: Disk>(disk: &mut D, size: usize) -> Result<(), DeviceFault>
    ensures cut { IsTrue D.is_modelled → OnOk result (D.seen disk.new ≡ take size (D.seen disk.old)) }
    ensures durable { IsTrue D.is_modelled → OnOk result (Only (D.seen disk.new) (D.may_leave disk.new)) }
    ensures any_moment { IsTrue D.is_modelled
        → LeavesOnly D.moment D.left_since disk.old disk.new (MayLeave (Cut size) (D.may_leave disk.old)) }
    ensures cause { CountsFailure result (D.faults disk.old) (D.faults disk.new) }
{
    disk.cut(size)?;
    disk.sync()
}
