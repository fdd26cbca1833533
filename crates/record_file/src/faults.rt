//! Why a journal's file can't be opened.
ghost use Rattle.std.specs.Prelude.{◌≡◌};

use host_disk::DeviceFault;
use std::alloc::AllocError;
use thiserror::Error;

/// Why a journal can't be opened.
#[derive(Clone, Copy, Debug, PartialEq, Eq, Error)]
pub enum OpenFault {
    /// The file isn't a journal.
    #[error("the file is no journal")]
    BadHeader,
    /// The record with this number, from 1 on, is malformed, or is the 1,000,001st.
    #[error("record {0} of the journal is bad")]
    BadRecord(u64),
    #[error("the device failed")]
    Device,
    #[error("out of memory")]
    OutOfMemory,
}

impl From<DeviceFault> for OpenFault {
    ghost use Rattle.record_file.specs.declared.faults.OpenFault.TheVariants.{Device};

    ghost from_gives = { λ _ fault. fault ≡ Device };

    fn from(_: DeviceFault) -> OpenFault {
        OpenFault::Device
    }
}

impl From<AllocError> for OpenFault {
    ghost use Rattle.record_file.specs.declared.faults.OpenFault.TheVariants.{OutOfMemory};

    ghost from_gives = { λ _ fault. fault ≡ OutOfMemory };

    fn from(_: AllocError) -> OpenFault {
        OpenFault::OutOfMemory
    }
}
