//! Why a call of a shelf that threads share fails.
ghost use Rattle.std.specs.Prelude.{◌≡◌, ◌↔◌};
ghost use Rattle.blob_store.specs.Receipts.{told_fault};
ghost use Rattle.blob_store.specs.declared.access_faults.AccessFault.TheVariants as access_fault;
ghost use Rattle.blob_store.specs.declared.shelves.ShelfFault.TheVariants as shelf_fault;

use crate::shelves::ShelfFault;
use thiserror::Error;

/// Why a shelf that threads share can't answer. Lack of a descriptor is told apart from a failure of the device, since the same call may succeed
/// once a connection has ended.
#[derive(Clone, Copy, Debug, PartialEq, Eq, Error)]
pub enum AccessFault {
    #[error("the device failed")]
    Device,
    #[error("no descriptor is left")]
    NoDescriptor,
    #[error("out of memory")]
    OutOfMemory,
}

impl AccessFault {
    /// The fault of a shelf, which never tells that a descriptor lacks.
    pub(crate) fn of_shelf(fault: ShelfFault) -> AccessFault
        ensures device { (result ≡ access_fault.Device) ↔ (fault ≡ shelf_fault.Device) }
        ensures memory { (result ≡ access_fault.OutOfMemory) ↔ (fault ≡ shelf_fault.OutOfMemory) }
        ensures told { told_fault result ≡ fault }
    {
        match fault {
            ShelfFault::Device => AccessFault::Device,
            ShelfFault::OutOfMemory => AccessFault::OutOfMemory,
        }
    }

    /// The fault as a shelf tells it: there the lack of a descriptor is a failure of the device.
    pub(crate) fn on_shelf(self) -> ShelfFault
        ensures { result ≡ told_fault self }
    {
        match self {
            AccessFault::Device | AccessFault::NoDescriptor => ShelfFault::Device,
            AccessFault::OutOfMemory => ShelfFault::OutOfMemory,
        }
    }
}
