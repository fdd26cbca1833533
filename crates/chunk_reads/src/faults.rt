//! Why something isn't read.

use thiserror::Error;

/// Why a chunk or a file can't be read.
#[derive(Clone, Copy, Debug, PartialEq, Eq, Error)]
pub enum ReadFault {
    #[error("the shelf doesn't have it")]
    Missing,
    /// The shelf gave other bytes than those of the chunk or the file; or, where a file is read whole, no bytes for a piece that its table
    /// names.
    #[error("the shelf has other bytes")]
    Damaged,
    #[error("the device failed")]
    Device,
    #[error("out of memory")]
    OutOfMemory,
}
