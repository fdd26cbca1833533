//! Why an upload fails.

use crate::errors::DeskError;
use blob_store::UploadFault;

/// Why an upload fails. `S` is the receipt of the log that a refusal is of.
#[derive(Drop)]
pub enum UploadError<S> {
    /// The device of the journal failed at an earlier call.
    Broken,
    /// No deploy of that number is open or kept.
    NoSuchDeploy,
    /// The deploy lists no file at the path.
    NotListed,
    /// The bytes have another digest than the one that is listed.
    WrongDigest,
    /// The file is not stored.
    NotStored(UploadFault),
    /// The file is stored, and the deploy is ready, but is not published.
    NotPublished(DeskError<S>),
}
