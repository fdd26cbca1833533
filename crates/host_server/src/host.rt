//! A host: its history, and what is known of its uploads.

mod changes;
mod entry_errors;
mod houses;
mod readiness;
mod uploads;

pub use houses::SoloHouse;
pub(crate) use uploads::judge_upload;
