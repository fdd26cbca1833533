//! Why a call of the system failed.
use std::io::{Error, ErrorKind};

/// A few words for the failure of a call.
pub fn reason_of(error: &Error) -> &'static str {
    match error.kind() {
        ErrorKind::NotFound => "it isn't there",
        ErrorKind::PermissionDenied => "no permission",
        ErrorKind::AlreadyExists => "it is there already",
        ErrorKind::StorageFull => "no space is left",
        ErrorKind::FileTooLarge => "the file would be too large",
        ErrorKind::ReadOnlyFilesystem => "the file system is read-only",
        ErrorKind::QuotaExceeded => "the quota is used up",
        ErrorKind::WriteZero | ErrorKind::UnexpectedEof => "fewer bytes moved than were asked for",
        ErrorKind::TimedOut => "it took too long",
        ErrorKind::ConnectionRefused => "the connection was refused",
        ErrorKind::OutOfMemory => "out of memory",
        _ => "the device or the system failed",
    }
}
