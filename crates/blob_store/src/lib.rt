//! Files kept in pieces of 64 KiB on a shelf that is not trusted.
#![tactic(auto)]

mod access_faults;
mod blob_indexes;
mod blobs;
mod call_logs;
mod dir_shelf;
mod file_calls;
mod files;
mod folder_files;
pub mod laws;
mod lent_shelf;
mod mem_shelf;
mod openings;
mod puts;
mod reading;
mod receipts;
mod shared_shelf;
mod shelf_access;
mod shelf_files;
mod shelves;
mod stored_pieces;
mod system_calls;
mod tables;
mod tags;
mod temporary_names;

pub use access_faults::AccessFault;
pub use blob_indexes::BlobIndex;
pub use blobs::{Blobs, NotOpened, UploadFault};
pub use dir_shelf::DirShelf;
pub use lent_shelf::LentShelf;
pub use mem_shelf::MemShelf;
pub use openings::{OpenFault, Wanted};
pub use reading::read_chunk;
pub use receipts::{AbsenceReceipt, Absent, Found, PutReceipt, ShelfLacks, ShelfPut, Written};
pub use shared_shelf::SharedShelf;
pub use shelf_access::{FolderAccess, LockedAccess, ShelfAccess};
pub use shelf_files::Files;
pub use shelves::{Shelf, ShelfFault, ShelfName};
