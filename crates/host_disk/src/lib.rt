//! Disks that may crash at any moment: what a crash leaves, and a disk in memory, a lent one, a file, and disks that stop or fail.
#![tactic(auto)]

mod contents;
mod counts;
mod disks;
mod fault_disk;
mod faults;
mod file_disk;
mod file_faults;
mod fuse_disk;
pub mod laws;
mod lent_disk;
mod locked_folder;
mod mem_disk;
mod named_file;
mod pasts;

pub use disks::Disk;
pub use fault_disk::FaultDisk;
pub use faults::DeviceFault;
pub use file_disk::FileDisk;
pub use fuse_disk::FuseDisk;
pub use lent_disk::LentDisk;
pub use locked_folder::LockedFolder;
pub use mem_disk::MemDisk;
