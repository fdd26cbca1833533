//! Journals on disks in memory: without memory, over a device that fails, after crashes, and which files their entries want.
mod crashes;
mod failing_disk;
mod files;
mod losses;
mod memory;
mod opened_slots;
mod stopped_disks;
mod stops;
mod versions;
mod wanted;
