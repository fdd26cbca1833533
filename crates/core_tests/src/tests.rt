//! One file of tests for each kind of thing, and what they share.
mod bases;
mod boundaries;
mod caches;
mod cells;
mod disks;
mod files;
mod fixtures;
mod histories;
mod ranges;
mod records;
mod stores;
mod views;
