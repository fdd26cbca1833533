//! Files of journals by their hexadecimal digits, on disks in memory, and what is opened of two slots.
ghost use Rattle.std.specs.Prelude.{◌≡◌, ◌≤◌};
ghost use Rattle.change_log.specs.Logs.{last_number};

use change_journal::laws::an_entry_with_a_text_is_in_range;
use change_journal::{Journal, Prepared, prepare};
use entry_texts::decode;
use host_disk::{Disk, LentDisk, MemDisk};
use record_file::{OpenFault, PutFault};
use std::alloc::Global;
use std::process::Abort;
use std::test::Fail;

/// The bytes of hexadecimal digits, in words.
pub(crate) fn bytes_of(alloc: Global, digits: &str) -> Result<Vec<u8>, Fail> {
    let mut bytes = Vec::new(alloc);
    for word in digits.split(' ') {
        bytes.extend_from_slice(hex::decode(alloc, word)?.as_slice())?;
    }
    Ok(bytes)
}

/// The bytes of a disk.
fn bytes_on(alloc: Global, disk: &mut impl Disk) -> Result<Vec<u8>, Fail> {
    let mut bytes = Vec::new(alloc);
    bytes.resize(disk.len()?, 0)?;
    disk.read(0, bytes.as_mut_slice())?;
    Ok(bytes)
}

/// The byte at a place of a disk.
pub(crate) fn byte_at(disk: &mut impl Disk, at: usize) -> Result<u8, Fail> {
    let mut byte = [0];
    disk.read(at, &mut byte)?;
    Ok(byte[0])
}

/// Makes these the bytes of an empty disk.
fn fill(disk: &mut impl Disk, bytes: &[u8]) -> Result<(), Fail> {
    disk.write_at(0, bytes)?;
    Ok(disk.sync()?)
}

/// A disk that has these bytes, and room for some more.
pub(crate) fn disk_of(alloc: Global, digits: &str) -> Result<MemDisk, Fail> {
    let bytes = bytes_of(alloc, digits)?;
    let mut disk = MemDisk::new(alloc, bytes.len().saturating_add(1_000))?;
    fill(&mut disk, bytes.as_slice())?;
    Ok(disk)
}

/// How many entries are opened of lent disks.
pub(crate) fn opened<D: Disk>(
    alloc: Global,
    first: &mut D,
    second: &mut D,
) -> Result<u64, OpenFault> {
    match Journal::open(alloc, LentDisk::new(first), LentDisk::new(second)) {
        Ok((_, log)) => Ok(log.len()),
        Err(stop) => Err(stop.fault),
    }
}

/// The entry that these bytes spell, ready to be put.
pub(crate) fn prepared(alloc: Global, bytes: &[u8]) -> Result<Prepared, Fail> {
    let entry = decode(alloc, bytes)?;
    // A law by which what was read may be put.
    an_entry_with_a_text_is_in_range();
    Ok(prepare(alloc, &entry)?)
}

/// A journal that is open, and how many entries it has at most.
#[derive(Drop)]
pub(crate) struct Filled<D: Disk + Drop> {
    journal: Journal<D>,
    count: u64,
    ghost counted: { last_number journal.entries ≤ count },
}

impl<D: Disk + Drop> Filled<D> {
    /// Opens the journal of two slots.
    pub(crate) fn open(alloc: Global, first: D, second: D) -> Result<Filled<D>, OpenFault> {
        match Journal::open(alloc, first, second) {
            Ok((journal, log)) => Ok(Filled {
                journal,
                count: log.len(),
            }),
            Err(stop) => Err(stop.fault),
        }
    }

    /// Puts an entry. There is room for it: no test has a million.
    pub(crate) fn put(&mut self, entry: Prepared) -> Result<(), PutFault> {
        if self.count >= 1_000_000 {
            return Err(PutFault::Device);
        }
        self.journal.put(entry)?;
        self.count += 1;
        Ok(())
    }

    /// Whether the device failed at an entry.
    pub(crate) fn is_broken(&self) -> bool {
        self.journal.is_broken()
    }

    /// The journal.
    pub(crate) fn into_journal(self) -> Journal<D> {
        self.journal
    }
}

/// Asserts that a disk has these bytes.
pub(crate) fn assert_bytes(
    rt: &impl Abort,
    alloc: Global,
    disk: &mut impl Disk,
    digits: &str,
) -> Result<(), Fail> {
    let wanted = bytes_of(alloc, digits)?;
    assert_eq!(rt; bytes_on(alloc, disk)?.as_slice(), wanted.as_slice());
    Ok(())
}
