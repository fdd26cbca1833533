//! A position between the records of a file.
ghost use Rattle.std.specs.Prelude.{◌≡◌, ◌+◌, ◌*◌, ◌<◌, ◌≤◌, length};
ghost use Rattle.record_file.specs.declared.faults.OpenFault.TheVariants.{BadRecord};

use crate::faults::OpenFault;

/// The most records of a file.
pub(crate) const MOST_RECORDS: usize = 1_000_000;

/// The most bytes of a body: as many as the longest text of an entry has.
pub(crate) const LONGEST_BODY: usize = 10_470_070;

/// The offset of a gate, and how many records precede it: at most 1,000,000, so that the offset is bounded. So the journal refuses a
/// 1,000,001st record as `BadRecord`, before a history would refuse its entry for exceeding the limit.
#[derive(Clone, Copy)]
pub struct Position {
    pub gate: usize,
    pub count: usize,
    ghost few: { count ≤ 1000000 },
    ghost near: { gate ≤ 65 + 10470075 * count },
}

impl Position {
    /// The offset of the first gate after the header.
    pub(crate) fn first(header: &[u8]) -> Position
        requires { length header.now ≤ 64 }
        ensures { (result.gate ≡ length header.now + 1) × (result.count ≡ 0) }
    {
        Position {
            gate: header.len() + 1,
            count: 0,
        }
    }

    /// The fault of an opening that finds no valid record after this position.
    pub(crate) fn bad_record(self) -> OpenFault
        ensures { result ≡ BadRecord (self.count + 1) }
    {
        OpenFault::BadRecord(self.count as u64 + 1)
    }

    /// The same position in a file of version 2 with the records of one of version 1, whose header has 8 bytes fewer.
    pub(crate) fn moved(self) -> Position
        requires { self.gate ≤ 8 + 10470075 * self.count }
        ensures { (result.gate ≡ self.gate + 8) × (result.count ≡ self.count) }
    {
        Position {
            gate: self.gate + 8,
            count: self.count,
        }
    }

    /// The position after a record whose body has this many bytes.
    pub(crate) fn after(self, body: usize) -> Position
        requires few { self.count < 1000000 }
        requires short { body ≤ 10470070 }
        ensures gate { result.gate ≡ self.gate + 5 + body }
        ensures count { result.count ≡ self.count + 1 }
    {
        Position {
            gate: self.gate + 5 + body,
            count: self.count + 1,
        }
    }
}
