//! Two slots that are open: one has the file that is read, and the other takes the next file.
ghost use Rattle.std.specs.Prelude.{◌≡◌, ◌+◌, ◌<◌, ◌≤◌, Err, IsErrOf, IsTrue, List, MatchResult, OnOk, [], ◌∷◌, ◌++◌, false, length, true, ℕ};
ghost use Rattle.record_file.specs.declared.records.PutFault.TheVariants.{Broken, Device};
ghost use Rattle.record_file.specs.Failures.{MayFailPutting};
ghost use Rattle.record_file.specs.Frames.{framed, opened};
ghost use Rattle.record_file.specs.Pairs.{ArePaired, BothLeave, first_of, order_of, second_of};
ghost use Rattle.record_file.specs.Settled.{TellsBreak};
ghost use Rattle.record_file.specs.Slots.{new_header};

use crate::pairs::Opened;
use crate::records::{PutFault, Records};
use host_disk::Disk;

/// Two slots that are open.
#[derive(Drop)]
pub struct Slots<D> {
    /// The file that is read.
    pub records: Records<D>,
    /// The other slot.
    pub other: D,
    /// Whether the second slot is read.
    pub turned: bool,
}

impl<D: Disk> Slots<D> {
    /// Two slots that were opened.
    pub fn at(first: D, second: D, opened: Opened) -> Slots<D>
        ensures first { first_of result ≡ first }
        ensures second { second_of result ≡ second }
        ensures turned { result.turned ≡ opened.turned }
        ensures records { (result.records.position ≡ opened.position) × (result.records.broken ≡ false) }
    {
        let (read, other) = if opened.turned {
            (second, first)
        } else {
            (first, second)
        };
        Slots {
            records: Records::at(read, opened.position),
            other,
            turned: opened.turned,
        }
    }

    /// Whether the device has failed here.
    pub fn is_broken(&self) -> bool
        ensures { result ≡ self.now.records.broken }
    {
        self.records.is_broken()
    }

    /// Hands out the first slot and the second one.
    pub fn into_disks(self) -> (D, D)
        ensures { (result.0 ≡ first_of self) × (result.1 ≡ second_of self) }
    {
        let read = self.records.into_disk();
        if self.turned {
            return (self.other, read);
        }
        (read, self.other)
    }

    /// Puts a body after the others, given as the bytes of its record, which end with the gate of the next one. Once the device has failed
    /// here, each further call answers `Broken` and does nothing. The slot that isn't read stays as it is.
    pub fn put(&mut self, bytes: &[u8]) -> Result<(), PutFault>
        requires few { self.old.records.broken ≡ false → self.old.records.position.count < 1000000 }
        requires long { 5 ≤ length bytes.now }
        requires short { length bytes.now ≤ 10470075 }
        ensures stored { IsTrue D.is_modelled → (bodies : List (List ℕ)) (body : List ℕ) → bytes.now
            ≡ framed body ++ 0 ∷ [] → ArePaired D.may_leave self.old bodies
            → OnOk result (ArePaired D.may_leave self.new (bodies ++ body ∷ [])) }
        ensures any_moment { IsTrue D.is_modelled → (bodies : List (List ℕ)) (body : List ℕ) → bytes.now
            ≡ framed body ++ 0 ∷ [] → ArePaired D.may_leave self.old bodies
            → BothLeave D.moment D.left_since (order_of self.old.turned) bodies body
            (first_of self.old) (second_of self.old) (first_of self.new) (second_of self.new) }
        ensures reason { IsTrue D.is_modelled → (bodies : List (List ℕ)) (body : List ℕ) → bytes.now
            ≡ framed body ++ 0 ∷ [] → ArePaired D.may_leave self.old bodies → IsErrOf result Device
            → MayFailPutting D.seen D.may_fail (opened new_header bodies) (length bytes.now) }
        ensures refused { IsTrue self.old.records.broken → (result ≡ Err Broken) × (self.new ≡ self.old) }
        ensures broken { IsErrOf result Broken → IsTrue self.old.records.broken }
        ensures breaks { MatchResult result (λ _. self.new.records.broken ≡ false) (λ _. self.new.records.broken ≡ true) }
        ensures position { MatchResult result
            (λ _. self.new.records.position.count ≡ self.old.records.position.count + 1)
            (λ _. self.new.records.position ≡ self.old.records.position) }
        ensures cause { MatchResult result (λ _. D.faults self.new.records.disk ≡ D.faults self.old.records.disk)
            (λ fault. TellsBreak fault (D.faults self.old.records.disk) (D.faults self.new.records.disk)) }
        ensures beside { (self.new.other ≡ self.old.other) × (self.new.turned ≡ self.old.turned) }
    {
        self.records.put(bytes)
    }
}
