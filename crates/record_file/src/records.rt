//! A file of records that is open.
ghost use Rattle.std.specs.Prelude.{◌≡◌, ◌+◌, ◌<◌, ◌≤◌, ◌^◌, Err, IsErrOf, IsTrue, List, MatchResult, OnErr, OnOk, [], ◌∷◌, ◌++◌, length, false, true, ℕ};
ghost use Rattle.host_disk.specs.Crashes.{CountsFailure, LeavesOnly};
ghost use Rattle.record_file.specs.Failures.{MayFailPutting};
ghost use Rattle.record_file.specs.Frames.{AllShut, MayHold, framed, opened};
ghost use Rattle.record_file.specs.Settled.{IsSettled, TellsBreak};
ghost use Rattle.record_file.specs.declared.records.PutFault.TheVariants.{Broken, Device};

use crate::positions::Position;
use crate::synced::write_synced;
use host_disk::{DeviceFault, Disk};
use thiserror::Error;

/// Why a body isn't put.
#[derive(Clone, Copy, Debug, PartialEq, Eq, Error)]
pub enum PutFault {
    /// The device failed at an earlier call.
    #[error("the journal is broken until it is opened again")]
    Broken,
    #[error("the device failed")]
    Device,
}

/// A file of records that is open.
#[derive(Drop)]
pub struct Records<D> {
    pub disk: D,
    /// Where the gate of the next record is.
    pub position: Position,
    pub broken: bool,
}

/// Puts a record after the gate that ends the file, and opens that gate. The bytes end with the gate of the next record.
fn put_record<D: Disk>(disk: &mut D, gate: usize, bytes: &[u8]) -> Result<(), DeviceFault>
    requires { gate + 1 < 2 ^ 64 }
    ensures stored { IsTrue D.is_modelled → (header : List ℕ) (bodies : List (List ℕ)) (body : List ℕ)
        → gate ≡ length (opened header bodies) → bytes.now ≡ framed body ++ 0 ∷ []
        → AllShut header (D.may_leave disk.old) bodies
        → OnOk result (AllShut header (D.may_leave disk.new) (bodies ++ body ∷ [])) }
    ensures any_moment { IsTrue D.is_modelled → (header : List ℕ) (bodies : List (List ℕ)) (body : List ℕ)
        → gate ≡ length (opened header bodies) → bytes.now ≡ framed body ++ 0 ∷ []
        → AllShut header (D.may_leave disk.old) bodies
        → LeavesOnly D.moment D.left_since disk.old disk.new (MayHold header bodies body) }
    ensures reason { IsTrue D.is_modelled → (header : List ℕ) (bodies : List (List ℕ)) (body : List ℕ)
        → gate ≡ length (opened header bodies) → bytes.now ≡ framed body ++ 0 ∷ []
        → AllShut header (D.may_leave disk.old) bodies
        → OnErr result (MayFailPutting D.seen D.may_fail (opened header bodies) (length bytes.now)) }
    ensures cause { CountsFailure result (D.faults disk.old) (D.faults disk.new) }
{
    write_synced(disk, gate + 1, bytes)?;
    write_synced(disk, gate, &[1])
}

impl<D: Disk> Records<D> {
    /// The records of a disk that was opened.
    pub fn at(disk: D, position: Position) -> Records<D>
        ensures { (result.disk ≡ disk) × (result.position ≡ position) × (result.broken ≡ false) }
    {
        Records {
            disk,
            position,
            broken: false,
        }
    }

    /// Whether the device has failed here.
    pub fn is_broken(&self) -> bool
        ensures { result ≡ self.now.broken }
    {
        self.broken
    }

    /// Hands out the disk.
    pub fn into_disk(self) -> D
        ensures { result ≡ self.disk }
    {
        self.disk
    }

    /// Puts a body after the others, given as the bytes of its record, which end with the gate of the next one. Once the device has failed
    /// here, each further call answers `Broken` and does nothing.
    pub fn put(&mut self, bytes: &[u8]) -> Result<(), PutFault>
        requires few { self.old.broken ≡ false → self.old.position.count < 1000000 }
        requires long { 5 ≤ length bytes.now }
        requires short { length bytes.now ≤ 10470075 }
        ensures stored { IsTrue D.is_modelled → (header : List ℕ) (bodies : List (List ℕ)) (body : List ℕ) → bytes.now
            ≡ framed body ++ 0 ∷ [] → IsSettled header D.may_leave self.old bodies
            → OnOk result (IsSettled header D.may_leave self.new (bodies ++ body ∷ [])) }
        ensures any_moment { IsTrue D.is_modelled → (header : List ℕ) (bodies : List (List ℕ)) (body : List ℕ)
            → bytes.now ≡ framed body ++ 0 ∷ [] → IsSettled header D.may_leave self.old bodies
            → LeavesOnly D.moment D.left_since self.old.disk self.new.disk (MayHold header bodies body) }
        ensures reason { IsTrue D.is_modelled → (header : List ℕ) (bodies : List (List ℕ)) (body : List ℕ)
            → bytes.now ≡ framed body ++ 0 ∷ [] → IsSettled header D.may_leave self.old bodies
            → IsErrOf result Device → MayFailPutting D.seen D.may_fail (opened header bodies) (length bytes.now) }
        ensures refused { IsTrue self.old.broken → (result ≡ Err Broken) × (self.new ≡ self.old) }
        ensures broken { IsErrOf result Broken → IsTrue self.old.broken }
        ensures breaks { MatchResult result (λ _. self.new.broken ≡ false) (λ _. self.new.broken ≡ true) }
        ensures position { MatchResult result (λ _. self.new.position.count ≡ self.old.position.count + 1)
            (λ _. self.new.position ≡ self.old.position) }
        ensures cause { MatchResult result (λ _. D.faults self.new.disk ≡ D.faults self.old.disk)
            (λ fault. TellsBreak fault (D.faults self.old.disk) (D.faults self.new.disk)) }
    {
        if self.broken {
            return Err(PutFault::Broken);
        }
        if put_record(&mut self.disk, self.position.gate, bytes).is_err() {
            self.broken = true;
            return Err(PutFault::Device);
        }
        self.position = self.position.after(bytes.len() - 5);
        Ok(())
    }
}
