//! The journal of a history.
ghost use Rattle.std.specs.Prelude.{◌≡◌, ◌⊎◌, ◌<◌, ◌≤◌, ◌+◌, ◌++◌, ◌∷◌, [], ℕ, All, Err, IfErr, IfOk, IsErrOf, IsTrue, List, MatchResult, OnErr, OnOk, false, length, true};
ghost use Rattle.change_log.specs.Logs.{IsWhole, last_number, with_entry};
ghost use Rattle.site_change.specs.declared.entries.Entry as entries;
ghost use Rattle.record_file.specs.declared.faults.OpenFault.TheVariants.{BadHeader, BadRecord, Device, OutOfMemory};
ghost use Rattle.record_file.specs.declared.records.PutFault.TheVariants as put_fault;
ghost use Rattle.record_file.specs.Failures.{MayFailPutting, MayFailReading};
ghost use Rattle.record_file.specs.Frames.{framed};
ghost use Rattle.record_file.specs.Pairs.{AreForeign, AreRefused, BothOnlyRead, FoundBoth, Order, ReadsBad, ReadsRecord};
ghost use Rattle.record_file.specs.Slots.{HasFront, old_header};
ghost use Rattle.entry_texts.specs.Spells.{IsWritable, entry_text};
ghost use Rattle.change_journal.specs.Texts.{AllStored, HoldsEntries, IsOne, IsText, LeavesNext, MayHoldMore, MayHoldNext, texts};
ghost use Rattle.record_file.specs.Walks.{IsOnlyRead};
ghost use Rattle.change_journal.specs.Faults.{BreaksEither, StopsEither};
ghost use Rattle.change_journal.specs.Files.{opened};

use crate::collecting::Collected;
use crate::held::Held;
use crate::prepared::Prepared;
use change_log::Log;
use host_disk::Disk;
use record_file::{OpenFault, Opening, PutFault, Slots, open_ahead};
use std::alloc::Global;
use std::marker::Model;
use std::snapshot::Snapshot;

/// The journal of a history: its entries, on the disks of two slots. Contracts see the entries, the disks, and whether the device failed during a
/// put. Unless it failed, whatever a crash leaves of modelled disks holds these entries.
#[derive(Drop)]
pub struct Journal<D: Disk> {
    slots: Slots<D>,
    held: Held,
}

impl<D: Disk> Model for Journal<D> {
    ghost use Rattle.record_file.specs.Pairs.{first_of, second_of};
    ghost use Rattle.change_log.specs.contracts.logs.Log as log;
    ghost use Rattle.change_journal.specs.Held.{IsSound, Keeps, coded_keeps, entries_of};

    ghost Value = { Keeps D };

    ghost coded = { coded_keeps log.the_row.coded D.code };

    ghost view = { λ j. record { entries = entries_of j.held; broken = j.slots.records.broken; first = first_of j.slots; second = second_of j.slots } };

    ghost invariant = { λ j. IsSound D.is_modelled D.may_leave j.slots (entries_of j.held) };
}

/// Why a journal couldn't be opened, with the disks of its slots as they are then.
#[derive(Drop)]
pub struct NotOpened<D> {
    pub fault: OpenFault,
    pub first: D,
    pub second: D,
}

impl<D: Disk> Journal<D> {
    /// Opens the journal of two slots, and answers the entries that it holds. Both disks are synced first. A slot is in use if it has two bytes or
    /// more and the first is 1; the one with the greater generation is read. A file of version 1 is brought over into the other slot, and stays as
    /// it is; if neither slot is in use, the second one gets a file without entries. Everything after the first gate that isn't open is cut away:
    /// it is what a stop left of an unfinished put. So is what stands behind the first byte of a slot that isn't in use. On modelled disks, nothing
    /// is written, whatever fault is told, if a slot in use has no header, if both have one generation, or if in the file that is read a malformed
    /// record or the 1,000,001st follows an open gate.
    pub fn open(alloc: Global, first: D, second: D) -> Result<(Journal<D>, Log), NotOpened<D>>
        ensures entries { IfOk result (λ answer. (answer.0.entries ≡ answer.1) × (answer.0.broken ≡ false)) }
        ensures whole { IfOk result (λ answer. IsWhole answer.1) }
        ensures writable { IfOk result (λ answer. All IsWritable answer.1.entries) }
        ensures few { IfOk result (λ answer. last_number answer.1 ≤ 1000000) }
        ensures found { IsTrue D.is_modelled
            → IfOk result (λ answer. FoundBoth (texts answer.1.entries) (D.seen first) (D.seen second)) }
        ensures exactly { IsTrue D.is_modelled → IfOk result (λ answer. IsOne (opened (texts answer.1.entries) ++ 0 ∷ [])
            (D.seen answer.0.first) (D.may_leave answer.0.first) (D.seen answer.0.second) (D.may_leave answer.0.second)) }
        ensures stored { IsTrue D.is_modelled → IfOk result (λ answer.
            AllStored (D.may_leave answer.0.first) (D.may_leave answer.0.second) answer.1.entries) }
        ensures bad_header { IsTrue D.is_modelled
            → IfErr result (λ stop. stop.fault ≡ BadHeader → AreForeign (D.seen first) (D.seen second)) }
        ensures bad_record { IsTrue D.is_modelled → IfErr result (λ stop. (i : ℕ) → stop.fault ≡ BadRecord i
            → ReadsBad (λ header before. IsText header) i (D.seen first) (D.seen second)) }
        ensures unwritten { IsTrue D.is_modelled → IfErr result (λ stop. (stop.fault ≡ Device → ⊥)
            → BothOnlyRead D.seen D.may_leave D.moment D.left_since first second stop.first stop.second) }
        ensures refused { IsTrue D.is_modelled → AreRefused (λ header before. IsText header) (D.seen first) (D.seen second)
            → MatchResult result (λ _. ⊥)
            (λ stop. BothOnlyRead D.seen D.may_leave D.moment D.left_since first second stop.first stop.second) }
        ensures old_first { IsTrue D.is_modelled → HasFront old_header (D.seen first) → MatchResult result
            (λ answer. IsOnlyRead D.seen D.may_leave D.moment D.left_since first answer.0.first)
            (λ stop. IsOnlyRead D.seen D.may_leave D.moment D.left_since first stop.first) }
        ensures old_second { IsTrue D.is_modelled → HasFront old_header (D.seen second) → MatchResult result
            (λ answer. IsOnlyRead D.seen D.may_leave D.moment D.left_since second answer.0.second)
            (λ stop. IsOnlyRead D.seen D.may_leave D.moment D.left_since second stop.second) }
        ensures kept { IsTrue D.is_modelled
            → (had : List entries.Entry) → length had ≤ 1000000 → HoldsEntries had (D.seen first) (D.seen second)
            → MatchResult result (λ answer. answer.1.entries ≡ had) (λ stop. (stop.fault ≡ Device) ⊎ (stop.fault ≡ OutOfMemory)) }
        ensures any_moment { IsTrue D.is_modelled → (order : Order) (had : List entries.Entry) (next : entries.Entry)
            → MayHoldNext order had next (D.may_leave first) (D.may_leave second) → MatchResult result
            (λ answer. LeavesNext D.moment D.left_since order had next first second answer.0.first answer.0.second)
            (λ stop. LeavesNext D.moment D.left_since order had next first second stop.first stop.second) }
        ensures memory { IsTrue D.is_modelled
            → IfErr result (λ stop. stop.fault ≡ OutOfMemory → ReadsRecord (D.seen first) (D.seen second)) }
        ensures no_journal { IsTrue D.is_modelled → AreForeign (D.seen first) (D.seen second)
            → MatchResult result (λ _. ⊥) (λ stop. (stop.fault ≡ BadHeader) ⊎ (stop.fault ≡ Device)) }
        ensures reason { IsTrue D.is_modelled → AreRefused (λ header before. IsText header) (D.seen first) (D.seen second)
            → IfErr result (λ stop. stop.fault ≡ Device
            → MayFailReading D.seen D.may_fail (D.seen first) ⊎ MayFailReading D.seen D.may_fail (D.seen second)) }
        ensures cause { MatchResult result
            (λ answer. (D.faults answer.0.first ≡ D.faults first) × (D.faults answer.0.second ≡ D.faults second))
            (λ stop. StopsEither stop.fault (D.faults first) (D.faults second) (D.faults stop.first) (D.faults stop.second)) }
    {
        let mut collected = Collected::new(alloc);
        let Opening {
            first,
            second,
            outcome,
        } = open_ahead(alloc, first, second, &mut collected);
        match outcome {
            Ok(opened) => Ok((
                Journal {
                    slots: Slots::at(first, second, opened),
                    held: Held::Found(Snapshot::of(&collected.log)),
                },
                collected.log,
            )),
            Err(fault) => Err(NotOpened {
                fault,
                first,
                second,
            }),
        }
    }

    /// Whether the device failed during a put. A broken journal puts nothing more, and has to be opened again.
    pub fn is_broken(&self) -> bool
        ensures value { result ≡ self.now.broken }
        ensures whole { IsWhole self.now.entries }
        ensures writable { All IsWritable self.now.entries.entries }
        ensures stored { IsTrue D.is_modelled → result ≡ false
            → AllStored (D.may_leave self.now.first) (D.may_leave self.now.second) self.now.entries.entries }
        ensures torn { IsTrue D.is_modelled → result ≡ true
            → MayHoldMore (D.may_leave self.now.first) (D.may_leave self.now.second) self.now.entries.entries }
    {
        self.slots.is_broken()
    }

    /// Puts an entry after the others. Unless the journal is broken, it must have fewer than 1,000,000 entries: a history that accepts one
    /// more has no more than that, by its limit. After Ok, whatever a crash leaves of modelled disks holds the entry. If the device fails,
    /// the disks may or may not hold it, and each later put answers `Broken` and does nothing. It takes no memory.
    pub fn put(&mut self, prepared: Prepared) -> Result<(), PutFault>
        requires few { self.old.broken ≡ false → last_number self.old.entries < 1000000 }
        ensures entries { MatchResult result (λ _. self.new.entries ≡ with_entry self.old.entries prepared)
            (λ _. self.new.entries ≡ self.old.entries) }
        ensures broken { MatchResult result (λ _. self.new.broken ≡ false) (λ _. self.new.broken ≡ true) }
        ensures refused { IsTrue self.old.broken → (result ≡ Err put_fault.Broken) × (self.new ≡ self.old) }
        ensures only_broken { IsErrOf result put_fault.Broken → IsTrue self.old.broken }
        ensures stored { IsTrue D.is_modelled
            → OnOk result (AllStored (D.may_leave self.new.first) (D.may_leave self.new.second) self.new.entries.entries) }
        ensures any_moment { IsTrue D.is_modelled → self.old.broken ≡ false → (order : Order) × LeavesNext D.moment
            D.left_since order self.old.entries.entries prepared self.old.first self.old.second self.new.first self.new.second }
        ensures held { IsTrue D.is_modelled → self.old.broken ≡ false → (a b : List ℕ)
            → D.left_since self.new.first (D.moment self.old.first) a
            → D.left_since self.new.second (D.moment self.old.second) b
            → HoldsEntries self.old.entries.entries a b ⊎ HoldsEntries (self.old.entries.entries ++ prepared ∷ []) a b }
        ensures reason { IsTrue D.is_modelled → IsErrOf result put_fault.Device → MayFailPutting D.seen D.may_fail
            (opened (texts self.old.entries.entries)) (length (framed (entry_text prepared)) + 1) }
        ensures cause { MatchResult result (λ _. (D.faults self.new.first ≡ D.faults self.old.first)
            × (D.faults self.new.second ≡ D.faults self.old.second)) (λ fault. BreaksEither fault
            (D.faults self.old.first) (D.faults self.old.second) (D.faults self.new.first) (D.faults self.new.second)) }
    {
        self.slots.put(prepared.bytes())?;
        self.held = Held::Put(Snapshot::of(&self.held), Snapshot::of(&prepared));
        Ok(())
    }

    /// Hands out the disk of the first slot and that of the second one.
    pub fn into_disk(self) -> (D, D)
        ensures first { result.0 ≡ self.first }
        ensures second { result.1 ≡ self.second }
    {
        self.slots.into_disks()
    }
}
