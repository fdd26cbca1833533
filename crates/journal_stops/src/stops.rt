//! Boots over disks in memory that stop or fail, a crash after that, and another opening.
ghost use Rattle.std.specs.Prelude.{◌≡◌, ◌+◌, ◌<◌, ◌≤◌, IfOk, List, length, option_map, ℕ};
ghost use Rattle.change_journal.specs.Texts.{AllStored, HoldsEntries, MayHoldNext};
ghost use Rattle.site_change.specs.declared.entries.Entry as entry;
ghost use Rattle.record_file.specs.Pairs.{Order};
ghost use Rattle.journal_stops.specs.Boots.{IsReopened};

use crate::boots::{Boot, open_and_put};
use change_journal::{Journal, Prepared, laws};
use change_log::Log;
use host_disk::{Disk, FaultDisk, FuseDisk, MemDisk};
use record_file::OpenFault;
use std::alloc::Global;
use std::collections::VecDeque;

/// What a boot found, if its journal could be opened, and how many entries it acknowledged; and what is opened after a crash, with
/// its disks.
#[derive(Drop)]
pub struct Reopened {
    pub found: Option<Log>,
    pub acknowledged: u64,
    pub opened: Log,
    pub first: MemDisk,
    pub second: MemDisk,
}

/// A boot over two disks, each of which stops after so many calls, then a crash that leaves this byte wherever it may leave any, and an opening of what
/// it left. Whatever the numbers of calls and the byte, what the boot found is opened, then each entry that it acknowledged, in order, and then
/// at most the next one. If the boot opened nothing, what was there before is opened. All of it is stored then, so another boot may follow.
pub fn stop_and_open(
    alloc: Global,
    first: MemDisk,
    second: MemDisk,
    calls: (u64, u64),
    puts: VecDeque<Prepared>,
    byte: u8,
) -> Result<Reopened, OpenFault>
    ensures opened { (order : Order) (had : List entry.Entry) (next : entry.Entry)
        → length had + length puts.items < 1000000
        → MayHoldNext order had next (⟦<MemDisk as Disk>⟧.may_leave first) (⟦<MemDisk as Disk>⟧.may_leave second)
        → IfOk result (λ after. IsReopened had next puts.items (option_map (λ log. log.entries) after.found)
        after.acknowledged after.opened.entries) }
    ensures stored { IfOk result (λ after. AllStored (⟦<MemDisk as Disk>⟧.may_leave after.first)
        (⟦<MemDisk as Disk>⟧.may_leave after.second) after.opened.entries) }
{
    laws::slots_hold_an_entry_whose_gate_is_open();
    let Boot {
        first,
        second,
        found,
        acknowledged,
    } = open_and_put(
        alloc,
        FuseDisk::new(first, calls.0),
        FuseDisk::new(second, calls.1),
        puts,
    );
    open_images(
        alloc,
        first.into_disk(),
        second.into_disk(),
        found,
        acknowledged,
        byte,
    )
}

/// The same over disks that make so many calls, fail one, and make all later ones.
pub fn fail_and_open(
    alloc: Global,
    first: MemDisk,
    second: MemDisk,
    calls: (u64, u64),
    puts: VecDeque<Prepared>,
    byte: u8,
) -> Result<Reopened, OpenFault>
    ensures opened { (order : Order) (had : List entry.Entry) (next : entry.Entry)
        → length had + length puts.items < 1000000
        → MayHoldNext order had next (⟦<MemDisk as Disk>⟧.may_leave first) (⟦<MemDisk as Disk>⟧.may_leave second)
        → IfOk result (λ after. IsReopened had next puts.items (option_map (λ log. log.entries) after.found)
        after.acknowledged after.opened.entries) }
    ensures stored { IfOk result (λ after. AllStored (⟦<MemDisk as Disk>⟧.may_leave after.first)
        (⟦<MemDisk as Disk>⟧.may_leave after.second) after.opened.entries) }
{
    laws::slots_hold_an_entry_whose_gate_is_open();
    let Boot {
        first,
        second,
        found,
        acknowledged,
    } = open_and_put(
        alloc,
        FaultDisk::new(first, calls.0),
        FaultDisk::new(second, calls.1),
        puts,
    );
    open_images(
        alloc,
        first.into_disk(),
        second.into_disk(),
        found,
        acknowledged,
        byte,
    )
}

/// Opens what a crash left of two disks on which a boot ended so.
fn open_images(
    alloc: Global,
    first: MemDisk,
    second: MemDisk,
    found: Option<Log>,
    acknowledged: u64,
    byte: u8,
) -> Result<Reopened, OpenFault>
    ensures same { IfOk result (λ after. (after.found ≡ found) × (after.acknowledged ≡ acknowledged)) }
    ensures opened { IfOk result (λ after. (a : List ℕ) × (b : List ℕ) × ⟦<MemDisk as Disk>⟧.may_leave first a
        × ⟦<MemDisk as Disk>⟧.may_leave second b
        × ((log : List entry.Entry) → length log ≤ 1000000 → HoldsEntries log a b → after.opened.entries ≡ log)) }
    ensures stored { IfOk result (λ after. AllStored (⟦<MemDisk as Disk>⟧.may_leave after.first)
        (⟦<MemDisk as Disk>⟧.may_leave after.second) after.opened.entries) }
{
    let one = first.image(alloc, byte)?;
    let other = second.image(alloc, byte)?;
    match Journal::open(alloc, one, other) {
        Ok((journal, opened)) => Ok(with_disks(journal, opened, found, acknowledged)),
        Err(stop) => Err(stop.fault),
    }
}

/// What was opened, with the disks of the journal.
fn with_disks(
    journal: Journal<MemDisk>,
    opened: Log,
    found: Option<Log>,
    acknowledged: u64,
) -> Reopened
    ensures { (result.found ≡ found) × (result.acknowledged ≡ acknowledged) × (result.opened ≡ opened)
        × (result.first ≡ journal.first) × (result.second ≡ journal.second) }
{
    let (first, second) = journal.into_disk();
    Reopened {
        found,
        acknowledged,
        opened,
        first,
        second,
    }
}
