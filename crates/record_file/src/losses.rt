//! What an opening of two slots would drop. Nothing is written to tell it.
ghost use Rattle.std.specs.Prelude.{◌+◌, ◌<◌, IsTrue, length};
ghost use Rattle.record_file.specs.Pairs.{BothOnlyRead, Leads};
ghost use Rattle.record_file.specs.Slots.{header_of};
ghost use Rattle.record_file.specs.Walks.{IsOnlyRead};

use crate::bodies::Bodies;
use crate::faults::OpenFault;
use crate::headers::{HEADER, OLD_HEADER, Version, read_version};
use crate::leaders::{Leader, choose};
use crate::openings::walk_version;
use crate::positions::Position;
use crate::read_ahead::ReadAhead;
use crate::remnants::{count_whole, may_be_unfinished, skip_records};
use crate::surveys::{Found, survey_measured};
use host_disk::Disk;
use std::alloc::Global;

/// The most bytes of a slot that can't have held a record: its gate, its header, and the gate of the first record.
const WITHOUT_RECORDS: usize = 17;

/// The bytes of a slot from an offset on, which an opening would cut, clear or pass over. So many whole records follow one another there.
#[derive(Clone, Copy, Debug, PartialEq, Eq)]
pub struct Loss {
    pub from: usize,
    pub bytes: usize,
    pub records: usize,
}

/// What an opening would drop of each of two slots, beyond what one unfinished record may have left.
#[derive(Clone, Copy, Debug, PartialEq, Eq)]
pub struct Losses {
    pub first: Option<Loss>,
    pub second: Option<Loss>,
}

/// Two slots after a look, and what an opening would drop of them, or why it would be refused.
#[derive(Drop)]
pub struct Looked<D> {
    pub first: D,
    pub second: D,
    pub outcome: Result<Losses, OpenFault>,
}

/// How many whole records follow one another from a position on, as those of a file of this version.
fn count_of_version<D: Disk, B: Bodies>(
    alloc: Global,
    disk: &mut D,
    version: Version,
    from: Position,
    size: usize,
    bodies: &mut B,
) -> Result<usize, OpenFault>
    requires { from.gate < size }
    ensures same { IsTrue D.is_modelled → IsOnlyRead D.seen D.may_leave D.moment D.left_since disk.old disk.new }
{
    match version {
        Version::Old => count_whole(alloc, disk, &OLD_HEADER, from, size, bodies),
        Version::Current => count_whole(alloc, disk, &HEADER, from, size, bodies),
    }
}

/// How many whole records follow the header that is behind the first byte of a slot of this size, if that is one.
fn count_behind_header<D: Disk, B: Bodies>(
    alloc: Global,
    disk: &mut D,
    size: usize,
    bodies: &mut B,
) -> Result<usize, OpenFault>
    ensures same { IsTrue D.is_modelled → IsOnlyRead D.seen D.may_leave D.moment D.left_since disk.old disk.new }
{
    match read_version(disk, size) {
        Ok(version) => count_of_version(alloc, disk, version, version.start(), size, bodies),
        Err(OpenFault::BadHeader) => Ok(0),
        Err(fault) => Err(fault),
    }
}

/// What an opening would clear of a slot of which this was found.
fn look_beside<D: Disk, B: Bodies>(
    alloc: Global,
    disk: &mut D,
    found: Found,
    bodies: &mut B,
) -> Result<Option<Loss>, OpenFault>
    ensures same { IsTrue D.is_modelled → IsOnlyRead D.seen D.may_leave D.moment D.left_since disk.old disk.new }
{
    if found.version.is_some() || found.size <= WITHOUT_RECORDS {
        return Ok(None);
    }
    let records = count_behind_header(alloc, disk, found.size, bodies)?;
    Ok(Some(Loss {
        from: 1,
        bytes: found.size - 1,
        records,
    }))
}

/// What an opening would drop behind the records of a slot that is read, whose file has this version.
fn look_read<D: Disk, B: Bodies>(
    alloc: Global,
    disk: &mut D,
    version: Version,
    size: usize,
    bodies: &mut B,
) -> Result<Option<Loss>, OpenFault>
    requires { length (header_of version) + 1 < size }
    ensures same { IsTrue D.is_modelled → IsOnlyRead D.seen D.may_leave D.moment D.left_since disk.old disk.new }
{
    let end = skip_records(disk, version.start(), size)?;
    if may_be_unfinished(disk, end.gate, size)? {
        return Ok(None);
    }
    let records = count_of_version(alloc, disk, version, end, size, bodies)?;
    Ok(Some(Loss {
        from: end.gate + 1,
        bytes: size - end.gate - 1,
        records,
    }))
}

/// What an opening would drop of a slot that is read, and of the one beside it. If that is something, each record that the opening reads is judged.
fn look_at_pair<D: Disk, B: Bodies>(
    alloc: Global,
    read: &mut D,
    other: &mut D,
    version: Version,
    size: usize,
    beside: Found,
    bodies: &mut B,
) -> Result<(Option<Loss>, Option<Loss>), OpenFault>
    requires { length (header_of version) + 1 < size }
    ensures same_read { IsTrue D.is_modelled → IsOnlyRead D.seen D.may_leave D.moment D.left_since read.old read.new }
    ensures same_other { IsTrue D.is_modelled → IsOnlyRead D.seen D.may_leave D.moment D.left_since other.old other.new }
{
    let cut = look_read(alloc, read, version, size, bodies)?;
    let cleared = look_beside(alloc, other, beside, bodies)?;
    if cut.is_some() || cleared.is_some() {
        walk_version(alloc, read, version, size, bodies)?;
    }
    Ok((cut, cleared))
}

/// What an opening would drop of two slots, of which this was found.
fn look_led<D: Disk, B: Bodies>(
    alloc: Global,
    first: &mut D,
    second: &mut D,
    leader: Leader,
    one: Found,
    other: Found,
    bodies: &mut B,
) -> Result<(Option<Loss>, Option<Loss>), OpenFault>
    requires { Leads leader one.version other.version }
    ensures same_first { IsTrue D.is_modelled
        → IsOnlyRead D.seen D.may_leave D.moment D.left_since first.old first.new }
    ensures same_second { IsTrue D.is_modelled
        → IsOnlyRead D.seen D.may_leave D.moment D.left_since second.old second.new }
{
    match leader {
        Leader::First(version) => look_at_pair(
            alloc, first, second, version, one.size, other, bodies,
        ),
        Leader::Second(version) => {
            let (cut, cleared) = look_at_pair(
                alloc, second, first, version, other.size, one, bodies,
            )?;
            Ok((cleared, cut))
        }
        Leader::Neither => {
            let one_loss = look_beside(alloc, first, one, bodies)?;
            let other_loss = look_beside(alloc, second, other, bodies)?;
            Ok((one_loss, other_loss))
        }
    }
}

/// What an opening would drop of two slots.
fn look_at_both<D: Disk, B: Bodies>(
    alloc: Global,
    first: &mut D,
    second: &mut D,
    bodies: &mut B,
) -> Result<Losses, OpenFault>
    ensures same_first { IsTrue D.is_modelled
        → IsOnlyRead D.seen D.may_leave D.moment D.left_since first.old first.new }
    ensures same_second { IsTrue D.is_modelled
        → IsOnlyRead D.seen D.may_leave D.moment D.left_since second.old second.new }
{
    let one_size = first.len()?;
    let other_size = second.len()?;
    let (one, other) = survey_measured(first, second, one_size, other_size)?;
    let leader = choose(one.version, other.version)?;
    let (first, second) = look_led(alloc, first, second, leader, one, other, bodies)?;
    Ok(Losses { first, second })
}

/// Tells what an opening of two slots would drop, with reads ahead, and hands them back. Each body has to be lawful or not by itself, whatever came
/// before it. Bodies are judged only if something would be dropped: else a record that isn't lawful is left to the opening.
pub fn look_ahead<D: Disk, B: Bodies>(
    alloc: Global,
    first: D,
    second: D,
    bodies: &mut B,
) -> Looked<D>
    ensures same { IsTrue D.is_modelled
        → BothOnlyRead D.seen D.may_leave D.moment D.left_since first second result.first result.second }
{
    let mut one = ReadAhead::new(alloc, first);
    let mut other = ReadAhead::new(alloc, second);
    let outcome = look_at_both(alloc, &mut one, &mut other, bodies);
    Looked {
        first: one.into_disk(),
        second: other.into_disk(),
        outcome,
    }
}
