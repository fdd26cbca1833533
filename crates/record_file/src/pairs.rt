//! The opening of two slots.
ghost use Rattle.std.specs.Prelude.{◌≡◌, ◌⊎◌, IfErr, IfOk, IsErrOf, IsTrue, List, [], cond, length, ℕ};
ghost use Rattle.host_disk.specs.Crashes.{LeavesOnly, Only};
ghost use Rattle.record_file.specs.declared.faults.OpenFault.TheVariants.{BadHeader, BadRecord, Device, OutOfMemory};
ghost use Rattle.record_file.specs.Failures.{MayFailReading};
ghost use Rattle.record_file.specs.Openings.{MayBePut};
ghost use Rattle.record_file.specs.Pairs.{AreForeign, AreRefused, AreSurveyed, BothLeave, BothOnlyRead, HasOpened, IsMade, Leads, LeftOfFirst, LeftOfSecond, MayFollow, Order, ReadsBad, ReadsRecord, is_turned};
ghost use Rattle.record_file.specs.Slots.{HasFront, IsInUse, IsSurveyed, old_header};
ghost use Rattle.record_file.specs.Walks.{HasCounted, IsOnlyRead, TellsEither};

use crate::bodies::Bodies;
use crate::faults::OpenFault;
use crate::filling::clear;
use crate::headers::HEADER;
use crate::leaders::{Leader, choose};
use crate::migrations::begin;
use crate::openings::open_read;
use crate::positions::Position;
use crate::read_ahead::ReadAhead;
use crate::surveys::{Found, survey_both};
use host_disk::Disk;
use std::alloc::Global;

/// Where the next record of two slots goes, which were opened: in which slot, and where in its file.
#[derive(Clone, Copy)]
pub struct Opened {
    pub position: Position,
    /// Whether the second slot is read.
    pub turned: bool,
}

/// Two slots after an opening, and what became of it.
#[derive(Drop)]
pub struct Opening<D> {
    pub first: D,
    pub second: D,
    pub outcome: Result<Opened, OpenFault>,
}

/// Makes a file without records in the second one of two slots of these sizes, neither of which is in use.
fn open_neither<D: Disk>(
    first: &mut D,
    second: &mut D,
    one_size: usize,
    other_size: usize,
) -> Result<Position, OpenFault>
    ensures made { IsTrue D.is_modelled → one_size ≡ length (D.seen first.old)
        → Only (D.seen first.old) (D.may_leave first.old) → IfOk result (λ position. IsMade [] position.gate
        position.count (D.seen second.new) (D.may_leave second.new) (D.may_leave first.new)) }
    ensures any_moment { IsTrue D.is_modelled → one_size ≡ length (D.seen first.old) → (IsInUse (D.seen first.old) → ⊥)
        → Only (D.seen first.old) (D.may_leave first.old)
        → LeavesOnly D.moment D.left_since first.old first.new (λ c. IsInUse c → ⊥) }
    ensures any_moment_beside { IsTrue D.is_modelled → other_size ≡ length (D.seen second.old)
        → (IsInUse (D.seen second.old) → ⊥) → Only (D.seen second.old) (D.may_leave second.old) → (body : List ℕ)
        → LeavesOnly D.moment D.left_since second.old second.new (MayFollow 0 [] body) }
    ensures count { IfOk result (λ position. position.count ≡ 0) }
    ensures device { IfErr result (λ fault. fault ≡ Device) }
    ensures cause { TellsEither result (D.faults first.old) (D.faults second.old) (D.faults first.new) (D.faults second.new) }
{
    clear(first, one_size)?;
    begin(second, other_size)?;
    Ok(Position::first(&HEADER))
}

/// Opens two slots, of which one is read, or neither. Answers where the next record goes.
fn open_led<D: Disk, B: Bodies>(
    alloc: Global,
    first: &mut D,
    second: &mut D,
    leader: Leader,
    one: Found,
    other: Found,
    bodies: &mut B,
) -> Result<Position, OpenFault>
    requires { Leads leader one.version other.version }
    ensures opened { IsTrue D.is_modelled → AreSurveyed D.seen D.may_leave one other first.old second.old → B.has bodies.old [] → IfOk result (λ position. HasOpened
        (B.has bodies.new) B.is_lawful position.gate position.count (D.seen first.old) (D.seen second.old)
        (cond (is_turned leader) (D.seen second.new) (D.seen first.new))
        (cond (is_turned leader) (D.may_leave second.new) (D.may_leave first.new))
        (cond (is_turned leader) (D.may_leave first.new) (D.may_leave second.new))) }
    ensures count { B.has bodies.old [] → IfOk result (λ position. HasCounted (B.has bodies.new) position.count) }
    ensures header { IsErrOf result BadHeader → ⊥ }
    ensures bad_record { IsTrue D.is_modelled → AreSurveyed D.seen D.may_leave one other first.old second.old → B.has bodies.old [] → IfErr result (λ fault. (i : ℕ)
        → fault ≡ BadRecord i → ReadsBad B.is_lawful i (D.seen first.old) (D.seen second.old)) }
    ensures unwritten { IsTrue D.is_modelled → IfErr result (λ fault. (fault ≡ Device → ⊥)
        → BothOnlyRead D.seen D.may_leave D.moment D.left_since first.old second.old first.new second.new) }
    ensures refused { IsTrue D.is_modelled → AreSurveyed D.seen D.may_leave one other first.old second.old → B.has bodies.old []
        → AreRefused B.is_lawful (D.seen first.old) (D.seen second.old)
        → BothOnlyRead D.seen D.may_leave D.moment D.left_since first.old second.old first.new second.new }
    ensures any_moment { IsTrue D.is_modelled → AreSurveyed D.seen D.may_leave one other first.old second.old → B.has bodies.old [] → (order : Order)
        (had : List (List ℕ)) (body : List ℕ) → MayBePut had body → LeftOfFirst order had body (D.seen first.old)
        → LeftOfSecond order had body (D.seen second.old)
        → BothLeave D.moment D.left_since order had body first.old second.old first.new second.new }
    ensures memory { IsTrue D.is_modelled → AreSurveyed D.seen D.may_leave one other first.old second.old → B.has bodies.old [] → IsErrOf result OutOfMemory
        → ReadsRecord (D.seen first.old) (D.seen second.old) }
    ensures reason { IsTrue D.is_modelled → AreSurveyed D.seen D.may_leave one other first.old second.old → B.has bodies.old []
        → AreRefused B.is_lawful (D.seen first.old) (D.seen second.old) → IsErrOf result Device
        → MayFailReading D.seen D.may_fail (D.seen first.old) ⊎ MayFailReading D.seen D.may_fail (D.seen second.old) }
    ensures old_first { IsTrue D.is_modelled → AreSurveyed D.seen D.may_leave one other first.old second.old → HasFront old_header (D.seen first.old)
        → IsOnlyRead D.seen D.may_leave D.moment D.left_since first.old first.new }
    ensures old_second { IsTrue D.is_modelled → AreSurveyed D.seen D.may_leave one other first.old second.old → HasFront old_header (D.seen second.old)
        → IsOnlyRead D.seen D.may_leave D.moment D.left_since second.old second.new }
    ensures cause { TellsEither result (D.faults first.old) (D.faults second.old) (D.faults first.new) (D.faults second.new) }
{
    match leader {
        Leader::First(version) => open_read(alloc, first, second, version, one.size, other, bodies),
        Leader::Second(version) => open_read(
            alloc, second, first, version, other.size, one, bodies,
        ),
        Leader::Neither => open_neither(first, second, one.size, other.size),
    }
}

/// Hands on the bodies of the slot in use that has the greater generation, and mends the end of its records. A file of version 1 is brought over
/// into the other slot, and if neither is in use, the second one gets a file without records. Nothing is written if a slot in use has no header,
/// if both have one generation, or if a record is bad.
fn open_both<D: Disk, B: Bodies>(
    alloc: Global,
    first: &mut D,
    second: &mut D,
    bodies: &mut B,
) -> Result<Opened, OpenFault>
    ensures opened { IsTrue D.is_modelled → B.has bodies.old [] → IfOk result (λ opened. HasOpened
        (B.has bodies.new) B.is_lawful opened.position.gate opened.position.count (D.seen first.old) (D.seen second.old)
        (cond opened.turned (D.seen second.new) (D.seen first.new))
        (cond opened.turned (D.may_leave second.new) (D.may_leave first.new))
        (cond opened.turned (D.may_leave first.new) (D.may_leave second.new))) }
    ensures count { B.has bodies.old [] → IfOk result (λ opened. HasCounted (B.has bodies.new) opened.position.count) }
    ensures bad_header { IsTrue D.is_modelled → IsErrOf result BadHeader → AreForeign (D.seen first.old) (D.seen second.old) }
    ensures bad_record { IsTrue D.is_modelled → B.has bodies.old [] → IfErr result (λ fault. (i : ℕ)
        → fault ≡ BadRecord i → ReadsBad B.is_lawful i (D.seen first.old) (D.seen second.old)) }
    ensures unwritten { IsTrue D.is_modelled → IfErr result (λ fault. (fault ≡ Device → ⊥)
        → BothOnlyRead D.seen D.may_leave D.moment D.left_since first.old second.old first.new second.new) }
    ensures refused { IsTrue D.is_modelled → B.has bodies.old []
        → AreRefused B.is_lawful (D.seen first.old) (D.seen second.old)
        → BothOnlyRead D.seen D.may_leave D.moment D.left_since first.old second.old first.new second.new }
    ensures any_moment { IsTrue D.is_modelled → B.has bodies.old [] → (order : Order) (had : List (List ℕ))
        (body : List ℕ) → MayBePut had body
        → ((c : List ℕ) → D.may_leave first.old c → LeftOfFirst order had body c)
        → ((c : List ℕ) → D.may_leave second.old c → LeftOfSecond order had body c)
        → BothLeave D.moment D.left_since order had body first.old second.old first.new second.new }
    ensures memory { IsTrue D.is_modelled → B.has bodies.old [] → IsErrOf result OutOfMemory
        → ReadsRecord (D.seen first.old) (D.seen second.old) }
    ensures reason { IsTrue D.is_modelled → B.has bodies.old []
        → AreRefused B.is_lawful (D.seen first.old) (D.seen second.old) → IsErrOf result Device
        → MayFailReading D.seen D.may_fail (D.seen first.old) ⊎ MayFailReading D.seen D.may_fail (D.seen second.old) }
    ensures old_first { IsTrue D.is_modelled → HasFront old_header (D.seen first.old)
        → IsOnlyRead D.seen D.may_leave D.moment D.left_since first.old first.new }
    ensures old_second { IsTrue D.is_modelled → HasFront old_header (D.seen second.old)
        → IsOnlyRead D.seen D.may_leave D.moment D.left_since second.old second.new }
    ensures cause { TellsEither result (D.faults first.old) (D.faults second.old) (D.faults first.new) (D.faults second.new) }
{
    let (one, other) = survey_both(first, second)?;
    let leader = choose(one.version, other.version)?;
    let position = open_led(alloc, first, second, leader, one, other, bodies)?;
    Ok(Opened {
        position,
        turned: leader.is_turned(),
    })
}

/// Opens two slots as `open_both` does, with reads ahead, and hands them back.
pub fn open_ahead<D: Disk, B: Bodies>(
    alloc: Global,
    first: D,
    second: D,
    bodies: &mut B,
) -> Opening<D>
    ensures opened { IsTrue D.is_modelled → B.has bodies.old [] → IfOk result.outcome (λ opened. HasOpened
        (B.has bodies.new) B.is_lawful opened.position.gate opened.position.count (D.seen first) (D.seen second)
        (cond opened.turned (D.seen result.second) (D.seen result.first))
        (cond opened.turned (D.may_leave result.second) (D.may_leave result.first))
        (cond opened.turned (D.may_leave result.first) (D.may_leave result.second))) }
    ensures count { B.has bodies.old [] → IfOk result.outcome (λ opened. HasCounted (B.has bodies.new) opened.position.count) }
    ensures bad_header { IsTrue D.is_modelled → IsErrOf result.outcome BadHeader → AreForeign (D.seen first) (D.seen second) }
    ensures bad_record { IsTrue D.is_modelled → B.has bodies.old [] → IfErr result.outcome (λ fault. (i : ℕ)
        → fault ≡ BadRecord i → ReadsBad B.is_lawful i (D.seen first) (D.seen second)) }
    ensures unwritten { IsTrue D.is_modelled → IfErr result.outcome (λ fault. (fault ≡ Device → ⊥)
        → BothOnlyRead D.seen D.may_leave D.moment D.left_since first second result.first result.second) }
    ensures refused { IsTrue D.is_modelled → B.has bodies.old []
        → AreRefused B.is_lawful (D.seen first) (D.seen second)
        → BothOnlyRead D.seen D.may_leave D.moment D.left_since first second result.first result.second }
    ensures any_moment { IsTrue D.is_modelled → B.has bodies.old [] → (order : Order) (had : List (List ℕ))
        (body : List ℕ) → MayBePut had body
        → ((c : List ℕ) → D.may_leave first c → LeftOfFirst order had body c)
        → ((c : List ℕ) → D.may_leave second c → LeftOfSecond order had body c)
        → BothLeave D.moment D.left_since order had body first second result.first result.second }
    ensures memory { IsTrue D.is_modelled → B.has bodies.old [] → IsErrOf result.outcome OutOfMemory
        → ReadsRecord (D.seen first) (D.seen second) }
    ensures reason { IsTrue D.is_modelled → B.has bodies.old []
        → AreRefused B.is_lawful (D.seen first) (D.seen second) → IsErrOf result.outcome Device
        → MayFailReading D.seen D.may_fail (D.seen first) ⊎ MayFailReading D.seen D.may_fail (D.seen second) }
    ensures old_first { IsTrue D.is_modelled → HasFront old_header (D.seen first)
        → IsOnlyRead D.seen D.may_leave D.moment D.left_since first result.first }
    ensures old_second { IsTrue D.is_modelled → HasFront old_header (D.seen second)
        → IsOnlyRead D.seen D.may_leave D.moment D.left_since second result.second }
    ensures cause { TellsEither result.outcome (D.faults first) (D.faults second) (D.faults result.first) (D.faults result.second) }
{
    let mut one = ReadAhead::new(alloc, first);
    let mut other = ReadAhead::new(alloc, second);
    let outcome = open_both(alloc, &mut one, &mut other, bodies);
    Opening {
        first: one.into_disk(),
        second: other.into_disk(),
        outcome,
    }
}
