//! What the threads do that may wait.
use crate::groups::HostGroup;
use crate::guests::{GuestSteps, HostSlot, taken_sight};
use crate::nodes::{lost, step_away};
use crate::showing::HostHouses;
use blob_store::{AbsenceReceipt, PutReceipt, ShelfAccess};
use change_log::Log;
use desk_seats::SeatedDesk;
use event_loop::SlowSteps;
use host_disk::Disk;
use left_right::Absorb;
use peer_link::TcpLink;
use seen_lists::ListName;
use shared_desk::Desk;
use shared_house::{DeskVisitor, GroupFiles, Guest, Patient, SharedHouse};
use site_desk::{DeskName, KnownFiles, Notice, Seat};
use std::alloc::Global;
use std::net::{Net, TcpStream};
use std::sync::{Mutex, Wait};
use std::thread::Threads;
use std::time::Clock;
use worker_connections::Step;

/// The steps of one request.
type AwaySteps<'a, 'g, 'h, J, K, D, S, T, R, Q, U, N> = GuestSteps<
    J,
    K,
    HostHouses<J, D, S, Q, U, N>,
    SeatedDesk<'a, J, K, D, S, T, R, R, Q, U, N>,
    GroupFiles<'a, R, HostGroup<'g, 'h, R, S, Q, U, N>, TcpLink<'h, R>>,
    Patient,
>;

/// Answers the requests that workers leave: over what the worker saw, and with calls that may wait.
#[derive(Drop)]
pub(crate) struct GuestErrands<
    'a,
    J: DeskName,
    K: ListName<KnownFiles>,
    D: Disk,
    S,
    T: Absorb<Notice<J>, State = Log> + Drop,
    R: Wait + Drop,
    Q,
    G,
> {
    pub(crate) rt: &'a R,
    pub(crate) desk: &'a Desk<J, K, D, S, T, R>,
    pub(crate) access: &'a Q,
    pub(crate) seat: &'a Mutex<Seat<J>>,
    pub(crate) group: &'a G,
    /// The turn to parse a long body, of all nodes.
    pub(crate) parsing: &'a Mutex<()>,
}

/// What answers one request over what a worker saw. There is nothing only for want of memory.
fn steps_of<
    'a,
    'g,
    'h,
    J: DeskName,
    K: ListName<KnownFiles>,
    D: Disk,
    S,
    T: Absorb<Notice<J>, State = Log> + Drop,
    R: Net<Stream = TcpStream> + Clock + Wait + Threads + Drop,
    Q: ShelfAccess<S, U, N>,
    U: PutReceipt + Drop,
    N: AbsenceReceipt + Drop,
>(
    errands: &GuestErrands<'a, J, K, D, S, T, R, Q, HostGroup<'g, 'h, R, S, Q, U, N>>,
    sight: DeskVisitor<J>,
) -> Option<AwaySteps<'a, 'g, 'h, J, K, D, S, T, R, Q, U, N>> {
    let rt = errands.rt;
    let desk = SeatedDesk::new(
        rt,
        errands.desk,
        errands.access,
        errands.seat,
        errands.parsing,
    );
    let files = GroupFiles::new(rt, errands.group);
    let house = SharedHouse::new(sight, desk, files).ok()?;
    Some(GuestSteps::new(Guest::new(house, Patient, None)))
}

impl<
    J: DeskName,
    K: ListName<KnownFiles>,
    D: Disk,
    S,
    T: Absorb<Notice<J>, State = Log> + Drop,
    R: Net<Stream = TcpStream> + Clock + Wait + Threads + Drop,
    Q: ShelfAccess<S, U, N>,
    U: PutReceipt + Drop,
    N: AbsenceReceipt + Drop,
> SlowSteps for GuestErrands<'_, J, K, D, S, T, R, Q, HostGroup<'_, '_, R, S, Q, U, N>> {
    type Connection = HostSlot<J, K, D, S, Q, U, N>;

    fn go_on(&mut self, alloc: Global, noted: &mut HostSlot<J, K, D, S, Q, U, N>) -> Step {
        let Some(sight) = taken_sight(noted) else {
            return lost();
        };
        match steps_of(self, sight) {
            Some(steps) => step_away(steps, alloc, noted),
            None => lost(),
        }
    }
}
