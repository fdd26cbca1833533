//! What the houses of a host show of what they ask.
ghost use Rattle.change_log.specs.Logs.{last_number};
ghost use Rattle.chunk_group.specs.Faults.{IsBlamedFor};
ghost use Rattle.chunk_group.specs.Holding.{MayNotHold};
ghost use Rattle.desk_seats.specs.Asked.{IsAsked};

use crate::groups::HostGroup;
use blob_store::{AbsenceReceipt, PutReceipt, ShelfAccess};
use change_log::Log;
use desk_seats::SeatedDesk;
use host_disk::Disk;
use left_right::Absorb;
use peer_link::TcpLink;
use seen_lists::ListName;
use shared_house::{CachedFiles, DeskAccess, FileAccess, GroupFiles};
use site_desk::{DeskName, KnownFiles, Notice};
use std::marker::PhantomData;
use std::net::{Net, TcpStream};
use std::sync::Wait;
use std::thread::Threads;
use std::time::Clock;

/// What each house of a host shows, whichever thread it is in: so steps of all of them are steps of one connection.
pub(crate) trait Houses {
    ghost use Rattle.shared_house.specs.Desks.{DeskCall, HoldFault};

    /// What a call of its desk shows.
    ghost did: { DeskCall → Type 0 };

    /// What a stretch of a file shows that isn't held.
    ghost fails: { HoldFault };
}

/// Houses at seats of a desk over such disks, whose shelf is reached this way. For clauses alone: none is made.
pub(crate) struct HostHouses<J, D, S, Q, U, N> {
    desk: PhantomData<J>,
    disk: PhantomData<D>,
    shelf: PhantomData<S>,
    access: PhantomData<Q>,
    put: PhantomData<U>,
    absence: PhantomData<N>,
}

impl<
    J: DeskName,
    D: Disk,
    S,
    Q: ShelfAccess<S, U, N>,
    U: PutReceipt + Drop,
    N: AbsenceReceipt + Drop,
> Houses for HostHouses<J, D, S, Q, U, N> {
    ghost did = { IsAsked D.Disk Q.failed (last_number J.found) };

    ghost fails = { MayNotHold (IsBlamedFor Q.failed) };
}

/// A desk of houses with such files. What the two show is what such houses show: so what steps of these houses carried is carried, and goes on in them.
pub(crate) trait AsksOver<
    J: DeskName,
    K: ListName<KnownFiles>,
    M: Houses,
    G: FileAccess,
>: DeskAccess<J, K> {
    ghost use Rattle.std.specs.Prelude.{List};
    ghost use Rattle.http_wire.specs.Timing.{Event};
    ghost use Rattle.host_connection.specs.declared.steps.Connection.{Connection};
    ghost use Rattle.shared_house.specs.Desks.{shows};
    ghost use Rattle.shared_house.specs.Seeing.{Known};
    ghost use Rattle.host_nodes.specs.Carried.{IsCarried};

    ghost as_shown: { (trail : List Event) (note : Known) (c : Connection)
        → IsCarried (shows Self.DeskAccess.did G.fails) trail note c
        → IsCarried (shows M.did M.fails) trail note c };

    ghost of_shown: { (trail : List Event) (note : Known) (c : Connection)
        → IsCarried (shows M.did M.fails) trail note c
        → IsCarried (shows Self.DeskAccess.did G.fails) trail note c };
}

/// A worker's house.
impl<
    'g,
    'h,
    J: DeskName,
    K: ListName<KnownFiles>,
    D: Disk,
    S,
    T: Absorb<Notice<J>, State = Log> + Drop,
    R: Net<Stream = TcpStream> + Clock + Wait + Threads + Drop,
    Q: ShelfAccess<S, U, N>,
    U: PutReceipt + Drop,
    N: AbsenceReceipt + Drop,
> AsksOver<J, K, HostHouses<J, D, S, Q, U, N>, CachedFiles<'_, R, HostGroup<'g, 'h, R, S, Q, U, N>>>
    for SeatedDesk<'_, J, K, D, S, T, R, R, Q, U, N> {
    ghost as_shown = { λ trail note c is. is };

    ghost of_shown = { λ trail note c is. is };
}

/// A house for an errand.
impl<
    'g,
    'h,
    J: DeskName,
    K: ListName<KnownFiles>,
    D: Disk,
    S,
    T: Absorb<Notice<J>, State = Log> + Drop,
    R: Net<Stream = TcpStream> + Clock + Wait + Threads + Drop,
    Q: ShelfAccess<S, U, N>,
    U: PutReceipt + Drop,
    N: AbsenceReceipt + Drop,
> AsksOver<
    J,
    K,
    HostHouses<J, D, S, Q, U, N>,
    GroupFiles<'_, R, HostGroup<'g, 'h, R, S, Q, U, N>, TcpLink<'h, R>>,
> for SeatedDesk<'_, J, K, D, S, T, R, R, Q, U, N> {
    ghost as_shown = { λ trail note c is. is };

    ghost of_shown = { λ trail note c is. is };
}
