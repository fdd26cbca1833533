//! How many connections the limit of descriptors leaves room for, and who gives one if none is left.
ghost use Rattle.std.specs.Prelude.{◌≤◌, IfSome};

use crate::repeating::{OnceAccess, get_once, put_once, repeated};
use crate::stopping::Stop;
use blob_store::{AbsenceReceipt, AccessFault, Files, Found, PutReceipt, ShelfAccess, ShelfName};
use std::sync::{Mutex, Wait};

/// How many descriptors are kept for what all nodes share: the standard streams, the journal, the folder and what the program inherits.
const RESERVE: u64 = 16;

/// How many are kept for each node: its listeners, the files of the shelf, and the connections between nodes.
const NODE_RESERVE: u64 = 8;

/// How many are kept for each worker: its set, and what ends the wait on it.
const WORKER_RESERVE: u64 = 2;

/// How many connections a node has at most, and how many it has at least.
const MOST: u64 = 1_024;

const LEAST: u64 = 8;

/// How many connections each of so many nodes with so many workers has, with this limit of descriptors; none if there is no room for the fewest.
pub fn places_of(limit: u64, nodes: u64, workers: u64) -> Option<usize>
    ensures { IfSome result (λ places. (8 ≤ places) × (places ≤ 1024)) }
{
    let of_node = workers
        .saturating_mul(WORKER_RESERVE)
        .saturating_add(NODE_RESERVE);
    let reserve = RESERVE.saturating_add(nodes.saturating_mul(of_node));
    let each = limit.saturating_sub(reserve).checked_div(nodes)?;
    if each < LEAST {
        return None;
    }
    Some(each.min(MOST) as usize)
}

/// Reaches the files of a shelf. If there is no descriptor for a file, a connection that is to go first gives its own, and the call is made again.
#[derive(Drop)]
pub struct GivingAccess<'a, Q> {
    calls: OnceAccess<'a, Q>,
    stop: &'a Stop,
}

impl<'a, Q> GivingAccess<'a, Q> {
    /// Reaches them this way, for threads that the nodes oversee by this.
    pub fn new(access: &'a Q, stop: &'a Stop) -> GivingAccess<'a, Q> {
        GivingAccess {
            calls: OnceAccess::new(access),
            stop,
        }
    }
}

impl<S, Q: ShelfAccess<S, U, N>, U: PutReceipt + Drop, N: AbsenceReceipt + Drop> ShelfAccess<
    S,
    U,
    N,
> for GivingAccess<'_, Q> {
    ghost failed = { Q.failed };

    fn put<W: Wait>(
        &self,
        rt: &W,
        files: &Mutex<Files<S>>,
        name: ShelfName,
        bytes: &[u8],
    ) -> Result<U, AccessFault> {
        repeated(
            || put_once(&self.calls, rt, files, name, bytes),
            || self.stop.asks(rt),
        )
    }

    fn get<W: Wait>(
        &self,
        rt: &W,
        files: &Mutex<Files<S>>,
        name: ShelfName,
    ) -> Result<Found<N>, AccessFault> {
        repeated(
            || get_once(&self.calls, rt, files, name),
            || self.stop.asks(rt),
        )
    }
}
