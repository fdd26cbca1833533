//! The calls of a shelf, each of which is made again if it lacks a descriptor.
ghost use Rattle.std.specs.Prelude.{◌≡◌, ◌≤◌, ◌↔◌, Err, IfErr, IfOk, IsTrue};
ghost use Rattle.blob_store.specs.Calls.{GetFails, PutFails};
ghost use Rattle.blob_store.specs.Receipts.{IsAbsent, told_fault};
ghost use Rattle.blob_store.specs.declared.access_faults.AccessFault.TheVariants.{NoDescriptor};
ghost use Rattle.node_process.specs.Repeats.{IsRepeated};

use blob_store::{AbsenceReceipt, AccessFault, Files, Found, PutReceipt, ShelfAccess, ShelfName};
use std::sync::{Mutex, Wait};

/// How often a call is made again at most. What one connection gives another thread may take first.
const MOST_TRIES: u32 = 8;

/// What one call answered. Only `repeated` looks at it: so nobody takes it for the answer before the call was made again.
#[derive(Drop)]
pub(crate) struct Once<T> {
    outcome: Result<T, AccessFault>,
}

impl<T> Once<T> {
    /// Whether the call failed for want of a descriptor.
    fn lacks(&self) -> bool
        ensures { IsTrue result ↔ (self.now.outcome ≡ Err NoDescriptor) }
    {
        matches!(&self.outcome, Err(AccessFault::NoDescriptor))
    }
}

/// Makes one call of a shelf at a time.
#[derive(Drop)]
pub(crate) struct OnceAccess<'a, Q> {
    access: &'a Q,
}

impl<'a, Q> OnceAccess<'a, Q> {
    /// Reaches the shelf this way.
    pub(crate) fn new(access: &'a Q) -> OnceAccess<'a, Q> {
        OnceAccess { access }
    }
}

/// Puts bytes under a name, by one call.
pub(crate) fn put_once<
    S,
    Q: ShelfAccess<S, U, N>,
    U: PutReceipt + Drop,
    N: AbsenceReceipt + Drop,
    W: Wait,
>(
    calls: &OnceAccess<'_, Q>,
    rt: &W,
    files: &Mutex<Files<S>>,
    name: ShelfName,
    bytes: &[u8],
) -> Once<U>
    ensures put { IfOk result.outcome (λ receipt. (U.put_name receipt ≡ name) × (U.put_bytes receipt ≡ bytes.now)) }
    ensures failed { IfErr result.outcome (λ why. Q.failed (PutFails name bytes.now (told_fault why))) }
{
    Once {
        outcome: calls.access.put(rt, files, name, bytes),
    }
}

/// What the shelf has under a name, by one call.
pub(crate) fn get_once<
    S,
    Q: ShelfAccess<S, U, N>,
    U: PutReceipt + Drop,
    N: AbsenceReceipt + Drop,
    W: Wait,
>(calls: &OnceAccess<'_, Q>, rt: &W, files: &Mutex<Files<S>>, name: ShelfName) -> Once<Found<N>>
    ensures absent { IfOk result.outcome (λ found. IsAbsent N.absent_name name found) }
    ensures failed { IfErr result.outcome (λ why. Q.failed (GetFails name (told_fault why))) }
{
    Once {
        outcome: calls.access.get(rt, files, name),
    }
}

/// Makes a call. If it lacks a descriptor, it asks for one, and makes the call again once one was given, so often at most.
pub(crate) fn repeated<T: Drop, C: FnMut() -> Once<T>, G: FnMut() -> bool>(
    mut call: C,
    mut give: G,
) -> Result<T, AccessFault>
    requires call { C.IsAlwaysCallable call }
    requires give { G.IsAlwaysCallable give }
    ensures { IsRepeated C.step G.step 8 call give result }
{
    for _made in 0..MOST_TRIES {
        let once = call();
        if !once.lacks() {
            return once.outcome;
        }
        if !give() {
            return once.outcome;
        }
    }
    call().outcome
}
