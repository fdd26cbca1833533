//! The calls of a shelf, for clauses alone.
ghost use Rattle.std.specs.Prelude.{◌≡◌, ◌∷◌, ◌<◌, ◌≤◌, IfErr, MatchResult, OnOk, option_map};
ghost use Rattle.blob_store.specs.Calls.{Got, GetFails, Put, PutFails};
ghost use Rattle.blob_store.specs.Folders.{calls_of, failures_in};
ghost use Rattle.blob_store.specs.declared.shelves.ShelfFault.TheVariants.{Device};

use crate::shelves::{ShelfFault, ShelfName};
use crate::tags::tag_of;
use boxcar::tag::Tag;
use std::snapshot::Snapshot;

/// The calls of a shelf, each with what it was given and what it answered. Snapshots and tags have no bytes, so nothing is kept at run
/// time.
#[derive(Drop)]
pub(crate) enum CallLog {
    Empty,
    AfterPut(Snapshot<CallLog>, Snapshot<ShelfName>, Tag, Snapshot<Result<(), ShelfFault>>),
    AfterGet(Snapshot<CallLog>, Snapshot<ShelfName>, Snapshot<Result<Option<Vec<u8>>, ShelfFault>>),
}

/// The outcome of a put, which is in the log from now on.
pub(crate) fn logged_put(
    log: &mut CallLog,
    name: ShelfName,
    bytes: &[u8],
    outcome: Result<(), ShelfFault>,
) -> Result<(), ShelfFault>
    ensures same { result ≡ outcome }
    ensures put { MatchResult result (λ _. calls_of log.new ≡ Put name bytes.now ∷ calls_of log.old) (λ fault. calls_of log.new ≡ PutFails name bytes.now fault ∷ calls_of log.old) }
    ensures device { IfErr result (λ fault. fault ≡ Device → failures_in (calls_of log.old) < failures_in (calls_of log.new)) }
    ensures unfailed { OnOk result (failures_in (calls_of log.new) ≡ failures_in (calls_of log.old)) }
    ensures count { failures_in (calls_of log.old) ≤ failures_in (calls_of log.new) }
{
    *log = CallLog::AfterPut(
        Snapshot::of(log),
        Snapshot::of(&name),
        tag_of(bytes),
        Snapshot::of(&outcome),
    );
    outcome
}

/// The outcome of a get, which is in the log from now on.
pub(crate) fn logged_get(
    log: &mut CallLog,
    name: ShelfName,
    outcome: Result<Option<Vec<u8>>, ShelfFault>,
) -> Result<Option<Vec<u8>>, ShelfFault>
    ensures same { result ≡ outcome }
    ensures got { MatchResult result (λ bytes. calls_of log.new ≡ Got name (option_map (λ b. b.items) bytes) ∷ calls_of log.old) (λ fault. calls_of log.new ≡ GetFails name fault ∷ calls_of log.old) }
    ensures device { IfErr result (λ fault. fault ≡ Device → failures_in (calls_of log.old) < failures_in (calls_of log.new)) }
    ensures unfailed { OnOk result (failures_in (calls_of log.new) ≡ failures_in (calls_of log.old)) }
    ensures count { failures_in (calls_of log.old) ≤ failures_in (calls_of log.new) }
{
    *log = CallLog::AfterGet(
        Snapshot::of(log),
        Snapshot::of(&name),
        Snapshot::of(&outcome),
    );
    outcome
}
