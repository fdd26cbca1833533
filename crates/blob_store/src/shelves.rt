//! What a store puts its pieces and tables on.
ghost use Rattle.std.specs.Prelude.{◌≡◌, ℕ, ◌<◌, ◌≤◌, IfErr, MatchResult, OnOk, option_map};
ghost use Rattle.blob_store.specs.declared.shelves.ShelfFault.TheVariants.{Device};
ghost use Rattle.blob_store.specs.Calls.{Call, Put, PutFails, Got, GetFails};

use host_names::Digest;
use thiserror::Error;

/// What a shelf keeps bytes under: a piece of a file has its own digest, and the table of a file the file's.
#[derive(Clone, Copy, Debug, PartialEq, Eq)]
pub enum ShelfName {
    Part(Digest),
    Table(Digest),
}

/// Why a shelf can't answer.
#[derive(Clone, Copy, Debug, PartialEq, Eq, Error)]
pub enum ShelfFault {
    #[error("the device failed")]
    Device,
    #[error("out of memory")]
    OutOfMemory,
}

/// Keeps bytes under names. It is not trusted: what it gives need not be what was put there.
pub trait Shelf {
    /// How often its device has failed. It grows at each call that reports such a failure, and at no call that succeeds. Clauses alone tell
    /// it, since no code asks.
    ghost failures: { Self → ℕ };

    /// What a call, with its answer, leads from and to. Each shelf chooses this relation: for a shelf in memory it says what is found
    /// there, and for an unknown one it can say nothing, and needs no record. A store is proved over any such relation, so it can show a
    /// call only by making it.
    ghost did: { Self → Call → Self → Type 0 };

    /// Puts bytes under a name.
    fn put(&mut self, name: ShelfName, bytes: &[u8]) -> Result<(), ShelfFault>
        ensures put { MatchResult result (λ _. did self.old (Put name bytes.now) self.new) (λ fault. did self.old (PutFails name bytes.now fault) self.new) }
        ensures device { IfErr result (λ fault. fault ≡ Device → failures self.old < failures self.new) }
        ensures unfailed { OnOk result (failures self.new ≡ failures self.old) }
        ensures count { failures self.old ≤ failures self.new };

    /// What it has under a name.
    fn get(&mut self, name: ShelfName) -> Result<Option<Vec<u8>>, ShelfFault>
        ensures got { MatchResult result (λ bytes. did self.old (Got name (option_map (λ b. b.items) bytes)) self.new) (λ fault. did self.old (GetFails name fault) self.new) }
        ensures device { IfErr result (λ fault. fault ≡ Device → failures self.old < failures self.new) }
        ensures unfailed { OnOk result (failures self.new ≡ failures self.old) }
        ensures count { failures self.old ≤ failures self.new };
}
