//! Entries that are ready to be put.
ghost use Rattle.std.specs.Prelude.{◌≡◌, IfOk};
ghost use Rattle.entry_texts.specs.Spells.{IsInRange};
ghost use Rattle.change_journal.specs.Texts.{IsRecordOf};

use entry_texts::encode;
use record_file::framed_body;
use site_change::Entry;
use std::alloc::{AllocError, Global};
use std::marker::Model;
use std::snapshot::Snapshot;

/// An entry that is ready to be put: the bytes of its record, and the gate of the next one. Contracts see the entry.
#[derive(Drop)]
pub struct Prepared {
    bytes: Vec<u8>,
    entry: Snapshot<Entry>,
}

impl Model for Prepared {
    ghost use Rattle.site_change.specs.declared.entries.Entry.{Entry};

    ghost Value = { Entry };

    ghost use Rattle.change_journal.specs.Texts.{IsRecordOf};

    ghost view = { λ p. p.entry.value };

    ghost invariant = { λ p. IsRecordOf p.entry.value p.bytes.items };
}

/// Makes an entry ready to be put. Its numbers are from 1 to 1,000,000, and it lists at most 10,000 paths.
pub fn prepare(alloc: Global, entry: &Entry) -> Result<Prepared, AllocError>
    requires { IsInRange entry.now }
    ensures { IfOk result (λ prepared. prepared ≡ entry.now) }
{
    let text = encode(alloc, entry)?;
    Ok(Prepared {
        bytes: framed_body(alloc, text.as_slice())?,
        entry: Snapshot::of(entry),
    })
}

impl Prepared {
    /// The bytes of its record, and the gate of the next one.
    pub(crate) fn bytes(&self) -> &[u8]
        ensures { IsRecordOf self.now result.now }
    {
        self.bytes.as_slice()
    }
}
