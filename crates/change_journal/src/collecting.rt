//! The entries that a journal's file has, taken one after another.
ghost use Rattle.std.specs.Prelude.{◌≡◌, [], All, IfOk, IsErrOf};
ghost use Rattle.change_log.specs.Logs.{IsWhole, empty_log};
ghost use Rattle.entry_texts.specs.Spells.{IsWritable, Spells};
ghost use Rattle.entry_texts.specs.declared.versions.Version.TheVariants.{First};
ghost use Rattle.record_file.specs.Slots.{old_header};
ghost use Rattle.change_journal.specs.Texts.{IsText, MayHave, texts};

use change_log::Log;
use entry_texts::{DecodeFault, Version, decode_in};
use record_file::{Bodies, BodyFault, is_old_header};
use site_change::Entry;
use std::alloc::Global;

/// The version whose entries a file with this header may have.
fn version_of(header: &[u8]) -> Version
    ensures old { header.now ≡ old_header → result ≡ First }
    ensures later { result ≡ First → header.now ≡ old_header }
{
    if is_old_header(header) {
        return Version::First;
    }
    Version::Later
}

/// The entry that these bytes spell in a file with this header.
pub(crate) fn decode_of(alloc: Global, header: &[u8], body: &[u8]) -> Result<Entry, DecodeFault>
    ensures spelled { IfOk result (λ entry. Spells body.now entry × MayHave header.now entry) }
    ensures bad { IsErrOf result DecodeFault.BadEntry → IsText header.now body.now → ⊥ }
{
    decode_in(alloc, version_of(header), body)
}

/// The entries whose texts were handed on.
#[derive(Drop)]
pub(crate) struct Collected {
    alloc: Global,
    pub(crate) log: Log,
}

impl Collected {
    /// None yet.
    pub(crate) fn new(alloc: Global) -> Collected
        ensures { result.log ≡ empty_log }
    {
        Collected {
            alloc,
            log: Log::new(alloc),
        }
    }
}

impl Bodies for Collected {
    ghost is_lawful = { λ header before. IsText header };

    ghost has = { λ collected bodies. (bodies ≡ texts collected.log.entries) × All IsWritable collected.log.entries × IsWhole collected.log };

    fn take(&mut self, header: &[u8], body: &[u8]) -> Result<(), BodyFault> {
        let entry = match decode_of(self.alloc, header, body) {
            Ok(entry) => entry,
            Err(DecodeFault::BadEntry) => return Err(BodyFault::Bad),
            Err(DecodeFault::OutOfMemory) => return Err(BodyFault::OutOfMemory),
        };
        self.log.push(entry).map_err(|_| BodyFault::OutOfMemory)
    }
}
