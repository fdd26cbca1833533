//! What an opening of a journal would drop.
ghost use Rattle.std.specs.Prelude.{IsTrue, ⊤};
ghost use Rattle.record_file.specs.Pairs.{BothOnlyRead};
ghost use Rattle.change_journal.specs.Texts.{IsText};

use crate::collecting::decode_of;
use entry_texts::DecodeFault;
use host_disk::Disk;
use record_file::{Bodies, BodyFault, Looked, look_ahead};
use std::alloc::Global;

/// Judges texts, and keeps none.
#[derive(Drop)]
struct Judge {
    alloc: Global,
}

impl Bodies for Judge {
    ghost is_lawful = { λ header before. IsText header };

    ghost has = { λ judge bodies. ⊤ };

    fn take(&mut self, header: &[u8], body: &[u8]) -> Result<(), BodyFault> {
        match decode_of(self.alloc, header, body) {
            Ok(_) => Ok(()),
            Err(DecodeFault::BadEntry) => Err(BodyFault::Bad),
            Err(DecodeFault::OutOfMemory) => Err(BodyFault::OutOfMemory),
        }
    }
}

/// Tells what `Journal::open` would cut, clear or pass over of two slots, beyond what one unfinished record may have left, or why it would refuse
/// them. On modelled disks nothing is written. Entries are judged only if something would be dropped.
pub fn look<D: Disk>(alloc: Global, first: D, second: D) -> Looked<D>
    ensures same { IsTrue D.is_modelled
        → BothOnlyRead D.seen D.may_leave D.moment D.left_since first second result.first result.second }
{
    let mut judge = Judge { alloc };
    look_ahead(alloc, first, second, &mut judge)
}
