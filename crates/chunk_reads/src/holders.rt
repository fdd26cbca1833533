//! Who has the chunks of files.
ghost use Rattle.std.specs.Prelude.{◌≡◌, ◌<◌, ◌≤◌, ℕ, IfErr, IfOk, List, length};
ghost use Rattle.byte_view.specs.Holds.{Held};
ghost use Rattle.chunk_reads.specs.declared.faults.ReadFault.{ReadFault as Fault};

use crate::faults::ReadFault;
use byte_view::{BlobInfo, Hold};
use std::sync::Arc;

/// Holds stretches of files.
pub trait Holder {
    // What it is where it gave a hold, and what it is then.
    ghost gave: { Self → Held → Self → Type 0 };

    // What it is where it couldn't hold a stretch of a file, from its first to its last byte, and what it is then.
    ghost failed: { Self → List ℕ → ℕ → ℕ → Fault → Self → Type 0 };

    /// A stretch of a file, with the chunks that it meets. It is given by its first and its last byte, both included, as in a Range field.
    fn hold(&mut self, info: Arc<BlobInfo>, first: usize, last: usize) -> Result<Hold, ReadFault>
        requires ordered { first ≤ last }
        requires within { last < length info.value }
        ensures stretch { IfOk result (λ hold. (hold.file ≡ info.value) × (hold.first ≡ first) × (hold.last ≡ last)) }
        ensures gave { IfOk result (λ hold. gave self.old hold self.new) }
        ensures failed { IfErr result (λ fault. failed self.old info.value first last fault self.new) };
}
