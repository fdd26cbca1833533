//! Sources of chunks.
ghost use Rattle.std.specs.Prelude.{◌≡◌, ◌≢◌, Err, IfErr, IfOk, MatchResult, Ok};
ghost use Rattle.host_names.specs.Digests.{digest_of};
ghost use Rattle.chunk_reads.specs.declared.faults.ReadFault.TheVariants.{Damaged};
ghost use Rattle.chunk_group.specs.Faults.{MayAnswer};

use byte_view::Chunk;
use chunk_reads::ReadFault;
use host_names::Digest;
use single_flight::Loads;
use std::marker::PhantomData;
use std::sync::Arc;

/// What a read of a chunk comes to.
pub type Outcome = Result<Arc<Chunk>, ReadFault>;

/// Gives a node the chunks that no peer gives it. It is not trusted: it may give the chunk of another name.
///
/// It gives a checked chunk, as a store does, and no bytes: so these are hashed once. A peer gives bytes, since the node has to check them.
pub trait Source {
    ghost use Rattle.std.specs.Prelude.{List, Result, ℕ};
    ghost use Rattle.host_names.specs.declared.digests.Digest.{Digest};
    ghost use Rattle.chunk_reads.specs.declared.faults.ReadFault.{ReadFault};

    /// Which faults a source of this type may answer for a key, besides that memory ran out.
    ghost allows: { Digest → ReadFault → Type 0 };

    /// What a load of a key, with its answer, leads from and to.
    ghost loaded: { Self → Digest → Result (List ℕ) ReadFault → Self → Type 0 };

    /// The chunk that it has for a key. One of another name counts as damaged.
    fn load(&mut self, key: &Digest) -> Result<Chunk, ReadFault>
        ensures loaded { MatchResult result (λ chunk. loaded self.old key.now (Ok chunk) self.new) (λ fault. loaded self.old key.now (Err fault) self.new) }
        ensures fault { IfErr result (λ fault. MayAnswer allows key.now fault) }
        ensures other { IfOk result (λ chunk. digest_of chunk ≢ key.now → allows key.now Damaged) };
}

/// The flights of loads from a source. For clauses alone: none is made.
pub(crate) struct Loading<S> {
    of: PhantomData<S>,
}

impl<S: Source> Loads<Outcome> for Loading<S> {
    ghost use Rattle.chunk_group.specs.Outcomes.{IsOutcome, clones_of_outcomes};

    ghost fits = { IsOutcome (λ share. share.value) S.allows };

    ghost clones_fit = { clones_of_outcomes (λ share. share.value) S.allows _ (λ _ _ same. same) (λ _ _ wrong. wrong) (λ _ _ wrong. wrong) (λ _ _ same. same) };
}
