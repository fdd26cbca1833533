//! What the relations of the contracts refuse. The function does nothing: its contract is the law.
ghost use Rattle.std.specs.Prelude.{ℕ, List};
ghost use Rattle.byte_view.specs.Cuts.{pieces_met};
ghost use Rattle.chunk_reads.specs.Reading.{HaveWrongLengths};

/// The pieces that a stretch meets have their lengths, so the relation doesn't hold of everything.
pub fn wrong_answers_are_refused()
    ensures lengths { (file : List ℕ) (first last : ℕ) → ¬ (HaveWrongLengths (pieces_met file first last) file first last) }
{}
