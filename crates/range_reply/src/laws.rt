//! Laws about texts, boundaries and bodies. Each law is the contract of a function that does nothing.
ghost use Rattle.std.specs.Prelude.{◌≡◌, ◌+◌, ◌≤◌, ◌↔◌, ℕ, List, [], length, slice_range};
ghost use Rattle.std.specs.Str.Iter.{HasSubslice};
ghost use Rattle.byte_view.specs.Cuts.{slice};
ghost use Rattle.host_names.specs.declared.digests.Digest.{Digest};
ghost use Rattle.range_reply.specs.Boundaries.{HasNoBoundary, IsBoundaryFor};
ghost use Rattle.range_reply.specs.Sending.{IsExact, SentFile};
ghost use Rattle.range_spec.specs.declared.selection.Choice.TheVariants.{One, Whole};

/// Bytes occur in a text if and only if the text has these bytes from some place on.
pub fn texts_are_found_where_they_stand()
    ensures { (bytes text : List ℕ) → HasSubslice text bytes
        ↔ ((place : ℕ) × (place + length bytes ≤ length text)
        × (slice_range text place (place + length bytes) ≡ bytes)) }
{}

/// Some texts and a digest have at most one boundary.
pub fn one_boundary()
    ensures { (texts : List (List ℕ)) (digest : Digest) (one another : List ℕ)
        → IsBoundaryFor texts digest one → IsBoundaryFor texts digest another → one ≡ another }
{}

/// If all of a file is asked for, the body that is exact for the file is the file.
pub fn a_whole_file_is_its_body()
    ensures { (file content_type : List ℕ) (body : SentFile)
        → IsExact file Whole content_type body → body.bytes ≡ file }
{}

/// If one interval of a file is asked for, the body that is exact for the file is the bytes of that interval.
pub fn an_interval_is_its_body()
    ensures { (file content_type : List ℕ) (first last : ℕ) (body : SentFile)
        → IsExact file (One first last) content_type body → body.bytes ≡ slice file first last }
{}

/// Each of these relations is refuted for a wrong answer, so none of them is true of everything.
pub fn wrong_answers_are_refused()
    ensures parted { (texts : List (List ℕ)) (digest : Digest) (text : List ℕ)
        → HasNoBoundary texts digest → ¬ (IsBoundaryFor texts digest text) }
    ensures empty { (texts : List (List ℕ)) (digest : Digest) → ¬ (IsBoundaryFor texts digest []) }
    ensures none { (digest : Digest) → ¬ (HasNoBoundary [] digest) }
{}
