//! Laws of the definitions, apart from any call.
ghost use Rattle.std.specs.Prelude.{◌≡◌, ◌<◌, ◌↔◌, ℕ, List, [], IsSomeAnd, Some};
ghost use Rattle.range_spec.specs.declared.grammar.Asked.{Asked};
ghost use Rattle.range_spec.specs.declared.grammar.Spec.{Spec};
ghost use Rattle.range_spec.specs.declared.grammar.Spec.TheVariants.{From};
ghost use Rattle.range_spec.specs.Asks.{AsksRanges, IsAskable, IsInOrder};
ghost use Rattle.range_spec.specs.Chosen.{interval_of, AsksFor, LiesIn, LiesWithin};
ghost use Rattle.range_spec.specs.Understood.{IsUnderstoodAs};

/// A value asks for at most one list of specs: so one answer is right for it, and no other is.
pub fn one_reading()
    ensures asked { (text : List ℕ) (specs others : List Spec) → AsksRanges text specs → AsksRanges text others
        → specs ≡ others }
    ensures understood { (text : List ℕ) (one another : Asked) → IsUnderstoodAs text one → IsUnderstoodAs text another
        → one ≡ another }
{}

/// The interval chosen for a spec has the bytes of the file that the spec asks for, and no others.
pub fn interval_is_what_is_asked_for()
    ensures { (size position : ℕ) (spec : Spec) → position < size
        → (IsSomeAnd (interval_of size spec) (LiesIn position) ↔ AsksFor size spec position) }
{}

/// Each of these relations is refuted for one wrong answer, so none of them holds of everything.
pub fn wrong_answers_are_refused()
    ensures within { ¬ (LiesWithin 0 (0, 0)) }
    ensures order { ¬ (IsInOrder (From 1 (Some 0))) }
    ensures askable { ¬ (IsAskable []) }
{}
