//! The lesser of numbers that may be there.
ghost use Rattle.std.specs.Prelude.{◌||◌, Bool, ℕ};
ghost use Rattle.touch_index.specs.Next.{IsNext};

/// The lesser of two numbers, if there are any: what next passes one of two tests, by what next passes each.
pub(crate) fn lesser(one: Option<u64>, other: Option<u64>) -> Option<u64>
    ensures { (f g : ℕ → Bool) (after : ℕ) → IsNext f after one → IsNext g after other → IsNext (λ i. f i || g i) after result }
{
    match (one, other) {
        (Some(one), Some(other)) if other < one => Some(other),
        (Some(one), _) => Some(one),
        (None, other) => other,
    }
}
