//! Keys that are side by side.

/// Keys of a map that are side by side in its order.
pub trait Span<K: Ord> {
    ghost use Rattle.std.specs.Prelude.{◌≡◌, Bool};
    ghost use Rattle.persistent_maps.specs.Spans.{StandTogether};

    ghost before: { Self → K → Bool };

    ghost within: { Self → K → Bool };

    /// Whether a key comes before them.
    fn is_before(&self, key: &K) -> bool
        ensures { result ≡ before self.now key.now };

    /// Whether a key is one of them.
    fn is_within(&self, key: &K) -> bool
        ensures { result ≡ within self.now key.now };

    ghost together: { (span : Self) → StandTogether K.cmp (before span) (within span) };
}
