//! Laws of pieces. Each is the contract of a function that does nothing.
ghost use Rattle.std.specs.Prelude.{◌≡◌, ℕ, ◌-◌, ◌*◌, ◌/◌, ◌%◌, ◌+◌, ◌<◌, All, List, [], length, min, slice_index, slice_index_or};
ghost use Rattle.std.specs.List.{concat};
ghost use Rattle.byte_view.specs.Cuts.{IsPure, cut, place_of, slice};
ghost use Rattle.byte_view.specs.Holds.{Held, IsHeld, held_part};

/// The pieces of a file, joined, are the file. Each has 65,536 bytes but the last, which has the rest, at least one byte. The empty file
/// has no pieces. Each byte is in the piece at its place.
pub fn files_are_cut_into_pieces()
    ensures joined { (file : List ℕ) → concat (cut file) ≡ file }
    ensures count { (file : List ℕ) → length (cut file) ≡ (length file + 65535) / 65536 }
    ensures sizes { (file : List ℕ) (k : ℕ) → k < length (cut file) → length (slice_index_or (cut file) k []) ≡ min 65536 (length file - k * 65536) }
    ensures placed { (file : List ℕ) (i : ℕ) → i < length file → slice_index (slice_index_or (cut file) (place_of i) []) (i % 65536) ≡ slice_index file i }
{}

/// A hold shows its stretch of the file, unless a chunk of it differs from a piece of the same digest.
pub fn holds_show_their_stretches()
    ensures { (h : Held) → IsHeld h → All (IsPure h.file) h.chunks → held_part h h.first h.last ≡ slice h.file h.first h.last }
{}
