//! Laws of the texts of entries and of the files that hold them, each the contract of a function that does nothing.
ghost use Rattle.std.specs.Prelude.{◌≡◌, ◌≢◌, ◌⊎◌, ◌≤◌, ◌+◌, ◌++◌, ◌∷◌, [], ℕ, All, List, ⊤, length};
ghost use Rattle.host_names.specs.declared.names.SiteName.{SiteName};
ghost use Rattle.site_change.specs.declared.entries.Entry.{Entry};
ghost use Rattle.site_change.specs.declared.entries.Entry.TheVariants.{Undo};
ghost use Rattle.host_disk.specs.Calls.{ReadAt, WriteAt};
ghost use Rattle.host_disk.specs.Crashes.{Torn};
ghost use Rattle.record_file.specs.Failures.{MayFailPutting, MayFailReading, PutsBehind, ReadsWithin};
ghost use Rattle.record_file.specs.Frames.{framed};
ghost use Rattle.record_file.specs.Openings.{IsExactly};
ghost use Rattle.record_file.specs.Pairs.{AreForeign, FoundBoth, MayFollow, MayLead, Order, ReadsBad, ReadsRecord};
ghost use Rattle.record_file.specs.Settled.{TellsBreak};
ghost use Rattle.record_file.specs.Slots.{IsBelow, IsInUse};
ghost use Rattle.entry_texts.specs.Spells.{BeginsWithListing, BeginsWithPath, IsInRange, IsWritable, Spells, TakesMemory, entry_text};
ghost use Rattle.change_journal.specs.Texts.{AllStored, HoldsEntries, IsText, MayHoldMore, MayHoldNext, texts};
ghost use Rattle.record_file.specs.Walks.{IsNoRecord, IsOnlyRead, TellsStop};
ghost use Rattle.change_journal.specs.Files.{opened};
ghost use Rattle.record_file.specs.declared.faults.OpenFault.TheVariants as open_fault;
ghost use Rattle.record_file.specs.declared.records.PutFault.TheVariants as put_fault;

use host_disk::Disk;

/// An entry has a text if and only if each of its parts is valid and in its range, and it has one text alone.
pub fn an_entry_has_one_spelling()
    ensures some { (entry : Entry) → IsWritable entry → (bytes : List ℕ) × Spells bytes entry }
    ensures one { (entry : Entry) (a b : List ℕ) → Spells a entry → Spells b entry → a ≡ b }
    ensures bounded { (entry : Entry) (bytes : List ℕ) → Spells bytes entry → length bytes ≤ 10470070 }
{}

/// No bytes are the text of two entries.
pub fn no_bytes_spell_two_entries()
    ensures { (bytes : List ℕ) (a b : Entry) → Spells bytes a → Spells bytes b → a ≡ b }
{}

/// An entry that has a text can be prepared: `prepare` takes its numbers and its paths.
pub fn an_entry_with_a_text_is_in_range()
    ensures { (entry : Entry) → IsWritable entry → IsInRange entry }
{}

/// Two slots hold one list of entries at most.
pub fn two_slots_hold_one_list()
    ensures { (first second : List ℕ) (a b : List Entry) → HoldsEntries a first second → HoldsEntries b first second → a ≡ b }
{}

/// While an entry is put after others, the gate of its record decides what the slots hold: that entry too if the gate is open, else the others
/// alone. So whatever a stop leaves of the one slot and of the other holds one list or the other.
pub fn slots_hold_an_entry_whose_gate_is_open()
    ensures open_gate { (had : List Entry) (entry : Entry) (rest beside : List ℕ) → All IsWritable (had ++ entry ∷ [])
        → IsBelow 1 beside → HoldsEntries (had ++ entry ∷ [])
        (opened (texts had) ++ 1 ∷ (framed (entry_text entry) ++ 0 ∷ rest)) beside }
    ensures other_gate { (had : List Entry) (entry : Entry) (gate : ℕ) (rest beside : List ℕ)
        → All IsWritable had → gate ≢ 1 → IsBelow 1 beside
        → HoldsEntries had (opened (texts had) ++ gate ∷ (framed (entry_text entry) ++ 0 ∷ rest)) beside }
    ensures left { (order : Order) (had : List Entry) (entry : Entry) (a b : List ℕ)
        → MayHoldNext order had entry (λ c. c ≡ a) (λ c. c ≡ b)
        → HoldsEntries had a b ⊎ HoldsEntries (had ++ entry ∷ []) a b }
    ensures turned { (had : List Entry) (a b : List ℕ) → HoldsEntries had a b → HoldsEntries had b a }
{}

/// An opening finds the entries before the first gate that isn't open, whatever follows that gate.
pub fn an_opening_ends_at_a_gate_that_is_not_open()
    ensures { (found had : List Entry) (gate : ℕ) (rest beside : List ℕ)
        → All IsWritable found → All IsWritable had → gate ≢ 1 → IsBelow 1 beside
        → FoundBoth (texts found) (opened (texts had) ++ gate ∷ rest) beside → found ≡ had }
{}

/// While an entry is put, its gate is open only if its whole record follows it, with a gate of 0. If the gate were written before the
/// record is synced, a crash could leave it open with no record.
pub fn an_open_gate_has_its_record()
    ensures whole { (had : List Entry) (entry : Entry) (rest : List ℕ)
        → MayLead 1 (texts had) (entry_text entry) (opened (texts had) ++ 1 ∷ rest)
        → (behind : List ℕ) × (rest ≡ framed (entry_text entry) ++ 0 ∷ behind) }
    ensures unsynced { (had : List Entry) (entry : Entry) (n : ℕ) → (d : List ℕ) × (c : List ℕ)
        × Torn (length (opened (texts had)) + 1) n (opened (texts had) ++ 0 ∷ []) d × Torn (length (opened (texts had))) 1 d c
        × (MayLead 1 (texts had) (entry_text entry) c → ⊥) }
{}

/// While a file is brought over, the slot that it is written into is in use only if all of it is there. If its gate were written before the rest is
/// synced, a crash could leave a slot that is in use with no file.
pub fn a_slot_that_is_shown_has_its_file()
    ensures whole { (had : List Entry) (entry : Entry) (file beside : List ℕ) → All IsWritable (had ++ entry ∷ [])
        → MayFollow 0 (texts had) (entry_text entry) file → IsInUse file → IsBelow 1 beside
        → HoldsEntries had beside file ⊎ HoldsEntries (had ++ entry ∷ []) beside file }
    ensures unsynced { (had : List Entry) (entry : Entry) (n : ℕ) → (d : List ℕ) × (c : List ℕ)
        × Torn 1 (n + 1) (0 ∷ []) d × Torn 0 1 d c
        × (MayFollow 0 (texts had) (entry_text entry) c → ⊥) }
{}

/// Each relation that the contracts of journals name is refuted for one wrong answer, so none of them holds of everything. `kept` says that
/// no record is refused of a file that holds no more entries than it may.
pub fn wrong_answers_are_refused<D: Disk>()
    ensures exactly { ¬ (IsExactly [] (0 ∷ []) (λ c. ⊥)) }
    ensures nothing_else { ¬ (IsExactly [] [] (λ c. ⊤)) }
    ensures no_journal { ¬ (AreForeign [] []) }
    ensures broken { ¬ (TellsBreak put_fault.Broken 0 1) }
    ensures device { ¬ (TellsBreak put_fault.Device 0 0) }
    ensures stop { ¬ (TellsStop open_fault.Device 0 0) }
    ensures other_stop { ¬ (TellsStop open_fault.BadHeader 0 1) }
    ensures in_range { (site : SiteName) → ¬ (IsInRange (Undo site 0)) }
    ensures takes_memory { ¬ (TakesMemory []) }
    ensures text { (header : List ℕ) → ¬ (IsText header []) }
    ensures path { ¬ (BeginsWithPath []) }
    ensures listing { ¬ (BeginsWithListing []) }
    ensures all_stored { ¬ (AllStored (λ c. ⊤) (λ c. ⊤) []) }
    ensures more { ¬ (MayHoldMore (λ c. ⊤) (λ c. ⊤) []) }
    ensures no_gate { ¬ (ReadsRecord [] []) }
    ensures past_the_end { (file : List ℕ) → ¬ (ReadsWithin file (ReadAt 0 (length file + 1))) }
    ensures never_fails { (file : List ℕ) → ¬ (MayFailReading D.seen (λ disk call. ⊥) file) }
    ensures gap { (front file : List ℕ) (n : ℕ) → ¬ (PutsBehind front n file (WriteAt (length file + 1) n)) }
    ensures over_the_front { (front file : List ℕ) (n : ℕ) → ¬ (PutsBehind (0 ∷ front) n file (WriteAt 0 n)) }
    ensures never_fails_putting { (front : List ℕ) (n : ℕ) → ¬ (MayFailPutting D.seen (λ disk call. ⊥) front n) }
    ensures bad_record { (first second : List ℕ) → ¬ (ReadsBad (λ header before. IsText header) 0 first second) }
    ensures kept { (had : List Entry) (n : ℕ) (first second : List ℕ) → HoldsEntries had first second → length had ≤ 1000000
        → ¬ (ReadsBad (λ header before. IsText header) n first second) }
    ensures no_record { (rest : List ℕ) → ¬ (IsNoRecord (λ body. ⊤) (framed [] ++ 0 ∷ rest)) }
    ensures only_read { (old new : D) → D.seen new ≢ D.seen old → ¬ (IsOnlyRead D.seen D.may_leave D.moment D.left_since old new) }
{}
