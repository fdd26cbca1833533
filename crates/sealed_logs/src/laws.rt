//! Laws of sealed logs, each the contract of a function that does nothing.
ghost use Rattle.std.specs.Prelude.{◌≡◌, ◌≢◌, ◌<◌, ◌≤◌, ℕ, None, Some, true, is_some};
ghost use Rattle.std.specs.FinMap as map;
ghost use Rattle.byte_view.specs.Contents.{AreDigested, Contents};
ghost use Rattle.host_names.specs.declared.cells.Cell.TheVariants as cell;
ghost use Rattle.host_names.specs.declared.names.SiteName.{SiteName as Site};
ghost use Rattle.site_change.specs.Changes.{IsWithin};
ghost use Rattle.site_change.specs.declared.entries.Entry.{Entry as Line};
ghost use Rattle.site_change.specs.declared.entries.Entry.TheVariants as line;
ghost use Rattle.site_state.specs.States.{State as Cells};
ghost use Rattle.change_log.specs.Logs.{BeginsWith, Log, empty_log, last_number, with_entry};
ghost use Rattle.change_undo.specs.Clashes.{clash};
ghost use Rattle.change_undo.specs.Histories.{IsLegal, change_refusal};
ghost use Rattle.change_undo.specs.LiveChanges.{run};
ghost use Rattle.sealed_logs.specs.Later.{IsLater, IsLaterLog};
ghost use Rattle.sealed_logs.specs.Sealing.{seal_refusal, sealed};

/// A log that is sealed where nothing is against that is legal, with the same state and the same last number.
pub fn a_sealed_log_is_legal()
    ensures legal { (uploads : Contents) (log : Log) (n : ℕ) → AreDigested uploads
        → IsLegal uploads log → seal_refusal log n ≡ None
        → IsLegal uploads (sealed uploads n log) }
    ensures run { (uploads : Contents) (log : Log) (n : ℕ) → AreDigested uploads
        → IsLegal uploads log → seal_refusal log n ≡ None
        → run uploads (sealed uploads n log) ≡ run uploads log }
    ensures last { (uploads : Contents) (log : Log) (n : ℕ) → AreDigested uploads
        → IsLegal uploads log → seal_refusal log n ≡ None
        → last_number (sealed uploads n log) ≡ last_number log }
{}

/// The undo of a change above the seal is refused for the same reason as before it, with the same clash, or isn't.
pub fn a_seal_leaves_later_undos()
    ensures refusal { (uploads : Contents) (log : Log) (n : ℕ) (site : Site) (k : ℕ)
        → AreDigested uploads → IsLegal uploads log
        → seal_refusal log n ≡ None → n < k → change_refusal uploads (sealed uploads n log) site k
        ≡ change_refusal uploads log site k }
    ensures clash { (uploads : Contents) (log : Log) (n k : ℕ) → AreDigested uploads
        → IsLegal uploads log → seal_refusal log n ≡ None → n < k
        → clash uploads (sealed uploads n log) k ≡ clash uploads log k }
{}

/// A log that is sealed and then has an undo more is the log with that undo, sealed.
pub fn a_seal_and_an_undo_take_turns()
    ensures undo { (uploads : Contents) (log : Log) (n : ℕ) (site : Site) (k : ℕ)
        → seal_refusal log n ≡ None → n < k
        → (seal_refusal (with_entry log (line.Undo site k)) n ≡ None)
        × (sealed uploads n (with_entry log (line.Undo site k))
        ≡ with_entry (sealed uploads n log) (line.Undo site k)) }
    ensures split { (log : Log) (n : ℕ) (site : Site) (k : ℕ)
        → seal_refusal (with_entry log (line.Undo site k)) n ≡ None
        → n ≤ last_number log → n < k }
{}

/// Which logs are later over some uploads: an order, in which each entry and each seal leads on.
pub fn later_logs()
    ensures itself { (uploads : Contents) (log : Log) → IsLegal uploads log
        → IsLater uploads log log }
    ensures entry { (uploads : Contents) (log : Log) (entry : Line)
        → IsLegal uploads (with_entry log entry)
        → IsLater uploads log (with_entry log entry) }
    ensures seal { (uploads : Contents) (log : Log) (n : ℕ) → IsLegal uploads log
        → seal_refusal log n ≡ None
        → IsLater uploads log (sealed uploads n log) }
    ensures goes_on { (uploads : Contents) (a b c : Log) → AreDigested uploads → IsLater uploads a b
        → IsLater uploads b c → IsLater uploads a c }
    ensures grows { (uploads more : Contents) (a b : Log) → IsWithin uploads more
        → IsLater uploads a b → IsLater more a b }
    ensures legal { (uploads : Contents) (a b : Log) → AreDigested uploads → IsLater uploads a b
        → IsLegal uploads b }
    ensures was_legal { (uploads : Contents) (a b : Log) → IsLater uploads a b → IsLegal uploads a }
{}

/// The state of a later log is that of a legal history which begins with the earlier one: of all that had been seen.
pub fn a_later_log_has_the_state_of_a_longer_one()
    ensures { (uploads : Contents) (old new : Log) → AreDigested uploads → IsLater uploads old new
        → (history : Log) × BeginsWith history old × IsLegal uploads history × (run uploads new
        ≡ run uploads history) }
{}

/// The order of logs alone, for every two of them: in steps, each over some uploads.
pub fn later_logs_in_steps()
    ensures itself { (log : Log) → IsLaterLog log log }
    ensures goes_on { (a b c : Log) → IsLaterLog a b → IsLaterLog b c → IsLaterLog a c }
    ensures entry { (uploads : Contents) (log : Log) (entry : Line) → AreDigested uploads
        → IsLegal uploads (with_entry log entry)
        → IsLaterLog log (with_entry log entry) }
    ensures seal { (uploads : Contents) (log : Log) (n : ℕ) → AreDigested uploads
        → IsLegal uploads log → seal_refusal log n ≡ None
        → IsLaterLog log (sealed uploads n log) }
{}

/// In the state that a legal log gives, no deploy is open and kept at once.
pub fn no_deploy_is_open_and_kept()
    ensures { (uploads : Contents) (log : Log) (state : Cells) → AreDigested uploads
        → IsLegal uploads log → run uploads log ≡ Some state
        → (site : Site) (k : ℕ) → is_some (map.get state (cell.Draft site k)) ≡ true
        → ¬ (is_some (map.get state (cell.Kept site k)) ≡ true) }
{}

/// No log is later than one that has an entry more, or another entry.
pub fn wrong_pairs_are_refused()
    ensures back { (uploads : Contents) (entry : Line)
        → ¬ (IsLater uploads (with_entry empty_log entry) empty_log) }
    ensures replaced { (uploads : Contents) (entry other : Line) → entry ≢ other
        → ¬ (IsLater uploads (with_entry empty_log entry) (with_entry empty_log other)) }
{}
