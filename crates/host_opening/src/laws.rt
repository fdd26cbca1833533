//! Laws of openings, each the contract of a function that does nothing.
ghost use Rattle.std.specs.Prelude.{◌≡◌, ◌≤◌, ℕ, List, ◌∷◌};
ghost use Rattle.byte_view.specs.Contents.{Contents};
ghost use Rattle.host_names.specs.declared.digests.Digest.{Digest};
ghost use Rattle.host_names.specs.declared.names.SiteName.{SiteName};
ghost use Rattle.blob_store.specs.declared.openings.Wanted.{Wanted};
ghost use Rattle.change_undo.specs.Histories.{IsLegal, Past};
ghost use Rattle.change_log.specs.Logs.{Log, empty_log, last_number};
ghost use Rattle.change_undo.specs.Plans.{IsHistoryOver};
ghost use Rattle.host_opening.specs.Replays.{IsReplayed, StopsAt};
ghost use Rattle.host_opening.specs.WantedFiles.{AreWanted, IsPublished, Lists};
ghost use Rattle.host_opening.specs.declared.replays.ReplayFault.{ReplayFault};
ghost use Rattle.host_opening.specs.declared.replays.ReplayFault.TheVariants.{NotLegal};

/// If each entry is accepted in turn, and there are no more than the limit, no entry is reported as not legal.
pub fn a_legal_log_is_replayed()
    ensures { (uploads : Contents) (limit : ℕ) (log : Log) (n : ℕ) → IsLegal uploads log → last_number log ≤ limit → ¬ (StopsAt uploads limit log (NotLegal n)) }
{}

/// A replay of the entries of a history over the same uploads gives that history again: its entries, its limit and its state.
pub fn a_replayed_history_is_the_same()
    ensures { (uploads : Contents) (past opened : Past) → IsHistoryOver uploads past → IsReplayed uploads past.limit past.entries opened
        → (opened.entries ≡ past.entries) × (opened.limit ≡ past.limit) × (opened.state ≡ past.state) }
{}

/// Without entries no file is wanted, listed or published, and nothing stops the opening.
pub fn nothing_is_wanted_of_no_entries()
    ensures wanted { (one : Wanted) (more : List Wanted) → ¬ (AreWanted empty_log (one ∷ more)) }
    ensures listed { (site : SiteName) (n : ℕ) (digest : Digest) → ¬ (Lists empty_log site n digest) }
    ensures published { (site : SiteName) (n : ℕ) → ¬ (IsPublished empty_log site n) }
    ensures stopped { (uploads : Contents) (limit : ℕ) (stop : ReplayFault) → ¬ (StopsAt uploads limit empty_log stop) }
{}
