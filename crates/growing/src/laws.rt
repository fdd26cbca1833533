//! Laws of the order of logs, each the contract of a function that does nothing.
ghost use Rattle.std.specs.Prelude.{◌≡◌, ◌≤◌, ℕ, Some};
ghost use Rattle.site_change.specs.declared.entries.Entry.{Entry};
ghost use Rattle.change_log.specs.Logs.{BeginsWith, Log, entry_at, last_number};

/// A later log has the base of the other one, and each entry of it under its number, so it ends no earlier. Two logs of which each is as late
/// as the other are the same.
pub fn a_later_log_keeps_its_base_and_its_entries()
    ensures base { (old new : Log) → BeginsWith new old
        → (new.base ≡ old.base) × (new.names ≡ old.names) }
    ensures entry { (old new : Log) (k : ℕ) (entry : Entry) → BeginsWith new old
        → entry_at old k ≡ Some entry → entry_at new k ≡ Some entry }
    ensures last { (old new : Log) → BeginsWith new old → last_number old ≤ last_number new }
    ensures same { (old new : Log) → BeginsWith new old → BeginsWith old new → old ≡ new }
{}
