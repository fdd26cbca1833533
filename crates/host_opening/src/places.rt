//! Entries by their numbers.
ghost use Rattle.std.specs.Prelude.{◌≡◌, ◌<◌, ◌≤◌, Some};
ghost use Rattle.change_log.specs.Logs.{entry_at, last_number};

use change_log::Log;
use site_change::Entry;

/// The entry with this number. There must be one.
pub(crate) fn entry_of(log: &Log, number: u64) -> &Entry
    requires some { log.now.base < number }
    requires within { number ≤ last_number log.now }
    ensures { entry_at log.now number ≡ Some result.now }
{
    log.entry(number).unwrap()
}
