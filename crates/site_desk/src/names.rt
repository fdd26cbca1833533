//! Which desk a value belongs to.

use change_log::Log;
use seen_lists::ListName;
use std::marker::Brand;
use std::sync::ledger::Ledger;

/// Which desk it is: the list of its logs, and the ledger of its seats. A caller picks it, once for each desk, and values of one desk have it in their
/// types. What the list was at first is the log that was there when the desk was opened.
pub trait DeskName: Ledger + ListName<Log> {}

impl DeskName for Brand {}
