//! Which list a value belongs to.
use change_log::Log;
use std::marker::Brand;

/// Which list it is. A caller picks it, once for each list, and values of one list have it in their types.
pub trait ListName<E> {
    ghost use Rattle.logbook.specs.Pages.{Book};

    ghost book: { Book };

    /// What the list was at first.
    ghost found: { E };
}

/// For a list of logs. Whoever makes lists of another type says so of it: a caller picks a list only where the impl is for one type.
impl ListName<Log> for Brand {
    ghost use Rattle.change_log.specs.Logs.{empty_log};

    ghost book = { record { number = 0; log_name = 0; cells_name = 0 } };

    ghost found = { empty_log };
}
