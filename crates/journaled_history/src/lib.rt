//! A history with a journal. The next entry is made on a copy of the history and put into the journal; only then does the copy take the
//! place of the history. Each owner of a history does so: the program's host, and the book of a desk.
#![tactic(auto)]

mod copies;
mod entry_faults;

pub use copies::{put_last, with_change, with_undo};
pub use entry_faults::EntryFault;
