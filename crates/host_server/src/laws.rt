//! Laws of the host. Each function does nothing: its contract is the law.

mod reads;
mod refuted;
mod uploads;

pub use reads::{
    cached_files_are_sent, cached_reads_count_failures, caches_have_pieces_of_files_read,
};
pub use refuted::{
    wrong_answers_are_refused, wrong_calls_are_refused, wrong_changes_are_refused,
    wrong_runs_are_refused,
};
pub use uploads::uploads_are_read_back;
