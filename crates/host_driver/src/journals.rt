//! Journals in files: they are opened, entries are put, and both are measured.
mod entries;
mod files;
pub(crate) mod measurements;

/// What can be done with them, a line each.
pub(crate) const LIST: &str =
    "journal put PATH ENTRIES     nanoseconds of a put, where the same small entry is put so often into the journal at a path
journal write PATH ENTRIES   puts so many entries of all kinds into it, and prints how many it has when it is opened again
journal open PATH TIMES      nanoseconds of an opening of it, and how many entries it has; or why it isn't opened
journal decode PATHS BYTES   megabytes a second at which the text of a deploy is read that lists so many paths of so many bytes";
