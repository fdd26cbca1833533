//! Calls of a host, a history and a store, whose time is taken.
mod connections;
mod copies;
mod files;
mod hosts;
pub(crate) mod serving;
mod stores;
pub(crate) mod storing;
mod undos;

/// What can be measured of them, a line each.
pub(crate) const LIST: &str =
    "get FILES        nanoseconds of a GET of a file of 64 bytes in a site that serves so many, in connections of 100
cached BYTES     nanoseconds of a GET of a file of so many bytes, all of whose chunks are in the cache
uncached BYTES   the same where none of them is: of files of 64 MiB together, at most 100, each is read once
ranges EACH      nanoseconds of four ranges of 16 KiB of a file, where each request asks for so many of them
rename FILES     nanoseconds of a renaming in a site that serves so many files
put FILES        nanoseconds of an upload to an open deploy of so many files that stays open
deploy FILES     nanoseconds of a deploy of so many files of 64 bytes: its opening and all uploads
history CHANGES  nanoseconds of a change where so many rename one file
moves CHANGES    nanoseconds of a change where so many move one alias
copy ENTRIES     nanoseconds of a copy of a history of so many entries and cells, with one commit on it
undo LATER       nanoseconds of an undo of a change with so many live changes of its site after it
digest BYTES     nanoseconds of a pass of SHA-1 over so many bytes
upload BYTES     nanoseconds of an upload of so many bytes to a store in memory
equal BYTES      the same where all pieces of the file are the same
uploads FILES    nanoseconds of an upload of 16 MiB to a store in memory, to which so many files go
read BYTES       nanoseconds of a read of so many bytes from a store in memory, into one body";
