//! The names under which threads write files at first.
ghost use Rattle.std.specs.Prelude.{◌≡◌, ◌≤◌, [], IfOk, OnErr, false, get_or, length};
ghost use Rattle.std.specs.Path.{path_buf_bytes};
ghost use Rattle.blob_store.specs.TemporaryNames.{IsFreed, IsTaken, temporary_path};

use std::alloc::{AllocError, Global};
use std::path::{Path, PathBuf};

/// The numbers of temporary names. One writer has a number at a time, so there are as many as there were writers at once.
#[derive(Drop)]
pub(crate) struct TemporaryNames {
    // Whether somebody has the number of this place.
    taken: Vec<bool>,
}

impl TemporaryNames {
    /// Nobody has any.
    pub(crate) fn new(alloc: Global) -> TemporaryNames
        ensures { result.taken.items ≡ [] }
    {
        TemporaryNames {
            taken: Vec::new(alloc),
        }
    }

    /// Takes the least number that nobody has.
    pub(crate) fn take(&mut self) -> Result<usize, AllocError>
        ensures ok { IfOk result (λ number. IsTaken self.old.taken.items number self.new.taken.items) }
        ensures err { OnErr result (self.new.taken.items ≡ self.old.taken.items) }
    {
        let count = self.taken.len();
        let number = first_free(self.taken.as_slice());
        if number < count {
            self.taken[number] = true;
        } else {
            self.taken.push(true)?;
        }
        Ok(number)
    }

    /// Takes a number back.
    pub(crate) fn give_back(&mut self, number: usize)
        ensures { IsFreed self.old.taken.items number self.new.taken.items }
    {
        if number < self.taken.len() {
            self.taken[number] = false;
        }
    }
}

/// The first place that nobody has; the end if somebody has each.
fn first_free(taken: &[bool]) -> usize
    ensures free { get_or taken.now result false ≡ false }
    ensures within { result ≤ length taken.now }
{
    for (number, taken) in taken.iter().enumerate() {
        if !taken {
            return number;
        }
    }
    taken.len()
}

/// The path of the temporary name of a number in a folder: `blob-0.tmp`, and so on.
pub(crate) fn temporary_in(
    alloc: Global,
    folder: &str,
    number: usize,
) -> Result<PathBuf, AllocError>
    ensures { IfOk result (λ path. path_buf_bytes path ≡ temporary_path folder.now number) }
{
    let name = format!(in alloc; "blob-{number}.tmp")?;
    Path::new(folder).join(alloc, name.as_str())
}
