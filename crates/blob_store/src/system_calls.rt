//! The calls of the system on the files of a folder.
ghost use Rattle.std.specs.Prelude.{◌≡◌, []};
ghost use Rattle.blob_store.specs.FileCalls.{calls_in, logged_calls};

use crate::file_calls::{FileCalls, Looked};
use crate::tags::tag_of;
use boxcar::tag::Tag;
use std::fs::{self, File, OpenFile, OpenOptions};
use std::io::{self, Read, Write};
use std::os::unix::fs::OpenOptionsExt;
use std::rt::Files;
use std::snapshot::Snapshot;

/// The permissions of each file: its owner alone reads and writes it.
const OWNER_ALONE: u32 = 0o600;

/// Calls, each with what it was given and how it ended. Snapshots and tags have no bytes, so nothing is kept at run time.
#[derive(Drop)]
enum Logged {
    Empty,
    Made(Snapshot<Logged>, Tag, Snapshot<bool>),
    Wrote(Snapshot<Logged>, Tag, Snapshot<bool>),
    Synced(Snapshot<Logged>, Snapshot<bool>),
    Renamed(Snapshot<Logged>, Tag, Tag, Snapshot<bool>),
    Removed(Snapshot<Logged>, Tag, Snapshot<bool>),
    FolderSynced(Snapshot<Logged>, Tag, Snapshot<bool>),
    Found(Snapshot<Logged>, Tag, Snapshot<Looked>),
    FindFailed(Snapshot<Logged>, Tag),
    Read(Snapshot<Logged>, Tag, Tag),
    ReadFailed(Snapshot<Logged>, Tag),
}

/// The calls of the system that were made, for clauses alone. Only these calls make one.
#[derive(Drop)]
pub struct FileLog {
    logged: Snapshot<Logged>,
}

/// The calls of the system.
#[derive(Drop)]
pub(crate) struct SystemCalls<'a, R: Files> {
    rt: &'a R,
    // The file that was made last.
    made: Option<R::File>,
    logged: Logged,
}

impl<'a, R: Files> SystemCalls<'a, R> {
    /// No call was made.
    pub(crate) fn new(rt: &'a R) -> SystemCalls<'a, R>
        ensures { logged_calls result.logged ≡ [] }
    {
        SystemCalls {
            rt,
            made: None,
            logged: Logged::Empty,
        }
    }

    /// The calls that were made.
    pub(crate) fn log(&self) -> FileLog
        ensures { calls_in result ≡ logged_calls self.now.logged }
    {
        FileLog {
            logged: Snapshot::of(&self.logged),
        }
    }
}

/// Makes a file where nothing is.
fn make_in<R: Files>(rt: &R, path: &str) -> io::Result<R::File> {
    let mut options = OpenOptions::new();
    options.write(true).create_new(true);
    options.mode(OWNER_ALONE);
    options.open(rt, path)
}

/// Looks what is at a path.
fn look_in<R: Files>(rt: &R, path: &str, most: usize) -> io::Result<Looked> {
    match fs::metadata(rt, path) {
        Ok(found) if found.is_file() && found.len() <= most as u64 => {
            Ok(Looked::File(found.len() as usize))
        }
        Ok(_) => Ok(Looked::Other),
        Err(error) if error.kind() == io::ErrorKind::NotFound => Ok(Looked::Nothing),
        Err(error) => Err(error),
    }
}

impl<R: Files> FileCalls for SystemCalls<'_, R> {
    ghost use Rattle.blob_store.specs.FileCalls.{logged_calls};

    ghost calls = { λ system. logged_calls system.logged };

    fn make(&mut self, path: &str) -> io::Result<()> {
        let made = make_in(self.rt, path);
        let done = made.is_ok();
        self.logged = Logged::Made(
            Snapshot::of(&self.logged),
            tag_of(path.as_bytes()),
            Snapshot::of(&done),
        );
        self.made = Some(made?);
        Ok(())
    }

    fn write_all(&mut self, bytes: &[u8]) -> io::Result<()> {
        let written = match &mut self.made {
            Some(file) => file.write_all(bytes),
            None => Err(io::Error::from(io::ErrorKind::Other)),
        };
        let (tag, done) = (tag_of(bytes), written.is_ok());
        self.logged = Logged::Wrote(Snapshot::of(&self.logged), tag, Snapshot::of(&done));
        written
    }

    fn sync(&mut self) -> io::Result<()> {
        let synced = match &self.made {
            Some(file) => file.sync_all(),
            None => Err(io::Error::from(io::ErrorKind::Other)),
        };
        let done = synced.is_ok();
        self.logged = Logged::Synced(Snapshot::of(&self.logged), Snapshot::of(&done));
        synced
    }

    fn rename(&mut self, from: &str, to: &str) -> io::Result<()> {
        let renamed = fs::rename(self.rt, from, to);
        let (before, done) = (Snapshot::of(&self.logged), renamed.is_ok());
        self.logged = Logged::Renamed(
            before,
            tag_of(from.as_bytes()),
            tag_of(to.as_bytes()),
            Snapshot::of(&done),
        );
        renamed
    }

    fn remove(&mut self, path: &str) -> io::Result<()> {
        let removed = fs::remove_file(self.rt, path);
        let (before, done) = (Snapshot::of(&self.logged), removed.is_ok());
        self.logged = Logged::Removed(before, tag_of(path.as_bytes()), Snapshot::of(&done));
        removed
    }

    fn sync_folder(&mut self, path: &str) -> io::Result<()> {
        let synced = File::open(self.rt, path).and_then(|folder| folder.sync_all());
        let (before, done) = (Snapshot::of(&self.logged), synced.is_ok());
        self.logged = Logged::FolderSynced(before, tag_of(path.as_bytes()), Snapshot::of(&done));
        synced
    }

    fn look(&mut self, path: &str, most: usize) -> io::Result<Looked> {
        let looked = look_in(self.rt, path, most);
        let before = Snapshot::of(&self.logged);
        self.logged = match &looked {
            Ok(what) => Logged::Found(before, tag_of(path.as_bytes()), Snapshot::of(what)),
            Err(_) => Logged::FindFailed(before, tag_of(path.as_bytes())),
        };
        looked
    }

    fn read(&mut self, path: &str, bytes: &mut [u8]) -> io::Result<()> {
        let read = File::open(self.rt, path).and_then(|file| {
            let mut file = file;
            file.read_exact(&mut *bytes)
        });
        let before = Snapshot::of(&self.logged);
        self.logged = match &read {
            Ok(()) => {
                let tag = tag_of(&*bytes);
                Logged::Read(before, tag_of(path.as_bytes()), tag)
            }
            Err(_) => Logged::ReadFailed(before, tag_of(path.as_bytes())),
        };
        read
    }
}
