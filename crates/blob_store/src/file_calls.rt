//! Calls on the files of a folder.
ghost use Rattle.std.specs.Prelude.{◌≡◌, ◌∷◌, MatchResult};
ghost use Rattle.blob_store.specs.FileCalls as call;

use std::io;

/// What is at a path.
#[derive(Clone, Copy, Debug, PartialEq, Eq)]
pub(crate) enum Looked {
    Nothing,
    /// Something that is not read: no file, or a file that is too long.
    Other,
    /// A file with this many bytes.
    File(usize),
}

/// Calls on the files of a folder. Whoever makes them says what was called and how it ended, in order: for clauses alone, since no code asks.
pub(crate) trait FileCalls {
    ghost use Rattle.std.specs.Prelude.{List};
    ghost use Rattle.blob_store.specs.FileCalls.{FileCall};

    // The calls so far, the last one first.
    ghost calls: { Self → List FileCall };

    /// Makes a file where nothing is, for its owner alone. The calls that write and sync are on this file then.
    fn make(&mut self, path: &str) -> io::Result<()>
        ensures { MatchResult result (λ _. calls self.new ≡ call.Made path.now ∷ calls self.old)
            (λ _. calls self.new ≡ call.Fails (call.Made path.now) ∷ calls self.old) };

    /// Writes all of these bytes.
    fn write_all(&mut self, bytes: &[u8]) -> io::Result<()>
        ensures { MatchResult result (λ _. calls self.new ≡ call.Wrote bytes.now ∷ calls self.old)
            (λ _. calls self.new ≡ call.Fails (call.Wrote bytes.now) ∷ calls self.old) };

    /// Syncs the file that was made last, its bytes and their number.
    fn sync(&mut self) -> io::Result<()>
        ensures { MatchResult result (λ _. calls self.new ≡ call.Synced ∷ calls self.old)
            (λ _. calls self.new ≡ call.Fails call.Synced ∷ calls self.old) };

    /// Gives a file another name, under which it replaces what was there.
    fn rename(&mut self, from: &str, to: &str) -> io::Result<()>
        ensures { MatchResult result (λ _. calls self.new ≡ call.Renamed from.now to.now ∷ calls self.old)
            (λ _. calls self.new ≡ call.Fails (call.Renamed from.now to.now) ∷ calls self.old) };

    /// Removes a file, or a link, but not what that leads to.
    fn remove(&mut self, path: &str) -> io::Result<()>
        ensures { MatchResult result (λ _. calls self.new ≡ call.Removed path.now ∷ calls self.old)
            (λ _. calls self.new ≡ call.Fails (call.Removed path.now) ∷ calls self.old) };

    /// Syncs a folder, so that the names in it last.
    fn sync_folder(&mut self, path: &str) -> io::Result<()>
        ensures { MatchResult result (λ _. calls self.new ≡ call.FolderSynced path.now ∷ calls self.old)
            (λ _. calls self.new ≡ call.Fails (call.FolderSynced path.now) ∷ calls self.old) };

    /// Looks what is at a path. A file of more than `most` bytes is not read.
    fn look(&mut self, path: &str, most: usize) -> io::Result<Looked>
        ensures { MatchResult result (λ what. calls self.new ≡ call.Found path.now what ∷ calls self.old)
            (λ _. calls self.new ≡ call.FindFails path.now ∷ calls self.old) };

    /// Reads as many bytes of the file at a path as there is room for.
    fn read(&mut self, path: &str, bytes: &mut [u8]) -> io::Result<()>
        ensures { MatchResult result (λ _. calls self.new ≡ call.Read path.now bytes.new ∷ calls self.old)
            (λ _. calls self.new ≡ call.ReadFails path.now ∷ calls self.old) };
}
