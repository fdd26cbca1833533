//! The versions of the file that the texts of entries stand in, as far as the entries differ that it may have.

/// A version of the file.
#[derive(Clone, Copy, Debug, PartialEq, Eq)]
pub enum Version {
    /// The first one, which is older than the renaming of a folder.
    First,
    /// Each later one.
    Later,
}
