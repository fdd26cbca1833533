//! Borrowed bytes.
ghost use Rattle.std.specs.Prelude.{◌≡◌, ◌↔◌, ◌<◌, ◌≤◌, IsTrue, length, slice_index, slice_range};

/// Borrowed bytes, which stay where they are.
#[derive(Clone, Copy)]
pub struct View<'a> {
    bytes: &'a [u8],
}

impl<'a> View<'a> {
    ghost use Rattle.byte_view.specs.Views.{bytes_of};

    /// A view of these bytes.
    pub(crate) fn new(bytes: &'a [u8]) -> View<'a>
        ensures { bytes_of result ≡ bytes.now }
    {
        View { bytes }
    }

    /// The number of bytes.
    pub fn len(&self) -> usize
        ensures { result ≡ length (bytes_of self.now) }
    {
        self.bytes.len()
    }

    /// The byte at `place`.
    pub fn at(&self, place: usize) -> u8
        requires { place < length (bytes_of self.now) }
        ensures { result ≡ slice_index (bytes_of self.now) place }
    {
        self.bytes[place]
    }

    /// The bytes from `from` up to `to`, without the one at `to`.
    pub fn slice(&self, from: usize, to: usize) -> View<'a>
        requires ordered { from ≤ to }
        requires within { to ≤ length (bytes_of self.now) }
        ensures { bytes_of result ≡ slice_range (bytes_of self.now) from to }
    {
        View {
            bytes: &self.bytes[from..to],
        }
    }

    /// Whether the bytes are those of `other`.
    pub fn equal(&self, other: &[u8]) -> bool
        ensures { IsTrue result ↔ (bytes_of self.now ≡ other.now) }
    {
        self.bytes == other
    }

    /// The bytes, for as long as they are borrowed.
    pub fn bytes(&self) -> &'a [u8]
        ensures { result.now ≡ bytes_of self.now }
    {
        self.bytes
    }
}
