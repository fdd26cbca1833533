//! Paths of files within a site.
ghost use Rattle.std.specs.Prelude.{◌≡◌, ◌↔◌, ◌∷◌, ◌++◌, [], ◌≤◌, ◌+◌, length, false, Some, Err, IsTrue, IfOk, IsErrOf, nat_eq, refl};
ghost use Rattle.std.specs.List.{list_all};
ghost use Rattle.std.specs.Ordering.{nat_cmp, is_lt};
ghost use Rattle.std.specs.Cmp.{partial_equiv_from_equiv};
ghost use Rattle.std.specs.Cmp.Lexicographic.{pointwise, slice_cmp, nat_list_eq_equiv, nat_list_cmp_total, texts_po, texts_ties};
ghost use Rattle.std.specs.String.{string_bytes};
ghost use Rattle.host_names.specs.Folders as folders;
ghost use Rattle.host_names.specs.Folders.{begins_with};
ghost use Rattle.host_names.specs.Path.{is_path, is_relative_path, segments, with_slash};

use std::alloc::{AllocError, Global};
use std::cmp::Ordering;
use std::fmt;
use std::marker::Model;
use std::sync::Arc;
use thiserror::Error;

/// The greatest length of a path without its leading slash, in bytes.
const LONGEST: usize = 1023;

/// Why a path was not read.
#[derive(Clone, Copy, Debug, PartialEq, Eq, Error)]
pub enum PathError {
    /// The text is no path.
    #[error("a path has 2 to 1,024 bytes, no empty segment, no segment . or .., and none of # ? \\ and NUL")]
    BadPath,
    /// There was no memory for it.
    #[error("out of memory")]
    OutOfMemory,
}

/// The path of a file within its site: a text of 2 to 1,024 bytes that begins with a slash, without empty
/// segments, segments `.` and `..`, and the characters `#`, `?`, `\` and NUL. Contracts see its bytes.
/// Copies share the text.
#[derive(Drop)]
pub struct FilePath {
    text: Arc<String>,
}

impl Model for FilePath {
    ghost use Rattle.std.specs.Prelude.{List, ℕ, IsTrue, string_bytes};
    ghost use Rattle.host_names.specs.Path.{is_path};

    ghost Value = { List ℕ };

    ghost view = { λ p. string_bytes p.text.value };

    ghost invariant = { λ p. IsTrue (is_path (string_bytes p.text.value)) };
}

fn is_path_byte(byte: u8) -> bool
    ensures { result ≡ Rattle.host_names.specs.Path.is_path_byte byte }
{
    !matches!(byte, 0 | b'#' | b'?' | b'\\')
}

fn has_path_bytes(text: &[u8]) -> bool
    ensures { result ≡ list_all Rattle.host_names.specs.Path.is_path_byte text.now }
{
    text.iter().all(|byte| is_path_byte(*byte))
}

fn is_segment(text: &str) -> bool
    ensures { result ≡ Rattle.host_names.specs.Path.is_segment text.now }
{
    !text.is_empty() && text != "." && text != ".."
}

fn has_segments(text: &str) -> bool
    ensures { result ≡ list_all Rattle.host_names.specs.Path.is_segment (segments text.now) }
{
    text.split('/').all(|segment| is_segment(segment))
}

/// Whether a text may follow a path's leading slash.
fn is_relative(text: &str) -> bool
    ensures { result ≡ is_relative_path text.now }
{
    1 <= text.len()
        && text.len() <= LONGEST
        && has_path_bytes(text.as_bytes())
        && has_segments(text)
}

/// A text without its leading slash, if it has one.
fn without_slash(text: &str) -> &str
    ensures { 47 ∷ result.now ≡ with_slash text.now }
{
    match text.strip_prefix('/') {
        Some(rest) => rest,
        None => text,
    }
}

/// A text after a slash.
fn slashed(alloc: Global, text: &str) -> Result<String, AllocError>
    requires { length text.now ≤ LONGEST }
    ensures { IfOk result (λ path. string_bytes path ≡ 47 ∷ text.now) }
{
    let mut path = String::with_capacity(alloc, 1 + text.len())?;
    path.push('/')?;
    path.push_str(text)?;
    Ok(path)
}

/// A text after another.
fn joined(alloc: Global, front: &str, rest: &str) -> Result<String, AllocError>
    requires { length front.now + length rest.now ≤ 1024 }
    ensures { IfOk result (λ text. string_bytes text ≡ front.now ++ rest.now) }
{
    let mut text = String::with_capacity(alloc, front.len() + rest.len())?;
    text.push_str(front)?;
    text.push_str(rest)?;
    Ok(text)
}

/// Whether a text begins with a slash.
fn begins_with_slash(text: &[u8]) -> bool
    ensures { result ≡ begins_with text.now (47 ∷ []) }
{
    matches!(text, [b'/', ..])
}

/// Whether a text comes before a slash.
fn comes_before_slash(text: &[u8]) -> bool
    ensures { result ≡ is_lt (slice_cmp nat_cmp text.now (47 ∷ [])) }
{
    match text.first() {
        Some(byte) => *byte < b'/',
        None => true,
    }
}

impl FilePath {
    /// The path that a text is, with a slash put before it where it has none.
    pub fn read(alloc: Global, text: &str) -> Result<FilePath, PathError>
        ensures bad { IsErrOf result PathError.BadPath ↔ (is_path (with_slash text.now) ≡ false) }
        ensures kept { IfOk result (λ path. path ≡ with_slash text.now) }
        ensures lawful { IfOk result (λ path. IsTrue (is_path path)) }
    {
        let text = without_slash(text);
        if !is_relative(text) {
            return Err(PathError::BadPath);
        }
        let text = slashed(alloc, text).map_err(|_| PathError::OutOfMemory)?;
        let text = Arc::new(alloc, text).map_err(|_| PathError::OutOfMemory)?;
        Ok(FilePath { text })
    }

    /// Its text, with the leading slash.
    pub fn as_str(&self) -> &str
        ensures value { result.now ≡ self.now }
        ensures lawful { IsTrue (is_path self.now) }
    {
        self.text.as_str()
    }

    /// Whether it is below a folder: it begins with the folder's path and a slash.
    pub fn is_below(&self, folder: &FilePath) -> bool
        ensures { result ≡ folders.is_below folder.now self.now }
    {
        match self.as_str().strip_prefix(folder.as_str()) {
            Some(rest) => begins_with_slash(rest.as_bytes()),
            None => false,
        }
    }

    /// Whether it comes before each path below a folder, in the order of paths.
    pub fn is_before_folder(&self, folder: &FilePath) -> bool
        ensures { result ≡ is_lt (slice_cmp nat_cmp self.now (folders.slash_after folder.now)) }
    {
        match self.as_str().strip_prefix(folder.as_str()) {
            Some(rest) => comes_before_slash(rest.as_bytes()),
            None => self.cmp(folder).is_lt(),
        }
    }

    /// How many bytes its path has once the one folder, which it is below, has become the other.
    pub fn moved_len(&self, source: &FilePath, target: &FilePath) -> usize
        ensures { result ≡ length (folders.moved source.now target.now self.now) }
    {
        let rest = self.as_str().len().saturating_sub(source.as_str().len());
        target.as_str().len() + rest
    }

    /// Its path once the one folder, which it is below, has become the other.
    pub fn moved(
        &self,
        alloc: Global,
        source: &FilePath,
        target: &FilePath,
    ) -> Result<FilePath, AllocError>
        requires below { IsTrue (folders.is_below source.now self.now) }
        requires short { length (folders.moved source.now target.now self.now) ≤ 1024 }
        ensures { IfOk result (λ path. path ≡ folders.moved source.now target.now self.now) }
    {
        let Some(rest) = self.as_str().strip_prefix(source.as_str()) else {
            unreachable!()
        };
        let text = joined(alloc, target.as_str(), rest)?;
        let text = Arc::new(alloc, text)?;
        Ok(FilePath { text })
    }
}

impl Clone for FilePath {
    ghost is_clone = { λ path copy. copy ≡ path };

    fn clone(&self) -> Result<FilePath, AllocError> {
        let text = Arc::try_clone(&self.text)?;
        Ok(FilePath { text })
    }
}

impl PartialEq for FilePath {
    ghost eq = { pointwise nat_eq };

    ghost laws = { partial_equiv_from_equiv nat_list_eq_equiv };

    fn eq(&self, other: &FilePath) -> bool {
        self.as_str() == other.as_str()
    }
}

impl Eq for FilePath {
    ghost laws = { nat_list_eq_equiv };
}

impl PartialOrd for FilePath {
    ghost partial_cmp = { λ x y. Some (slice_cmp nat_cmp x y) };

    ghost laws = { texts_po };

    fn partial_cmp(&self, other: &FilePath) -> Option<Ordering> {
        Some(self.cmp(other))
    }
}

impl Ord for FilePath {
    ghost cmp = { slice_cmp nat_cmp };

    ghost total = { nat_list_cmp_total };

    ghost matches_partial_cmp = { λ x y. refl };

    ghost matches_eq = { texts_ties };

    fn cmp(&self, other: &FilePath) -> Ordering {
        self.as_str().cmp(other.as_str())
    }
}

impl fmt::Display for FilePath {
    ghost output = { λ path. Some path };

    fn fmt<W: fmt::Write>(&self, f: &mut fmt::Formatter<W>) -> fmt::Result {
        f.pad(self.as_str())
    }
}

impl fmt::Debug for FilePath {
    fn fmt<W: fmt::Write>(&self, f: &mut fmt::Formatter<W>) -> fmt::Result {
        fmt::Debug::fmt(&self.as_str(), f)
    }
}
