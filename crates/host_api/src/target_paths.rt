//! The paths of files that targets write (RFC 3986, section 3.3). They are decoded and judged without the heap, so that
//! memory is taken for a path alone.
ghost use Rattle.std.specs.Prelude.{◌≡◌, ◌<◌, ◌++◌, IsTrue, MatchOption, codes, drop, length, nat_eq};
ghost use Rattle.std.specs.List.{ends_with};
ghost use Rattle.percent_encoding.specs.Percent as percent;
ghost use Rattle.host_names.specs.Path.{with_slash};
ghost use Rattle.host_api.specs.Targets as spec;
ghost use Rattle.host_api.specs.Patterns.{is_rest, has_percent, KeepsPath};

use arrayvec::{ArrayString, ArrayVec};
use host_names::{FilePath, PathError};
use percent_encoding::percent_decode;
use std::alloc::Global;
use std::str;

// The greatest length of a path with its leading slash, in bytes.
const LONGEST: usize = 1024;

// Whether the text may have an escape.
fn may_escape(text: &str) -> bool
    ensures { result ≡ has_percent text.now }
{
    text.as_bytes().contains(&b'%')
}

// The bytes of a text, its escapes decoded (RFC 3986, section 2.1); none if they are more than a path has.
fn decode(text: &str) -> Option<ArrayVec<u8, LONGEST>>
    ensures { MatchOption result (LONGEST < length (percent.percent_decode text.now)) (λ bytes. bytes.items ≡ percent.percent_decode text.now) }
{
    let mut bytes = ArrayVec::new();
    for byte in percent_decode(text.as_bytes()) {
        if bytes.try_push(byte).is_err() {
            return None;
        }
    }
    Some(bytes)
}

// Whether the text ends in a slash.
fn ends_with_slash(text: &str) -> bool
    ensures { result ≡ ends_with nat_eq text.now (codes "/") }
{
    text.ends_with('/')
}

// The name of a folder's page; none if it is longer than a path.
fn index_of(folder: &str) -> Option<ArrayString<LONGEST>>
    ensures { MatchOption result (LONGEST < length (folder.now ++ codes "index.html")) (λ page. page.bytes ≡ folder.now ++ codes "index.html") }
{
    let mut page = ArrayString::from(folder).ok()?;
    page.try_push_str("index.html").ok()?;
    Some(page)
}

// The path that a text is, with a slash put before it where it has none.
fn kept(alloc: Global, text: &str) -> Result<FilePath, PathError>
    ensures { KeepsPath (spec.if_path (with_slash text.now)) result }
{
    FilePath::read(alloc, text)
}

// The path of the page that a text names.
fn page(alloc: Global, text: &str) -> Result<FilePath, PathError>
    requires { IsTrue (is_rest text.now) }
    ensures { KeepsPath (spec.if_path (spec.with_index text.now)) result }
{
    if !ends_with_slash(text) {
        return kept(alloc, text);
    }
    match index_of(text) {
        Some(page) => kept(alloc, page.as_str()),
        None => Err(PathError::BadPath),
    }
}

// The path of the page that a text names, its escapes decoded.
fn decoded_page(alloc: Global, rest: &str) -> Result<FilePath, PathError>
    requires { IsTrue (is_rest rest.now) }
    ensures { KeepsPath (spec.read_path rest.now) result }
{
    let Some(bytes) = decode(rest) else {
        return Err(PathError::BadPath);
    };
    match str::from_utf8(bytes.as_slice()) {
        Ok(text) => page(alloc, text),
        Err(_) => Err(PathError::BadPath),
    }
}

/// The path of a file that is read: the rest of its target, its escapes decoded once.
pub fn read_path(alloc: Global, rest: &str) -> Result<FilePath, PathError>
    requires { IsTrue (is_rest rest.now) }
    ensures { KeepsPath (spec.read_path rest.now) result }
{
    if may_escape(rest) {
        return decoded_page(alloc, rest);
    }
    page(alloc, rest)
}

// What follows the slash of a rest.
fn after_slash(rest: &str) -> &str
    requires { IsTrue (is_rest rest.now) }
    ensures { result.now ≡ drop 1 rest.now }
{
    rest.strip_prefix('/').unwrap_or(rest)
}

// The path that a text is, its escapes decoded.
fn decoded(alloc: Global, text: &str) -> Result<FilePath, PathError>
    ensures { KeepsPath (spec.if_path (with_slash (percent.percent_decode text.now))) result }
{
    let Some(bytes) = decode(text) else {
        return Err(PathError::BadPath);
    };
    match str::from_utf8(bytes.as_slice()) {
        Ok(text) => kept(alloc, text),
        Err(_) => Err(PathError::BadPath),
    }
}

/// The path of a file that is written: what follows the slash of the rest of its target, its escapes decoded once.
pub fn written_path(alloc: Global, rest: &str) -> Result<FilePath, PathError>
    requires { IsTrue (is_rest rest.now) }
    ensures { KeepsPath (spec.written_path rest.now) result }
{
    let text = after_slash(rest);
    if may_escape(text) {
        return decoded(alloc, text);
    }
    kept(alloc, text)
}
