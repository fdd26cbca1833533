//! The parts of an entry's text, each read from the front of some bytes.
ghost use Rattle.std.specs.Prelude.{◌≡◌, IsErrOf, IsSome};
ghost use Rattle.std.specs.Int.{w16, w32, w64};
ghost use Rattle.entry_texts.specs.Reading;
ghost use Rattle.entry_texts.specs.Reading.{Finds, Gives, big_number_at, digest_at};

use crate::decode_faults::DecodeFault;
use host_names::{AliasName, Digest, FilePath, Name, PathError, SiteName};
use std::alloc::Global;
use std::str;

/// The greatest number of a change or of a deploy.
const GREATEST_NUMBER: u64 = 1_000_000;

/// The most paths of one entry.
const MOST_PATHS: u32 = 10_000;

/// The first `len` bytes, and those after them.
fn field_at(bytes: &[u8], len: usize) -> Option<(&[u8], &[u8])>
    ensures { Finds (λ x. (x.0.now, x.1.now)) result (Reading.field_at len bytes.now) }
{
    if bytes.len() < len {
        return None;
    }
    Some(bytes.split_at(len))
}

fn u16_at(bytes: &[u8]) -> Option<(u16, &[u8])>
    ensures { Finds (λ x. (x.0, x.1.now)) result (big_number_at w16 bytes.now) }
{
    if bytes.len() < 2 {
        return None;
    }
    let (front, rest) = bytes.split_at(2);
    Some((u16::from_be_bytes([front[0], front[1]]), rest))
}

fn u32_at(bytes: &[u8]) -> Option<(u32, &[u8])>
    ensures { Finds (λ x. (x.0, x.1.now)) result (big_number_at w32 bytes.now) }
{
    if bytes.len() < 4 {
        return None;
    }
    let (front, rest) = bytes.split_at(4);
    let number = u32::from_be_bytes([front[0], front[1], front[2], front[3]]);
    Some((number, rest))
}

fn u64_at(bytes: &[u8]) -> Option<(u64, &[u8])>
    ensures { Finds (λ x. (x.0, x.1.now)) result (big_number_at w64 bytes.now) }
{
    if bytes.len() < 8 {
        return None;
    }
    let (front, rest) = bytes.split_at(8);
    let number = u64::from_be_bytes([
        front[0], front[1], front[2], front[3], front[4], front[5], front[6], front[7],
    ]);
    Some((number, rest))
}

/// The name that a text spells.
fn name_of(text: &[u8]) -> Option<Name>
    ensures { Finds (λ name. name) result (Reading.name_of text.now) }
{
    match str::from_utf8(text) {
        Ok(text) => Name::new(text).ok(),
        Err(_) => None,
    }
}

#[tactic(auto, unfolding(crate::specs::Reading::name_at))]
fn name_at(bytes: &[u8]) -> Option<(Name, &[u8])>
    ensures { Finds (λ x. (x.0, x.1.now)) result (Reading.name_at bytes.now) }
{
    match bytes {
        [] => None,
        [len, rest @ ..] => {
            let (text, rest) = field_at(rest, *len as usize)?;
            Some((name_of(text)?, rest))
        }
    }
}

/// A site.
#[tactic(auto, unfolding(crate::specs::Reading::site_at))]
pub(crate) fn site_at(bytes: &[u8]) -> Option<(SiteName, &[u8])>
    ensures { Finds (λ x. (x.0, x.1.now)) result (Reading.site_at bytes.now) }
{
    let (name, rest) = name_at(bytes)?;
    Some((SiteName(name), rest))
}

/// An alias.
#[tactic(auto, unfolding(crate::specs::Reading::alias_at))]
pub(crate) fn alias_at(bytes: &[u8]) -> Option<(AliasName, &[u8])>
    ensures { Finds (λ x. (x.0, x.1.now)) result (Reading.alias_at bytes.now) }
{
    let (name, rest) = name_at(bytes)?;
    Some((AliasName(name), rest))
}

/// A text with its length before it.
#[tactic(auto, unfolding(crate::specs::Reading::text_at))]
fn text_at(bytes: &[u8]) -> Option<(&str, &[u8])>
    ensures { Finds (λ x. (x.0.now, x.1.now)) result (Reading.text_at bytes.now) }
{
    let (len, rest) = u16_at(bytes)?;
    let (text, rest) = field_at(rest, len as usize)?;
    match str::from_utf8(text) {
        Ok(text) => Some((text, rest)),
        Err(_) => None,
    }
}

/// The path that a text spells, with its leading slash and in UTF-8. Any other bytes spell no path here, so that an entry has one text.
fn path_of(alloc: Global, text: &str) -> Result<FilePath, DecodeFault>
    ensures value { Gives (λ path. path) result (Reading.path_of text.now) }
    ensures memory { IsErrOf result DecodeFault.OutOfMemory → IsSome (Reading.path_of text.now) }
{
    if !matches!(text.as_bytes(), [b'/', ..]) {
        return Err(DecodeFault::BadEntry);
    }
    match FilePath::read(alloc, text) {
        Ok(path) => Ok(path),
        Err(PathError::BadPath) => Err(DecodeFault::BadEntry),
        Err(PathError::OutOfMemory) => Err(DecodeFault::OutOfMemory),
    }
}

/// A path.
#[tactic(auto, unfolding(crate::specs::Reading::path_at))]
pub(crate) fn path_at(alloc: Global, bytes: &[u8]) -> Result<(FilePath, &[u8]), DecodeFault>
    ensures value { Gives (λ x. (x.0, x.1.now)) result (Reading.path_at bytes.now) }
    ensures memory { IsErrOf result DecodeFault.OutOfMemory → IsSome (Reading.path_at bytes.now) }
{
    let Some((text, rest)) = text_at(bytes) else {
        return Err(DecodeFault::BadEntry);
    };
    Ok((path_of(alloc, text)?, rest))
}

/// What is listed at a path.
#[tactic(auto, unfolding(crate::specs::Reading::digest_at))]
pub(crate) fn digest_at(bytes: &[u8]) -> Option<(Option<Digest>, &[u8])>
    ensures { Finds (λ x. (x.0, x.1.now)) result (Reading.digest_at bytes.now) }
{
    match bytes {
        [0, rest @ ..] => Some((None, rest)),
        [1, rest @ ..] => {
            let (digest, rest) = rest.split_first_chunk::<20>()?;
            Some((Some(Digest(*digest)), rest))
        }
        _ => None,
    }
}

/// Whether an opening is a patch, and whether it is published by itself.
#[tactic(auto, unfolding(crate::specs::Reading::flags_at))]
pub(crate) fn flags_at(bytes: &[u8]) -> Option<((bool, bool), &[u8])>
    ensures { Finds (λ x. (x.0, x.1.now)) result (Reading.flags_at bytes.now) }
{
    match bytes {
        [0, rest @ ..] => Some(((false, false), rest)),
        [1, rest @ ..] => Some(((true, false), rest)),
        [2, rest @ ..] => Some(((false, true), rest)),
        [3, rest @ ..] => Some(((true, true), rest)),
        _ => None,
    }
}

/// How many paths follow.
#[tactic(auto, unfolding(crate::specs::Reading::count_at))]
pub(crate) fn count_at(bytes: &[u8]) -> Option<(u32, &[u8])>
    ensures { Finds (λ x. (x.0, x.1.now)) result (Reading.count_at bytes.now) }
{
    let (count, rest) = u32_at(bytes)?;
    if count > MOST_PATHS {
        return None;
    }
    Some((count, rest))
}

/// The number that these bytes spell.
#[tactic(auto, unfolding(crate::specs::Reading::whole_number))]
pub(crate) fn whole_number(bytes: &[u8]) -> Option<u64>
    ensures { Finds (λ n. n) result (Reading.whole_number bytes.now) }
{
    let (number, rest) = u64_at(bytes)?;
    if rest.is_empty() && 1 <= number && number <= GREATEST_NUMBER {
        Some(number)
    } else {
        None
    }
}

/// The alias that these bytes spell.
#[tactic(auto, unfolding(crate::specs::Reading::whole_alias))]
pub(crate) fn whole_alias(bytes: &[u8]) -> Option<AliasName>
    ensures { Finds (λ name. name) result (Reading.whole_alias bytes.now) }
{
    let (name, rest) = alias_at(bytes)?;
    if rest.is_empty() { Some(name) } else { None }
}

/// The path that these bytes spell.
#[tactic(auto, unfolding(crate::specs::Reading::whole_path))]
pub(crate) fn whole_path(alloc: Global, bytes: &[u8]) -> Result<FilePath, DecodeFault>
    ensures value { Gives (λ path. path) result (Reading.whole_path bytes.now) }
    ensures memory { IsErrOf result DecodeFault.OutOfMemory → IsSome (Reading.path_at bytes.now) }
{
    let (path, rest) = path_at(alloc, bytes)?;
    if rest.is_empty() {
        Ok(path)
    } else {
        Err(DecodeFault::BadEntry)
    }
}
