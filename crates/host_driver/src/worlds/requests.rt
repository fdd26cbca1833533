//! Requests for files, as words.
use anyhow::{Result, anyhow};
use host_api::Version;
use host_names::{AliasName, FilePath, SiteName};
use range_spec::{Asked, parse};
use std::alloc::Global;
use std::sync::Arc;
use world_read::FileRequest;

/// The version that words name: `live` and any word, `alias` and a name, or `kept` and a number.
fn version(kind: &str, which: &str) -> Result<Version> {
    match kind {
        "live" => Ok(Version::Live),
        "alias" => Ok(Version::Alias(AliasName::new(which)?)),
        "kept" => Ok(Version::Kept(which.parse::<u64>()?)),
        _ => Err(anyhow!("there is no such version")),
    }
}

/// What a Range of this value asks for, in hexadecimal digits, or without one where the word is a dash.
fn asked(alloc: Global, word: &str) -> Result<Asked> {
    if word == "-" {
        return Ok(Asked::Ignore);
    }
    let value = hex::decode(alloc, word)?;
    Ok(parse(value.as_slice()))
}

/// The values of If-Range, each in hexadecimal digits.
fn if_range(alloc: Global, words: &[&str]) -> Result<Vec<Vec<u8>>> {
    let mut values = Vec::new(alloc);
    for word in words {
        values.push(hex::decode(alloc, *word)?)?;
    }
    Ok(values)
}

/// The request of these words: a version, a site, a path, a Range, and the values of If-Range. Without words there is none.
pub(crate) fn request_of(alloc: Global, words: &[&str]) -> Result<Option<Arc<FileRequest>>> {
    match words {
        [] => Ok(None),
        [kind, which, site, path, range, values @ ..] => {
            let request = FileRequest {
                site: SiteName::new(site)?,
                version: version(kind, which)?,
                path: FilePath::read(alloc, path)?,
                asked: asked(alloc, range)?,
                if_range: if_range(alloc, values)?,
            };
            Ok(Some(Arc::new(alloc, request)?))
        }
        _ => Err(anyhow!("a request has five words or more")),
    }
}
