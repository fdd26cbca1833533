//! The two caches of chunks: a run that is worked out by hand.
use super::fixtures::{assert_text, halves};
use byte_view::Chunk;
use chunk_lru::{ChunkCache, Which};
use host_names::Digest;
use std::alloc::Global;
use std::process::Abort;
use std::sync::Arc;
use std::test::Fail;

/// A chunk of a word and zeros after it.
fn chunk(alloc: Global, word: &str, size: usize) -> Result<Chunk, Fail> {
    let mut bytes = Vec::from_slice(alloc, word.as_bytes())?;
    bytes.resize(size, 0)?;
    Ok(Chunk::check(Digest::of_bytes(bytes.as_slice()), bytes)?)
}

/// What a call with a chunk of 60 bytes answers, and what the caches count then.
fn told(alloc: Global, cache: &mut ChunkCache, call: &str, word: &str) -> Result<String, Fail> {
    let chunk = chunk(alloc, word, 60)?;
    let answer = match call {
        "get" => match cache.get(&chunk.name())? {
            Some(_) => "found ",
            None => "missing ",
        },
        _ => {
            let which = if call == "main" {
                Which::Main
            } else {
                Which::Hot
            };
            cache.add(which, Arc::new(alloc, chunk)?)?;
            ""
        }
    };
    let (main, hot) = cache.sizes();
    Ok(format!(in alloc; "{answer}{main} {hot}")?)
}

/// Asserts what calls of a cache give, one after another.
fn assert_calls(rt: &impl Abort, alloc: Global, limit: usize, rows: &str) -> Result<(), Fail> {
    let mut cache = ChunkCache::new(alloc, limit)?;
    for row in rows.lines() {
        let (asked, wanted) = halves(row, " -> ")?;
        let (call, word) = halves(asked, " ")?;
        let text = told(alloc, &mut cache, call, word)?;
        assert_text(rt, asked, text.as_str(), wanted);
    }
    Ok(())
}

#[test]
fn hot_goes_first_and_then_what_was_used_the_longest_ago(rt: HostRuntime) -> Result<(), Fail> {
    let rows = "\
main x1 -> 100 0
main x2 -> 200 0
hot h -> 200 100
main x3 -> 300 0
get h -> missing 300 0
main x4 -> 300 0
get x1 -> missing 300 0
get x2 -> found 300 0
main x5 -> 300 0
get x3 -> missing 300 0
main x2 -> 300 0
hot x2 -> 300 0
get x2 -> found 300 0";
    assert_calls(&rt, rt.alloc(), 300, rows)?;
    assert_calls(&rt, rt.alloc(), 0, "main x1 -> 0 0\nget x1 -> missing 0 0")
}
