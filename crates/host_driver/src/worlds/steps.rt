//! Steps, as words.
use crate::worlds::requests::request_of;
use anyhow::{Result, anyhow};
use chunk_lru::Which;
use entry_texts::decode;
use host_world::Step;
use site_change::Entry;
use std::alloc::Global;
use world_node::Call;

/// The step that asks for the entry with this text, which is that of a journal.
fn asking(alloc: Global, text: &str) -> Result<Step> {
    let text = hex::decode(alloc, text)?;
    match decode(alloc, text.as_slice())? {
        Entry::Change(command) => Ok(Step::Commit(command)),
        Entry::Undo { site, change } => Ok(Step::Undo { site, change }),
    }
}

/// The call of one word.
fn plain_call(word: &str) -> Result<Call> {
    match word {
        "look" => Ok(Call::Look),
        "begin" => Ok(Call::Begin),
        "fault" => Ok(Call::Answer(None)),
        "main" => Ok(Call::Add(Which::Main)),
        "hot" => Ok(Call::Add(Which::Hot)),
        "settle" => Ok(Call::Settle),
        "finish" => Ok(Call::Finish),
        _ => Err(anyhow!("there is no such step")),
    }
}

/// The step of a visitor whose word this is.
fn step_by(word: &str, visitor: usize) -> Result<Step> {
    match word {
        "learn" => Ok(Step::Learn(visitor)),
        "take" => Ok(Step::Take(visitor)),
        _ => Ok(Step::Call(visitor, plain_call(word)?)),
    }
}

/// The step of one word.
fn lone_step(alloc: Global, word: &str) -> Result<Step> {
    match word {
        "publish" => Ok(Step::Publish),
        "upload" => Ok(Step::Upload(Vec::new(alloc))),
        _ => Err(anyhow!("there is no such step")),
    }
}

/// The step of a word and another, which is an entry, bytes or a visitor.
fn step_with(alloc: Global, word: &str, other: &str) -> Result<Step> {
    match word {
        "entry" => asking(alloc, other),
        "upload" => Ok(Step::Upload(hex::decode(alloc, other)?)),
        _ => step_by(word, other.parse::<usize>()?),
    }
}

/// The step of a visitor that enters with this request.
fn entering(alloc: Global, visitor: &str, request: &[&str]) -> Result<Step> {
    let visitor = visitor.parse::<usize>()?;
    let request = request_of(alloc, request)?;
    Ok(Step::Enter { visitor, request })
}

/// The step of a visitor whose call is answered by these bytes.
fn answering(alloc: Global, visitor: &str, bytes: &str) -> Result<Step> {
    let visitor = visitor.parse::<usize>()?;
    let bytes = hex::decode(alloc, bytes)?;
    Ok(Step::Call(visitor, Call::Answer(Some(bytes))))
}

/// The step of these words. Bytes are in hexadecimal digits.
pub(crate) fn step_of(alloc: Global, words: &[&str]) -> Result<Step> {
    match words {
        [word] => lone_step(alloc, word),
        [word, visitor, request @ ..] if *word == "enter" => entering(alloc, visitor, request),
        [word, other] => step_with(alloc, word, other),
        [word, visitor, bytes] if *word == "answer" => answering(alloc, visitor, bytes),
        _ => Err(anyhow!("there is no such step")),
    }
}
