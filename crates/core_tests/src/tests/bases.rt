//! A history over a base.
ghost use Rattle.std.specs.Prelude.{◌≡◌, ◌≤◌, IfOk};
ghost use Rattle.site_state.specs.Files.{IsByPath};

use super::fixtures::assert_holds;
use blob_store::{Blobs, MemShelf};
use change_log::{Log, Name, Names};
use change_undo::{BaseFault, History};
use host_names::{AliasName, Cell, Digest, FilePath, SiteName};
use site_state::{PathMap, Value};
use std::alloc::Global;
use std::process::Abort;
use std::test::Fail;

/// The number of the base.
const BASE: u64 = 3;

/// No paths.
fn no_files(alloc: Global) -> Vec<(FilePath, Digest)>
    ensures { IsByPath result.items }
{
    Vec::new(alloc)
}

/// Keeps a deploy without files.
fn keep_deploy(alloc: Global, names: &mut Names, number: u64) -> Result<(), Fail>
    requires { 1 ≤ number }
{
    let files = PathMap::from_sorted(alloc, no_files(alloc))?;
    let cell = Cell::Kept(SiteName::new("one")?, number);
    Ok(names.put(cell, Name::Kept(files))?)
}

/// Lets an alias name a deploy.
fn name_deploy(names: &mut Names, number: u64) -> Result<(), Fail> {
    let cell = Cell::Alias(SiteName::new("one")?, AliasName::new("live")?);
    Ok(names.put(cell, Name::Alias(number))?)
}

/// A log of a base that keeps deploy 2, with an alias of this deploy.
fn log_with_alias(alloc: Global, number: u64) -> Result<Log, Fail>
    ensures { IfOk result (λ log. log.base ≡ 3) }
{
    let mut names = Names::new(alloc);
    keep_deploy(alloc, &mut names, 2)?;
    name_deploy(&mut names, number)?;
    Ok(Log::over(alloc, BASE, names))
}

/// Asserts that a history has the number of its base and what its alias names.
fn assert_begun(rt: &impl Abort, history: &History, number: u64) -> Result<(), Fail> {
    let alias = Cell::Alias(SiteName::new("one")?, AliasName::new("live")?);
    assert_holds(rt, "the base is counted", history.len() == BASE, true);
    let named = history.state().value(&alias);
    assert_holds(
        rt,
        "the alias is there",
        named == Some(&Value::Alias(number)),
        true,
    );
    Ok(())
}

#[test]
fn has_the_state_of_its_base(rt: HostRuntime) -> Result<(), Fail> {
    let uploads = Blobs::new(rt.alloc(), MemShelf::new(rt.alloc()));
    let log = log_with_alias(rt.alloc(), 2)?;
    match History::over(BASE, &log, &uploads) {
        Ok(history) => assert_begun(&rt, &history, 2),
        Err(fault) => Err(fault.into()),
    }
}

#[test]
fn is_refused_if_an_alias_names_no_deploy(rt: HostRuntime) -> Result<(), Fail> {
    let uploads = Blobs::new(rt.alloc(), MemShelf::new(rt.alloc()));
    let log = log_with_alias(rt.alloc(), 1)?;
    let is_refused = match History::over(BASE, &log, &uploads) {
        Ok(_) => false,
        Err(fault) => fault == BaseFault::NotLegal(BASE),
    };
    assert_holds(&rt, "the base is refused", is_refused, true);
    Ok(())
}
