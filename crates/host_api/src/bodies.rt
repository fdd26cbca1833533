//! What the body of a request asks for.
ghost use Rattle.std.specs.Prelude.{◌≡◌, ◌≢◌, Ok, Err, IsTrue, IfOk, IfErr, IsErrOf};
ghost use Rattle.std.specs.Str.{is_utf8};
ghost use Rattle.host_api.specs.Bodies.{asked, open_ask, alias_ask, paths_of, rename_ask, rename_folder_ask, undo_ask, is_parsed};

use crate::documents::document;
use crate::listings::{form_of, listed, path_of};
use crate::members::{number_member, text_member};
use crate::refusals::Refusal;
use crate::routes::Route;
use crate::versions::Version;
use host_names::{AliasName, FilePath, SiteName};
use site_change::Command;
use std::alloc::Global;

/// What a request asks for. The number of a deploy or a change is 0, which names nothing, if the request writes no number that an entry can
/// have.
#[derive(Drop)]
pub enum Ask {
    /// The file at a path of a version of a site.
    Read {
        site: SiteName,
        version: Version,
        path: FilePath,
    },
    /// A change.
    Command(Command),
    /// The undo of a change.
    Undo {
        site: SiteName,
        change: u64,
    },
    /// The list of a site's changes.
    Changes {
        site: SiteName,
    },
    /// The state of a deploy.
    Deploy {
        deploy: u64,
    },
    /// The removal of a kept deploy, in the site that has it.
    RemoveDeploy {
        deploy: u64,
    },
    /// The cancelling of an open deploy, in the site that has it.
    Cancel {
        deploy: u64,
    },
    /// The upload of the body as the file at this path of a deploy.
    Upload {
        deploy: u64,
        path: FilePath,
    },
}

// The deploy that a body opens.
fn open(alloc: Global, site: SiteName, body: &[u8]) -> Result<Ask, Refusal>
    ensures ok { IfOk result (λ ask. open_ask site body.now ≡ Ok ask) }
    ensures refused { IfErr result (λ refusal. refusal ≢ Refusal.OutOfMemory →
        open_ask site body.now ≡ Err refusal) }
    ensures memory { IsErrOf result Refusal.OutOfMemory → IsTrue (is_utf8 body.now) }
{
    let body = document(alloc, body)?;
    let Some(form) = form_of(&body) else {
        return Err(Refusal::BadBody);
    };
    let auto = !form.draft;
    let files = listed(alloc, form.patch, form.files)?;
    Ok(Ask::Command(Command::Open { site, files, auto }))
}

// The change that a body undoes.
fn undo(alloc: Global, site: SiteName, body: &[u8]) -> Result<Ask, Refusal>
    ensures ok { IfOk result (λ ask. undo_ask site body.now ≡ Ok ask) }
    ensures refused { IfErr result (λ refusal. refusal ≢ Refusal.OutOfMemory →
        undo_ask site body.now ≡ Err refusal) }
    ensures memory { IsErrOf result Refusal.OutOfMemory → IsTrue (is_utf8 body.now) }
{
    let body = document(alloc, body)?;
    match number_member(&body, "change") {
        Some(change) => Ok(Ask::Undo { site, change }),
        None => Err(Refusal::BadBody),
    }
}

// The deploy that a body lets an alias name.
fn move_alias(alloc: Global, site: SiteName, name: AliasName, body: &[u8]) -> Result<Ask, Refusal>
    ensures ok { IfOk result (λ ask. alias_ask site name body.now ≡ Ok ask) }
    ensures refused { IfErr result (λ refusal. refusal ≢ Refusal.OutOfMemory →
        alias_ask site name body.now ≡ Err refusal) }
    ensures memory { IsErrOf result Refusal.OutOfMemory → IsTrue (is_utf8 body.now) }
{
    let body = document(alloc, body)?;
    match number_member(&body, "deploy") {
        Some(number) => Ok(Ask::Command(Command::MoveAlias { site, name, number })),
        None => Err(Refusal::BadBody),
    }
}

// The two paths of a renaming.
fn two_paths(alloc: Global, body: &[u8]) -> Result<(FilePath, FilePath), Refusal>
    ensures ok { IfOk result (λ paths. paths_of body.now ≡ Ok paths) }
    ensures refused { IfErr result (λ refusal. refusal ≢ Refusal.OutOfMemory → paths_of body.now ≡ Err refusal) }
    ensures memory { IsErrOf result Refusal.OutOfMemory → IsTrue (is_utf8 body.now) }
{
    let body = document(alloc, body)?;
    let (Some(from), Some(to)) = (text_member(&body, "from"), text_member(&body, "to")) else {
        return Err(Refusal::BadBody);
    };
    let source = path_of(alloc, from)?;
    let target = path_of(alloc, to)?;
    Ok((source, target))
}

// The file that a body renames.
fn rename(alloc: Global, site: SiteName, body: &[u8]) -> Result<Ask, Refusal>
    ensures ok { IfOk result (λ ask. rename_ask site body.now ≡ Ok ask) }
    ensures refused { IfErr result (λ refusal. refusal ≢ Refusal.OutOfMemory →
        rename_ask site body.now ≡ Err refusal) }
    ensures memory { IsErrOf result Refusal.OutOfMemory → IsTrue (is_utf8 body.now) }
{
    let (source, target) = two_paths(alloc, body)?;
    Ok(Ask::Command(Command::Rename {
        site,
        source,
        target,
    }))
}

// The folder that a body renames.
fn rename_folder(alloc: Global, site: SiteName, body: &[u8]) -> Result<Ask, Refusal>
    ensures ok { IfOk result (λ ask. rename_folder_ask site body.now ≡ Ok ask) }
    ensures refused { IfErr result (λ refusal. refusal ≢ Refusal.OutOfMemory →
        rename_folder_ask site body.now ≡ Err refusal) }
    ensures memory { IsErrOf result Refusal.OutOfMemory → IsTrue (is_utf8 body.now) }
{
    let (source, target) = two_paths(alloc, body)?;
    Ok(Ask::Command(Command::RenameFolder {
        site,
        source,
        target,
    }))
}

/// What a body asks for on a route, or the first reason why it asks for nothing.
pub fn ask_of(alloc: Global, route: Route, body: &[u8]) -> Result<Ask, Refusal>
    ensures ok { IfOk result (λ ask. asked route body.now ≡ Ok ask) }
    ensures refused { IfErr result (λ refusal. refusal ≢ Refusal.OutOfMemory → asked route body.now ≡ Err refusal) }
    ensures memory { IsErrOf result Refusal.OutOfMemory → IsTrue (is_parsed route body.now) }
{
    match route {
        Route::Ready(ask) => Ok(ask),
        Route::Open { site } => open(alloc, site, body),
        Route::MoveAlias { site, alias } => move_alias(alloc, site, alias, body),
        Route::Rename { site } => rename(alloc, site, body),
        Route::RenameFolder { site } => rename_folder(alloc, site, body),
        Route::Undo { site } => undo(alloc, site, body),
    }
}
