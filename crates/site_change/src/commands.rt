//! Commands: the changes that can be asked for.
ghost use Rattle.std.specs.Prelude.{◌≡◌, IfOk};
ghost use Rattle.site_change.specs.Changes.{site_of_command};
ghost use Rattle.site_change.specs.declared.commands.Command.TheVariants.{MoveAlias, Open, Remove, Rename, RenameFolder};

use host_names::{AliasName, FilePath, SiteName};
use site_state::Listing;
use std::alloc::AllocError;

/// A change that is asked for. The number of the entry that it becomes is passed along with it.
#[derive(Drop)]
pub enum Command {
    /// Opens a deploy that lists these files. The deploy's number is that of the entry.
    Open {
        site: SiteName,
        files: Listing,
        auto: bool,
    },
    /// Publishes an open deploy: the site serves its files and no others. A patch adds the files that it lists, removes those that it lists
    /// as removed, and leaves all others.
    Publish {
        site: SiteName,
        number: u64,
    },
    /// Cancels an open deploy.
    Cancel {
        site: SiteName,
        number: u64,
    },
    /// Removes the file at a path.
    Remove {
        site: SiteName,
        path: FilePath,
    },
    /// Moves the file at one path to another, where nothing is served.
    Rename {
        site: SiteName,
        source: FilePath,
        target: FilePath,
    },
    /// Moves each file below a folder to the same path below another, where nothing is served.
    RenameFolder {
        site: SiteName,
        source: FilePath,
        target: FilePath,
    },
    /// Makes an alias name a kept deploy.
    MoveAlias {
        site: SiteName,
        name: AliasName,
        number: u64,
    },
    /// Removes an alias.
    RemoveAlias {
        site: SiteName,
        name: AliasName,
    },
    /// Serves the files of a kept deploy, and no others. If no such deploy is kept, publishes the open one with that number.
    Restore {
        site: SiteName,
        number: u64,
    },
    /// Removes a kept deploy that no alias names.
    RemoveDeploy {
        site: SiteName,
        number: u64,
    },
}

impl Command {
    /// The site that it is for.
    pub fn site(&self) -> &SiteName
        ensures { result.now ≡ site_of_command self.now }
    {
        match self {
            Command::Open { site, .. }
            | Command::Publish { site, .. }
            | Command::Cancel { site, .. }
            | Command::Remove { site, .. }
            | Command::Rename { site, .. }
            | Command::RenameFolder { site, .. }
            | Command::MoveAlias { site, .. }
            | Command::RemoveAlias { site, .. }
            | Command::Restore { site, .. }
            | Command::RemoveDeploy { site, .. } => site,
        }
    }
}

/// The opening of a deploy that lists the same files.
fn opening(site: SiteName, files: &Listing, auto: bool) -> Result<Command, AllocError>
    ensures { IfOk result (λ command. command ≡ Open site files.now auto) }
{
    let files = files.clone()?;
    Ok(Command::Open { site, files, auto })
}

/// The renaming of one path to another.
fn renaming(site: SiteName, source: &FilePath, target: &FilePath) -> Result<Command, AllocError>
    ensures { IfOk result (λ command. command ≡ Rename site source.now target.now) }
{
    Ok(Command::Rename {
        site,
        source: source.clone()?,
        target: target.clone()?,
    })
}

/// The renaming of one folder to another.
fn folder_renaming(
    site: SiteName,
    source: &FilePath,
    target: &FilePath,
) -> Result<Command, AllocError>
    ensures { IfOk result (λ command. command ≡ RenameFolder site source.now target.now) }
{
    Ok(Command::RenameFolder {
        site,
        source: source.clone()?,
        target: target.clone()?,
    })
}

/// The removal of a file.
fn removal(site: SiteName, path: &FilePath) -> Result<Command, AllocError>
    ensures { IfOk result (λ command. command ≡ Remove site path.now) }
{
    let path = path.clone()?;
    Ok(Command::Remove { site, path })
}

/// The choice of a deploy for an alias.
fn aliasing(site: SiteName, name: &AliasName, number: u64) -> Command
    ensures { result ≡ MoveAlias site name.now number }
{
    let name = name.copied();
    Command::MoveAlias { site, name, number }
}

/// A copy shares its paths and what it lists.
impl Clone for Command {
    ghost is_clone = { λ command copy. copy ≡ command };

    fn clone(&self) -> Result<Command, AllocError> {
        let site = self.site().copied();
        Ok(match *self {
            Command::Open {
                ref files,
                auto,
                ..
            } => opening(site, files, auto)?,
            Command::Publish { number, .. } => Command::Publish { site, number },
            Command::Cancel { number, .. } => Command::Cancel { site, number },
            Command::Remove { ref path, .. } => removal(site, path)?,
            Command::Rename {
                ref source,
                ref target,
                ..
            } => renaming(site, source, target)?,
            Command::RenameFolder {
                ref source,
                ref target,
                ..
            } => folder_renaming(site, source, target)?,
            Command::MoveAlias {
                ref name,
                number,
                ..
            } => aliasing(site, name, number),
            Command::RemoveAlias { ref name, .. } => Command::RemoveAlias {
                site,
                name: name.copied(),
            },
            Command::Restore { number, .. } => Command::Restore { site, number },
            Command::RemoveDeploy { number, .. } => Command::RemoveDeploy { site, number },
        })
    }
}
