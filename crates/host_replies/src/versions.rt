//! The files of the versions of a site.
ghost use Rattle.std.specs.Prelude.{◌≡◌, false, Ok, Err, IfOk, IfErr};
ghost use Rattle.site_state.specs.States.{kept_at};
ghost use Rattle.host_api.specs.Texts.{has_cell};
ghost use Rattle.host_replies.specs.Versions as spec;

use host_api::{Refusal, Version};
use host_names::{FilePath, SiteName};
use site_change::ChangeRefusal;
use site_state::{File, State};

/// The file that a deploy of the site, which was published whole, has at a path.
fn kept_file<'a>(
    state: &'a State,
    site: &SiteName,
    deploy: u64,
    path: &FilePath,
) -> Result<&'a File, Refusal>
    ensures found { IfOk result (λ file.
        spec.kept_file (kept_at state.now site.now deploy) path.now ≡ Ok file.now) }
    ensures refused { IfErr result (λ why. spec.kept_file (kept_at state.now site.now deploy) path.now ≡ Err why) }
    ensures plain { IfErr result (λ why. has_cell why ≡ false) }
{
    let Some(tree) = state.kept(site, deploy) else {
        return Err(Refusal::Change(ChangeRefusal::NoSuchDeploy));
    };
    match tree.get(path) {
        Some(file) => Ok(file),
        None => Err(Refusal::Change(ChangeRefusal::NoSuchFile)),
    }
}

/// The file that a version of the site has at a path, or the first reason why it has none.
pub fn file_of<'a>(
    state: &'a State,
    site: &SiteName,
    version: &Version,
    path: &FilePath,
) -> Result<&'a File, Refusal>
    ensures found { IfOk result (λ file. spec.file_of state.now site.now version.now path.now ≡ Ok file.now) }
    ensures refused { IfErr result (λ why. spec.file_of state.now site.now version.now path.now ≡ Err why) }
    ensures plain { IfErr result (λ why. has_cell why ≡ false) }
{
    match version {
        Version::Live => match state.file(site, path) {
            Some(file) => Ok(file),
            None => Err(Refusal::Change(ChangeRefusal::NoSuchFile)),
        },
        Version::Alias(name) => {
            let Some(deploy) = state.alias(site, name) else {
                return Err(Refusal::Change(ChangeRefusal::NoSuchAlias));
            };
            kept_file(state, site, deploy, path)
        }
        Version::Kept(deploy) => kept_file(state, site, *deploy, path),
    }
}
