//! Which route a request takes.
ghost use Rattle.std.specs.Prelude.{◌≡◌, ◌≢◌, Ok, Err, IsTrue, IfOk, IfErr, IsErrOf};
ghost use Rattle.host_api.specs.Routes.{routed, has_path};
ghost use Rattle.host_api.specs.Routes as spec;
ghost use Rattle.host_api.specs.Numbers as numbers;
ghost use Rattle.host_api.specs.Patterns.{bindings_of, is_rest, named_in, named_route, GivesRoute};

use crate::bodies::Ask;
use crate::numbers::number_of;
use crate::refusals::Refusal;
use crate::resources::{AliasResource, DeployResource, Resource, ResourceKind, SiteResource};
use crate::table::find;
use crate::target_paths::{read_path, written_path};
use crate::targets::{Bindings, has_hash, path_of};
use crate::versions::Version;
use host_names::{AliasName, SiteName};
use site_change::Command;
use std::alloc::Global;

/// The route of a request, with what its target says. The number of a deploy is 0, which names nothing, if the target writes no number that
/// an entry can have.
///
/// A request is read in two steps: its route, by the method and the target; and then its body, as that route takes it.
#[derive(Drop)]
pub enum Route {
    /// The target says all that is asked for, whatever the body says.
    Ready(Ask),
    /// Opens a deploy, which the body describes.
    Open { site: SiteName },
    /// Lets an alias name a deploy, which the body names.
    MoveAlias { site: SiteName, alias: AliasName },
    /// Renames a file; the body has its paths.
    Rename { site: SiteName },
    /// Renames a folder; the body has its paths.
    RenameFolder { site: SiteName },
    /// Undoes a change, which the body names.
    Undo { site: SiteName },
}

// A resource with the names that its target has.
#[derive(Drop)]
enum Named {
    Site(SiteResource, SiteName),
    Alias(AliasResource, SiteName, AliasName),
    Deploy(DeployResource),
}

// A resource with its names, where each is a name.
fn with_names(resource: Resource, bindings: Bindings<'_>) -> Result<Named, Refusal>
    ensures { result ≡ named_in resource.kind (bindings_of bindings.entry) }
{
    match resource.kind {
        ResourceKind::OfSite(resource) => {
            let Ok(site) = SiteName::new(bindings.site) else {
                return Err(Refusal::BadName);
            };
            Ok(Named::Site(resource, site))
        }
        ResourceKind::OfAlias(resource) => {
            let Ok(site) = SiteName::new(bindings.site) else {
                return Err(Refusal::BadName);
            };
            let Ok(alias) = AliasName::new(bindings.alias) else {
                return Err(Refusal::BadName);
            };
            Ok(Named::Alias(resource, site, alias))
        }
        ResourceKind::OfDeploy(resource) => Ok(Named::Deploy(resource)),
    }
}

// The reading of a file of a version of a site.
fn read(alloc: Global, site: SiteName, version: Version, rest: &str) -> Result<Route, Refusal>
    requires { IsTrue (is_rest rest.now) }
    ensures { GivesRoute result (spec.read_route site version rest.now) }
{
    let path = read_path(alloc, rest)?;
    Ok(Route::Ready(Ask::Read {
        site,
        version,
        path,
    }))
}

// The removal of a file.
fn remove(alloc: Global, site: SiteName, rest: &str) -> Result<Route, Refusal>
    requires { IsTrue (is_rest rest.now) }
    ensures { GivesRoute result (spec.remove_route site rest.now) }
{
    let path = written_path(alloc, rest)?;
    Ok(Route::Ready(Ask::Command(Command::Remove { site, path })))
}

// The upload of a file.
fn upload(alloc: Global, deploy: u64, rest: &str) -> Result<Route, Refusal>
    requires { IsTrue (is_rest rest.now) }
    ensures { GivesRoute result (spec.upload_route deploy rest.now) }
{
    let path = written_path(alloc, rest)?;
    Ok(Route::Ready(Ask::Upload { deploy, path }))
}

// The route to a resource of a site.
fn to_site(
    alloc: Global,
    resource: SiteResource,
    site: SiteName,
    deploy: u64,
    rest: &str,
) -> Result<Route, Refusal>
    requires { IsTrue (is_rest rest.now) }
    ensures { GivesRoute result (spec.site_route resource site deploy rest.now) }
{
    match resource {
        SiteResource::LiveFile => read(alloc, site, Version::Live, rest),
        SiteResource::KeptFile => read(alloc, site, Version::Kept(deploy), rest),
        SiteResource::File => remove(alloc, site, rest),
        SiteResource::Deploys => Ok(Route::Open { site }),
        SiteResource::Restore => Ok(Route::Ready(Ask::Command(Command::Restore {
            site,
            number: deploy,
        }))),
        SiteResource::Rename => Ok(Route::Rename { site }),
        SiteResource::RenameFolder => Ok(Route::RenameFolder { site }),
        SiteResource::Undo => Ok(Route::Undo { site }),
        SiteResource::Changes => Ok(Route::Ready(Ask::Changes { site })),
    }
}

// The route of a method to a resource of an alias.
fn to_alias(
    alloc: Global,
    method: &str,
    resource: AliasResource,
    site: SiteName,
    alias: AliasName,
    rest: &str,
) -> Result<Route, Refusal>
    requires { IsTrue (is_rest rest.now) }
    ensures { GivesRoute result (spec.alias_route resource method.now site alias rest.now) }
{
    match resource {
        AliasResource::File => read(alloc, site, Version::Alias(alias), rest),
        AliasResource::Itself if method == "PUT" => Ok(Route::MoveAlias { site, alias }),
        AliasResource::Itself => Ok(Route::Ready(Ask::Command(Command::RemoveAlias {
            site,
            name: alias,
        }))),
    }
}

// The route of a method to a resource of a deploy.
fn to_deploy(
    alloc: Global,
    method: &str,
    resource: DeployResource,
    deploy: u64,
    rest: &str,
) -> Result<Route, Refusal>
    requires { IsTrue (is_rest rest.now) }
    ensures { GivesRoute result (spec.deploy_route resource method.now deploy rest.now) }
{
    match resource {
        DeployResource::File => upload(alloc, deploy, rest),
        DeployResource::Cancel => Ok(Route::Ready(Ask::Cancel { deploy })),
        DeployResource::Itself if method == "DELETE" => {
            Ok(Route::Ready(Ask::RemoveDeploy { deploy }))
        }
        DeployResource::Itself => Ok(Route::Ready(Ask::Deploy { deploy })),
    }
}

// The route of a method to a resource with its names, by the number and the rest of its target.
fn route_to(
    alloc: Global,
    method: &str,
    named: Named,
    number: &str,
    rest: &str,
) -> Result<Route, Refusal>
    requires { IsTrue (is_rest rest.now) }
    ensures { GivesRoute result (named_route named method.now (numbers.number_of number.now) rest.now) }
{
    let deploy = number_of(number);
    match named {
        Named::Site(resource, site) => to_site(alloc, resource, site, deploy, rest),
        Named::Alias(resource, site, alias) => {
            to_alias(alloc, method, resource, site, alias, rest)
        }
        Named::Deploy(resource) => to_deploy(alloc, method, resource, deploy, rest),
    }
}

// The route to a resource on a path, or the first reason why there is none: the names, the path.
fn route_at(
    alloc: Global,
    method: &str,
    resource: Resource,
    path: &str,
    bindings: Bindings<'_>,
) -> Result<Route, Refusal>
    requires { IsTrue (is_rest bindings.rest.now) }
    ensures { GivesRoute result (spec.routed_at method.now path.now resource (bindings_of bindings.entry)) }
{
    let named = with_names(resource, bindings)?;
    if has_hash(path) {
        return Err(Refusal::BadPath);
    }
    route_to(alloc, method, named, bindings.number, bindings.rest)
}

/// The route of a method and a target, or the first reason why there is none.
///
/// The table of routes is long, and the proofs above this crate need only that it has one answer: its definition (`routed`) is opened here
/// alone. The function isn't named `route`, since the toolchain refuses two names in a module that differ in case alone, and `Route` is
/// one; nor is `ask_of` named `ask`.
#[tactic(auto, unfolding(crate::specs::Routes::routed))]
pub fn route_of(alloc: Global, method: &str, target: &str) -> Result<Route, Refusal>
    ensures ok { IfOk result (λ route. routed method.now target.now ≡ Ok route) }
    ensures refused { IfErr result (λ refusal. refusal ≢ Refusal.OutOfMemory → routed method.now target.now ≡ Err refusal) }
    ensures memory { IsErrOf result Refusal.OutOfMemory → IsTrue (has_path (routed method.now target.now)) }
{
    let path = path_of(target);
    let Some((resource, bindings)) = find(path) else {
        return Err(Refusal::NoRoute);
    };
    if !resource.has_method(method) {
        return Err(Refusal::BadMethod(resource));
    }
    route_at(alloc, method, resource, path, bindings)
}
