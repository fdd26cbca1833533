//! How many bytes a body may have.
ghost use Rattle.std.specs.Prelude.{◌≡◌, option_map};
ghost use Rattle.host_api.specs.Limits as spec;
ghost use Rattle.host_api.specs.Patterns.{found_of};

use crate::resources::{DeployResource, Resource, ResourceKind};
use crate::table::find;
use crate::targets::{Bindings, path_of};

// The greatest length of a file that is uploaded, in bytes.
const FILE_LIMIT: u64 = 16_777_216;

// The greatest length of any other body, in bytes.
const DOCUMENT_LIMIT: u64 = 4_194_304;

// Whether what was found is a file of a deploy.
fn is_deploy_file(found: Option<(Resource, Bindings<'_>)>) -> bool
    ensures { result ≡ spec.is_upload (option_map found_of found.entry) }
{
    match found {
        Some((resource, _)) => resource.kind == ResourceKind::OfDeploy(DeployResource::File),
        None => false,
    }
}

// Whether the target is that of an upload.
fn is_upload(target: &str) -> bool
    ensures { result ≡ spec.is_upload (spec.found_at target.now) }
{
    is_deploy_file(find(path_of(target)))
}

/// The greatest length of the body of a request, in bytes. The proofs above this crate need only that there is one such number: its
/// definition is opened here alone.
#[tactic(auto, unfolding(crate::specs::Limits::body_limit))]
pub fn body_limit(method: &str, target: &str) -> u64
    ensures { result ≡ spec.body_limit method.now target.now }
{
    if method == "PUT" && is_upload(target) {
        FILE_LIMIT
    } else {
        DOCUMENT_LIMIT
    }
}
