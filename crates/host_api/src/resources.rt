//! What targets name.
use crate::methods::Methods;

/// What a target names (RFC 9110, section 3.1), and the methods that it has.
#[derive(Clone, Copy, Debug, PartialEq, Eq)]
pub struct Resource {
    pub(crate) kind: ResourceKind,
    pub(crate) methods: Methods,
}

impl Resource {
    ghost use Rattle.std.specs.Prelude.{◌≡◌};
    ghost use Rattle.host_api.specs.Methods.{allow_text};
    ghost use Rattle.host_api.specs.Routes.{has_method};

    /// Its methods, separated by commas: the value of `Allow` (RFC 9110, section 10.2.1).
    pub fn methods_text(self) -> &'static str
        ensures { result.now ≡ allow_text self }
    {
        self.methods.text()
    }

    /// Whether it has the method.
    pub(crate) fn has_method(self, method: &str) -> bool
        ensures { result ≡ has_method self method.now }
    {
        self.methods.contains(method)
    }
}

/// What a target names, without its methods.
#[derive(Clone, Copy, Debug, PartialEq, Eq)]
pub(crate) enum ResourceKind {
    /// Something of a site.
    OfSite(SiteResource),
    /// Something of an alias.
    OfAlias(AliasResource),
    /// Something of a deploy. The target doesn't name the site.
    OfDeploy(DeployResource),
}

/// What a target names of a site.
#[derive(Clone, Copy, Debug, PartialEq, Eq)]
pub(crate) enum SiteResource {
    /// `/s/{site}/{path}`: a file that the site serves.
    LiveFile,
    /// `/d/{site}/{deploy}/{path}`: a file of a deploy that was published whole.
    KeptFile,
    /// `/api/v1/sites/{site}/deploys`: the deploys of the site.
    Deploys,
    /// `/api/v1/sites/{site}/deploys/{deploy}/restore`: the restoring of a deploy.
    Restore,
    /// `/api/v1/sites/{site}/rename`: the renaming of a file.
    Rename,
    /// `/api/v1/sites/{site}/rename-folder`: the renaming of a folder.
    RenameFolder,
    /// `/api/v1/sites/{site}/files/{path}`: a file of the site, to be removed.
    File,
    /// `/api/v1/sites/{site}/undo`: the undoing of a change.
    Undo,
    /// `/api/v1/sites/{site}/changes`: the list of changes.
    Changes,
}

/// What a target names of an alias.
#[derive(Clone, Copy, Debug, PartialEq, Eq)]
pub(crate) enum AliasResource {
    /// `/a/{site}/{alias}/{path}`: a file of the deploy that the alias names.
    File,
    /// `/api/v1/sites/{site}/aliases/{alias}`: the alias itself.
    Itself,
}

/// What a target names of a deploy.
#[derive(Clone, Copy, Debug, PartialEq, Eq)]
pub(crate) enum DeployResource {
    /// `/api/v1/deploys/{deploy}`: the deploy itself.
    Itself,
    /// `/api/v1/deploys/{deploy}/cancel`: the cancelling of an open deploy.
    Cancel,
    /// `/api/v1/deploys/{deploy}/files/{path}`: a file of the deploy, to be uploaded.
    File,
}
