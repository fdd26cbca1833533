//! The table of routes.
ghost use Rattle.std.specs.Prelude.{◌≡◌, IsTrue, IfSome, map, option_map};
ghost use Rattle.host_api.specs.Routes as spec;
ghost use Rattle.host_api.specs.Patterns.{is_rest, row_of, found_of};

use crate::methods::Methods;
use crate::resources::{AliasResource, DeployResource, Resource, ResourceKind, SiteResource};
use crate::targets::{Bindings, Part, fit};

/// What a target names, its methods, the pattern of the target, and whether a rest follows it.
pub struct Row {
    pub kind: ResourceKind,
    pub methods: Methods,
    pub parts: &'static [Part],
    pub has_rest: bool,
}

// `/api/v1/sites/{site}`, and these parts after it.
macro_rules! of_site {
    ($($part:expr),*) => {
        &[Part::Word("api"), Part::Word("v1"), Part::Word("sites"), Part::Site, $($part),*]
    };
}

// `/api/v1/deploys/{deploy}`, and these parts after it.
macro_rules! of_deploy {
    ($($part:expr),*) => {
        &[Part::Word("api"), Part::Word("v1"), Part::Word("deploys"), Part::Number, $($part),*]
    };
}

// A target is on the first of these whose pattern it fits.
const ROWS: &[Row] = &[
    Row {
        kind: ResourceKind::OfSite(SiteResource::LiveFile),
        methods: Methods::Read,
        parts: &[Part::Word("s"), Part::Site],
        has_rest: true,
    },
    Row {
        kind: ResourceKind::OfAlias(AliasResource::File),
        methods: Methods::Read,
        parts: &[Part::Word("a"), Part::Site, Part::Alias],
        has_rest: true,
    },
    Row {
        kind: ResourceKind::OfSite(SiteResource::KeptFile),
        methods: Methods::Read,
        parts: &[Part::Word("d"), Part::Site, Part::Number],
        has_rest: true,
    },
    Row {
        kind: ResourceKind::OfSite(SiteResource::Deploys),
        methods: Methods::Post,
        parts: of_site![Part::Word("deploys")],
        has_rest: false,
    },
    Row {
        kind: ResourceKind::OfSite(SiteResource::Restore),
        methods: Methods::Post,
        parts: of_site![Part::Word("deploys"), Part::Number, Part::Word("restore")],
        has_rest: false,
    },
    Row {
        kind: ResourceKind::OfAlias(AliasResource::Itself),
        methods: Methods::PutOrDelete,
        parts: of_site![Part::Word("aliases"), Part::Alias],
        has_rest: false,
    },
    Row {
        kind: ResourceKind::OfSite(SiteResource::Rename),
        methods: Methods::Post,
        parts: of_site![Part::Word("rename")],
        has_rest: false,
    },
    Row {
        kind: ResourceKind::OfSite(SiteResource::RenameFolder),
        methods: Methods::Post,
        parts: of_site![Part::Word("rename-folder")],
        has_rest: false,
    },
    Row {
        kind: ResourceKind::OfSite(SiteResource::File),
        methods: Methods::Delete,
        parts: of_site![Part::Word("files")],
        has_rest: true,
    },
    Row {
        kind: ResourceKind::OfSite(SiteResource::Undo),
        methods: Methods::Post,
        parts: of_site![Part::Word("undo")],
        has_rest: false,
    },
    Row {
        kind: ResourceKind::OfSite(SiteResource::Changes),
        methods: Methods::Read,
        parts: of_site![Part::Word("changes")],
        has_rest: false,
    },
    Row {
        kind: ResourceKind::OfDeploy(DeployResource::Itself),
        methods: Methods::ReadOrDelete,
        parts: of_deploy![],
        has_rest: false,
    },
    Row {
        kind: ResourceKind::OfDeploy(DeployResource::Cancel),
        methods: Methods::Post,
        parts: of_deploy![Part::Word("cancel")],
        has_rest: false,
    },
    Row {
        kind: ResourceKind::OfDeploy(DeployResource::File),
        methods: Methods::Put,
        parts: of_deploy![Part::Word("files")],
        has_rest: true,
    },
];

// The first of these rows whose pattern the path fits.
fn found_in<'t>(rows: &[Row], path: &'t str) -> Option<(Resource, Bindings<'t>)>
    ensures value { option_map found_of result ≡ spec.found_in (map row_of rows.now) path.now }
    ensures led { IfSome result (λ found. IsTrue (is_rest found.1.rest.now)) }
{
    for row in rows {
        if let Some(bindings) = fit(row.parts, row.has_rest, path) {
            let resource = Resource {
                kind: row.kind,
                methods: row.methods,
            };
            return Some((resource, bindings));
        }
    }
    None
}

/// What the first pattern stands for that the path fits, with what is in its open places.
pub fn find<'t>(path: &'t str) -> Option<(Resource, Bindings<'t>)>
    ensures value { option_map found_of result ≡ spec.found_in spec.rows path.now }
    ensures led { IfSome result (λ found. IsTrue (is_rest found.1.rest.now)) }
{
    found_in(ROWS, path)
}
