//! Whether a deploy publishes itself.
ghost use Rattle.std.specs.Prelude.{◌≡◌};
ghost use Rattle.site_state.specs.Deploys.{is_ready_draft};
ghost use Rattle.site_state.specs.States.{draft_at};

use crate::hints::Hints;
use byte_view::Uploads;
use host_names::SiteName;
use site_state::{State, first_lacking};

/// Whether a deploy is open, is to publish itself, and lacks no file. Together, the looks at a deploy go over its paths once, and once more when it is ready.
pub(crate) fn is_ready<U: Uploads>(
    state: &State,
    uploads: &U,
    hints: &mut Hints,
    site: &SiteName,
    number: u64,
) -> bool
    ensures { result ≡ is_ready_draft (U.contents uploads.now) (draft_at state.now site.now number) }
{
    match state.draft(site, number) {
        Some(draft) => {
            draft.auto
                && !hints.lacks(draft, uploads, number)
                && first_lacking(draft, uploads, 0) == draft.files.entries().len()
        }
        None => false,
    }
}
