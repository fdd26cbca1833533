//! Where deploys lacked a file when they were looked at last.
ghost use Rattle.std.specs.Prelude.{◌≡◌, IsSome, IsTrue, is_some};
ghost use Rattle.site_state.specs.Missing.{if_lacking, least_missing_of};

use byte_view::Uploads;
use host_names::Digest;
use site_state::Draft;

/// How many deploys have a hint at once. Two whose numbers leave the same remainder share one.
const HINTS: u64 = 64;

/// A place in the listing of the deploy of this number. All before it had their files when they were looked at.
#[derive(Clone, Copy, Drop)]
struct Hint {
    number: u64,
    place: usize,
}

/// For the deploys that were looked at last, where to look first for a file that lacks. Since a file that is known stays so, all looks at a deploy together go over its
/// paths once. Hints save work alone: a deploy is ready exactly if it lacks no file, whatever they are.
#[derive(Drop)]
pub(crate) struct Hints {
    hints: [Hint; 64],
}

/// Whether a listed file wasn't uploaded.
fn is_missing<U: Uploads>(uploads: &U, listed: &Option<Digest>) -> bool
    ensures { result ≡ is_some (if_lacking (U.contents uploads.now) listed.now) }
{
    match listed {
        Some(digest) => uploads.find(digest).is_none(),
        None => false,
    }
}

/// Whether a deploy lacks the file at this place of its listing.
fn lacks_at<U: Uploads>(draft: &Draft, uploads: &U, place: usize) -> bool
    ensures { IsTrue result → IsSome (least_missing_of (U.contents uploads.now) draft.now.files.1) }
{
    match draft.files.entries().get(place) {
        Some((_, listed)) => is_missing(uploads, listed),
        None => false,
    }
}

/// Whether a deploy lacks a file at this place of its listing or at a later one. The place goes on to the first such, or back to the first of all.
fn lacks_from<U: Uploads>(draft: &Draft, uploads: &U, place: &mut usize) -> bool
    ensures { IsTrue result → IsSome (least_missing_of (U.contents uploads.now) draft.now.files.1) }
{
    for at in *place..draft.files.entries().len() {
        if lacks_at(draft, uploads, at) {
            *place = at;
            return true;
        }
    }
    *place = 0;
    false
}

impl Hints {
    /// None yet.
    pub(crate) fn new() -> Hints {
        Hints {
            hints: [Hint {
                number: 0,
                place: 0,
            }; 64],
        }
    }

    /// Whether a deploy lacks a file where its hint says, or later. If not, it may still lack an earlier one.
    pub(crate) fn lacks<U: Uploads>(&mut self, draft: &Draft, uploads: &U, number: u64) -> bool
        ensures { IsTrue result → IsSome (least_missing_of (U.contents uploads.now) draft.now.files.1) }
    {
        let Some(hint) = self.hints.get_mut((number % HINTS) as usize) else {
            return false;
        };
        if hint.number != number {
            *hint = Hint { number, place: 0 };
        }
        lacks_from(draft, uploads, &mut hint.place)
    }
}
