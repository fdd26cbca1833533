//! What is known of all uploads.
ghost use Rattle.byte_view.specs.Contents.{AreDigested};

use byte_view::Uploads;
use host_names::Digest;

/// Each file is there under its own digest. The work is one look-up.
pub fn uploads_are_digested<U: Uploads>(uploads: &U)
    ensures { AreDigested (U.contents uploads.now) }
{
    // Any look-up tells it, of whichever digest.
    let _ = uploads.find(&Digest([0; 20]));
}
