//! Uploaded files.
ghost use Rattle.std.specs.Prelude.{◌≡◌, option_map};
ghost use Rattle.std.specs.FinMap as map;
ghost use Rattle.byte_view.specs.Contents.{AreDigested, Contents};

use crate::blob_infos::BlobInfo;
use host_names::Digest;
use std::sync::Arc;

/// Uploaded files, by their digests. They are never changed nor lost: calls that add a file say so by their contracts.
pub trait Uploads {
    /// The bytes of each file.
    ghost contents: { Self → Contents };

    /// Describes the file with this digest, if it was uploaded.
    fn find(&self, digest: &Digest) -> Option<&Arc<BlobInfo>>
        ensures found { option_map (λ info. info.now.value) result ≡ map.get (contents self.now) digest.now }
        ensures digested { AreDigested (contents self.now) };
}
