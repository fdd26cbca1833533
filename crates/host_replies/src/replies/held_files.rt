//! What a reply holds of a file until it is sent.
ghost use Rattle.std.specs.Prelude.{◌≡◌, length};
ghost use Rattle.host_replies.specs.Bodies.{bytes_of};
ghost use Rattle.host_replies.specs.HeldFiles as spec;

use super::Reply;
use crate::bodies::Body;
use crate::media_types::MediaType;
use host_names::Digest;
use http_wire::ContentRange;

/// What a reply holds of a file until it is sent.
#[derive(Clone, Copy, Debug, PartialEq, Eq)]
pub struct HeldFile {
    /// The digest of the file.
    pub digest: Digest,
    /// How many bytes the body of the reply has.
    pub length: u64,
    /// How many bytes the file has, if the reply tells it. Several parts don't.
    pub size: Option<u64>,
}

impl Reply {
    // How many bytes the file has, if the reply tells it.
    fn told_size(&self) -> Option<u64>
        ensures { result ≡ spec.told_size self.now.content_type self.now.content_range
            (length (bytes_of self.now.body)) }
    {
        match (&self.content_type, &self.content_range) {
            (MediaType::Parts(_), _) => None,
            (_, Some(ContentRange::Of { length, .. })) => Some(*length),
            _ => Some(self.body.length()),
        }
    }

    /// What the reply holds of a file; nothing if it sends no byte of one. It takes no memory.
    pub fn held_file(&self) -> Option<HeldFile>
        ensures { result ≡ spec.held_file self.now }
    {
        let Body::File(_) = &self.body else {
            return None;
        };
        Some(HeldFile {
            digest: self.etag?,
            length: self.body.length(),
            size: self.told_size(),
        })
    }
}
