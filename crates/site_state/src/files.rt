//! A file as the state keeps it.
ghost use Rattle.std.specs.Prelude.{◌≡◌, length};
ghost use Rattle.std.specs.Cmp.{partial_equiv_from_equiv};
ghost use Rattle.site_state.specs.Values.{one_digest};
ghost use Rattle.site_state.specs.SameValues.{one_digest-equiv};

use byte_view::BlobInfo;
use host_names::Digest;
use std::alloc::AllocError;
use std::marker::Model;
use std::sync::Arc;

/// An uploaded file: its `BlobInfo`, without bytes, shared with all else that holds the file. Contracts see the bytes.
#[derive(Drop)]
pub struct File {
    info: Arc<BlobInfo>,
}

impl Model for File {
    ghost use Rattle.std.specs.Prelude.{List, ℕ};

    ghost Value = { List ℕ };

    ghost view = { λ f. f.info.value };
}

impl File {
    ghost use Rattle.host_names.specs.Digests.{digest_of};

    /// The file that was uploaded.
    pub fn new(info: Arc<BlobInfo>) -> File
        ensures { result ≡ info.value }
    {
        File { info }
    }

    /// What is kept of the file without its bytes. It can be shared.
    pub fn info(&self) -> &Arc<BlobInfo>
        ensures { result.now.value ≡ self.now }
    {
        &self.info
    }

    /// How many bytes it has.
    pub fn len(&self) -> usize
        ensures { result ≡ length self.now }
    {
        self.info.len()
    }

    /// The digest of its bytes.
    pub fn digest(&self) -> Digest
        ensures { result ≡ digest_of self.now }
    {
        self.info.digest()
    }
}

impl Clone for File {
    ghost is_clone = { λ file copy. copy ≡ file };

    fn clone(&self) -> Result<File, AllocError> {
        let info = Arc::try_clone(&self.info)?;
        Ok(File { info })
    }
}

/// By their digests alone. In the uploads of one store each file is under its own digest, so files with the same digest have the same bytes
/// there, and no clause needs a premise on SHA-1.
impl PartialEq for File {
    ghost eq = { one_digest };

    ghost laws = { partial_equiv_from_equiv one_digest-equiv };

    fn eq(&self, other: &File) -> bool {
        self.digest() == other.digest()
    }
}

impl Eq for File {
    ghost laws = { one_digest-equiv };
}
