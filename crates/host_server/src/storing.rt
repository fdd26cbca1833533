//! Uploads: their files are stored, and the deploys that they complete are published.
ghost use Rattle.std.specs.Prelude.{◌≡◌, ◌≤◌, false, IfErr, OnErr, OnOk};
ghost use Rattle.host_names.specs.Digests.{digest_of};
ghost use Rattle.blob_store.specs.declared.blobs.UploadFault.{UploadFault as Fault};
ghost use Rattle.host_server.specs.Hosts.{Grows, with_upload};
ghost use Rattle.host_server.specs.Journals;
ghost use Rattle.host_server.specs.Outcomes.{judge_in};
ghost use Rattle.host_server.specs.Storing as spec;
ghost use Rattle.host_server.specs.Storing.{DoesUpload, IsNotStored, IsStored};

use crate::host::judge_upload;
use crate::servers::Server;
use blob_store::{Shelf, UploadFault};
use byte_view::MAX_SIZE;
use host_answers::Uploaded;
use host_api::Refusal;
use host_disk::Disk;
use host_names::{Digest, FilePath, SiteName};

/// The refusal of an upload that can't be stored.
///
/// Over a connection no upload is too large here: its body is refused first, by its length (`BodyTooLarge`).
fn refusal_of_upload(why: UploadFault) -> Refusal
    ensures { result ≡ spec.refusal_of_upload why }
{
    match why {
        UploadFault::TooLarge => Refusal::TooLarge,
        UploadFault::Device => Refusal::Device,
        UploadFault::OutOfMemory => Refusal::OutOfMemory,
    }
}

impl<S: Shelf, D: Disk> Server<S, D> {
    /// Stores the bytes of an upload; from then on they are known. Nothing is stored for bytes that are known, nor for a piece that a known
    /// file has. Too many bytes are refused even if their digest is known, which only a collision could bring.
    fn keep(&mut self, digest: Digest, bytes: &[u8]) -> Result<(), Refusal>
        requires { digest ≡ digest_of bytes.now }
        ensures stored { OnOk result
            (IsStored S.did self.old.house.uploads self.old.files.shelf bytes.now self.new.files.shelf) }
        ensures known { OnOk result (self.new.house ≡ with_upload self.old.house bytes.now) }
        ensures refused { IfErr result (λ reason. (why : Fault)
            × IsNotStored S.did S.failures self.old.house.uploads self.old.files.shelf bytes.now why
            self.new.files.shelf × (reason ≡ spec.refusal_of_upload why)) }
        ensures err { OnErr result (self.new.house ≡ self.old.house) }
        ensures journal { self.new.journal ≡ self.old.journal }
        ensures grows { Grows self.old.house self.new.house }
        ensures count { S.failures self.old.files.shelf ≤ S.failures self.new.files.shelf }
        ensures cache { self.new.files.cache ≡ self.old.files.cache }
    {
        let known = self.house.uploads();
        if bytes.len() <= MAX_SIZE && known.find(&digest).is_some() {
            return Ok(());
        }
        let info = match self.files.files_mut().put(known, digest, bytes) {
            Ok(info) => info,
            Err(why) => return Err(refusal_of_upload(why)),
        };
        self.house.keep(info)?;
        Ok(())
    }

    /// Takes bytes as the file at a path of a deploy of a site, and publishes the deploy if it is ready then. If that fails, the upload
    /// remains.
    ///
    /// The bytes are hashed once, and not at all if the deploy lists nothing at the path: the digest judges the upload, and the file is
    /// stored under it. Unless they are known, each piece is then hashed for its own name.
    pub(crate) fn store(
        &mut self,
        site: &SiteName,
        number: u64,
        path: &FilePath,
        bytes: &[u8],
    ) -> Result<Uploaded, Refusal>
        requires whole { Journals.is_broken self.old.journal ≡ false }
        ensures done { let judged = judge_in self.old.house site.now number path.now bytes.now in
            DoesUpload S.did S.failures self.old judged number bytes.now result self.new }
        ensures count { S.failures self.old.files.shelf ≤ S.failures self.new.files.shelf }
    {
        let digest = judge_upload(self.house.state(), site, number, path, bytes)?;
        self.keep(digest, bytes)?;
        let journal = &mut self.journal;
        let published = self.house.publish_if_ready(journal, site, number)?;
        Ok(Uploaded { published, digest })
    }
}
