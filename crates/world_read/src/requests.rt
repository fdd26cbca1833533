//! What a GET of a file asks for.
ghost use Rattle.std.specs.Prelude.{◌≡◌, ◌≤◌, All, Err, IfErr, IfOk, Ok, false, length, map};
ghost use Rattle.host_api.specs.Texts.{has_cell};
ghost use Rattle.range_reply.specs.Conditions.{condition_of};
ghost use Rattle.range_spec.specs.Chosen.{LiesWithin, intervals_in};
ghost use Rattle.world_read.specs.Requests.{file_asked, if_range_values, plan_of};

use byte_view::BlobInfo;
use host_api::{Refusal, Version};
use host_names::{Digest, FilePath, SiteName};
use host_replies::file_of;
use range_reply::{IfRange, ReplyPlan, plan};
use range_spec::Asked;
use site_state::{File, State};

/// A GET of a file: the version of its site, its path, what its Range asks for, and the values of its If-Range fields.
#[derive(Drop)]
pub struct FileRequest {
    pub site: SiteName,
    pub version: Version,
    pub path: FilePath,
    pub asked: Asked,
    pub if_range: Vec<Vec<u8>>,
}

impl FileRequest {
    /// The file that it asks for in a state, or the first reason why there is none.
    pub fn file<'a>(&self, state: &'a State) -> Result<&'a File, Refusal>
        ensures found { IfOk result (λ file. file_asked state.now self.now ≡ Ok file.now) }
        ensures refused { IfErr result (λ refusal. file_asked state.now self.now ≡ Err refusal) }
        ensures plain { IfErr result (λ refusal. has_cell refusal ≡ false) }
    {
        file_of(state, &self.site, &self.version, &self.path)
    }

    /// What its If-Range fields say of the file with this digest (RFC 9110, section 13.1.5).
    fn condition(&self, digest: Digest) -> IfRange
        ensures { result ≡ condition_of digest (if_range_values self.now) }
    {
        match self.if_range.as_slice() {
            [] => IfRange::of(&[], digest),
            [value] => IfRange::of(&[value.as_slice()], digest),
            [value, other, ..] => IfRange::of(&[value.as_slice(), other.as_slice()], digest),
        }
    }

    /// What is to be sent of the file.
    pub fn plan(&self, info: &BlobInfo) -> ReplyPlan
        ensures plan { result ≡ plan_of self.now info.now }
        ensures within { All (LiesWithin (length info.now)) (intervals_in result) }
    {
        plan(info, &self.asked, self.condition(info.digest()))
    }
}
