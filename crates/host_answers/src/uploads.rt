//! Uploads: the files of deploys.
ghost use Rattle.std.specs.Prelude.{◌≡◌};
ghost use Rattle.host_replies.specs.Bodies.{answer_of};
ghost use Rattle.host_replies.specs.Replies.{Tells};
ghost use Rattle.host_answers.specs.Answers as spec;
ghost use Rattle.host_answers.specs.Answers.{OfDeploy, UploadsBy};

use crate::deploys::site_of_deploy;
use crate::houses::House;
use crate::telling::{no_such_deploy, refuse};
use host_api::{Refusal, Told};
use host_names::{Digest, FilePath};
use host_replies::Reply;
use std::alloc::Global;

/// A file that was uploaded.
#[derive(Debug, Drop)]
pub struct Uploaded {
    /// The number of the entry that published its deploy, if that was ready then.
    pub published: Option<u64>,
    /// The file's digest.
    pub digest: Digest,
}

/// The reply that tells what was uploaded, or why it wasn't.
fn tell_upload(alloc: Global, done: Result<Uploaded, Refusal>) -> Reply
    ensures { Tells (spec.told_upload done) (answer_of result) }
{
    match done {
        Ok(Uploaded { published, digest }) => {
            Reply::of_told(alloc, &Told::Uploaded { published, digest })
        }
        Err(why) => refuse(alloc, why),
    }
}

/// The reply to an upload of these bytes as the file at a path of a deploy.
pub(crate) fn upload<H: House>(
    alloc: Global,
    house: &mut H,
    number: u64,
    path: &FilePath,
    bytes: &[u8],
) -> Reply
    ensures { OfDeploy H.calls house.old number
        (λ site. UploadsBy H.calls house.old site number path.now bytes.now) (answer_of result) house.new }
{
    let Some(site) = site_of_deploy(house.log(), number) else {
        return no_such_deploy();
    };
    let done = house.upload(&site, number, path, bytes);
    tell_upload(alloc, done)
}
