//! What may be uploaded to a deploy.
ghost use Rattle.std.specs.Prelude.{◌≡◌, IfOk};
ghost use Rattle.host_names.specs.Digests.{digest_of};
ghost use Rattle.host_server.specs.Outcomes;
ghost use Rattle.site_state.specs.Deploys.{listed_at};
ghost use Rattle.site_state.specs.States.{draft_at, kept_at};

use host_api::Refusal;
use host_names::{Digest, FilePath, SiteName};
use site_change::ChangeRefusal;
use site_state::State;

/// Whether bytes may be uploaded as the file at a path of a deploy. Answers the digest that the deploy lists there, which is that of the
/// bytes. Takes no memory.
pub(crate) fn judge_upload(
    state: &State,
    site: &SiteName,
    number: u64,
    path: &FilePath,
    bytes: &[u8],
) -> Result<Digest, Refusal>
    ensures judged { let listed = listed_at (draft_at state.now site.now number)
        (kept_at state.now site.now number) path.now in Outcomes.judge_listed listed bytes.now ≡ result }
    ensures digest { IfOk result (λ digest. digest ≡ digest_of bytes.now) }
{
    let Some(listed) = state.listed(site, number, path) else {
        return Err(Refusal::Change(ChangeRefusal::NoSuchDeploy));
    };
    let digest = listed.ok_or(Refusal::NotListed)?;
    if digest != Digest::of_bytes(bytes) {
        return Err(Refusal::WrongDigest);
    }
    Ok(digest)
}
