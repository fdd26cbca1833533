//! Deploys: the site that each belongs to, and what is told of them.
ghost use Rattle.std.specs.Prelude.{◌≡◌};
ghost use Rattle.change_log.specs.Logs.{entry_at};
ghost use Rattle.site_state.specs.States.{draft_at, kept_at};
ghost use Rattle.host_replies.specs.Bodies.{answer_of};
ghost use Rattle.host_replies.specs.Replies.{Tells};
ghost use Rattle.host_answers.specs.Answers as answers;
ghost use Rattle.host_answers.specs.Answers.{OfDeploy, ShowsBy};
ghost use Rattle.host_answers.specs.Deploys as spec;

use crate::houses::House;
use crate::telling::no_such_deploy;
use change_log::Log;
use host_api::{DeployState, Items, Told};
use host_names::{Digest, SiteName};
use host_replies::Reply;
use site_change::{Command, Entry};
use std::alloc::{AllocError, Global};

/// The site of the deploy with this number: that of the entry that opened it.
pub(crate) fn site_of_deploy(log: &Log, number: u64) -> Option<SiteName>
    ensures { result ≡ spec.site_of_deploy (entry_at log.now number) }
{
    match log.entry(number) {
        Some(Entry::Change(Command::Open { site, .. })) => Some(site.copied()),
        _ => None,
    }
}

/// The reply that tells what an open deploy lacks.
fn tell_open(
    alloc: Global,
    number: u64,
    site: SiteName,
    required: Result<Items<Digest>, AllocError>,
) -> Reply
    ensures { Tells (answers.told_open number site required) (answer_of result) }
{
    match required {
        Ok(required) => Reply::of_told(
            alloc,
            &Told::Deploy {
                id: number,
                site,
                state: DeployState::Open { required },
            },
        ),
        Err(_) => Reply::out_of_memory(),
    }
}

/// The reply that tells of a deploy of the site.
fn show_in<H: House>(alloc: Global, house: &H, site: SiteName, number: u64) -> Reply
    ensures { let cells = (H.calls.seen house.now).state in
        ShowsBy H.calls house.now site number (draft_at cells site number) (kept_at cells site number)
        (answer_of result) house.now }
{
    let state = house.state();
    if let Some(draft) = state.draft(&site, number) {
        let required = house.missing(alloc, &draft.files);
        return tell_open(alloc, number, site, required);
    }
    if state.kept(&site, number).is_none() {
        return no_such_deploy();
    }
    Reply::of_told(
        alloc,
        &Told::Deploy {
            id: number,
            site,
            state: DeployState::Kept,
        },
    )
}

/// The reply that tells of a deploy.
pub(crate) fn show<H: House>(alloc: Global, house: &H, number: u64) -> Reply
    ensures { let cells = (H.calls.seen house.now).state in
        OfDeploy H.calls house.now number
        (λ site. ShowsBy H.calls house.now site number (draft_at cells site number) (kept_at cells site number))
        (answer_of result) house.now }
{
    match site_of_deploy(house.log(), number) {
        Some(site) => show_in(alloc, house, site, number),
        None => no_such_deploy(),
    }
}
