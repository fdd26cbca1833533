//! What a request is answered.
ghost use Rattle.host_replies.specs.Bodies.{answer_of};
ghost use Rattle.host_answers.specs.Answers.{AnswersBy, DoesBy};

use crate::change_lists::show_changes;
use crate::commands::{cancel, change, remove_deploy, undo};
use crate::deploys::show;
use crate::houses::House;
use crate::reads::read;
use crate::telling::refuse;
use crate::uploads::upload;
use host_api::Ask;
use host_replies::Reply;
use http_wire::Head;
use std::alloc::Global;

/// The reply to a request, and what calls of the house do for it: one look, and then what the request asks for, over what the look shows. A
/// request that asks for nothing is told why, and no call is made. If memory runs out the reply says so; what was done before remains: an
/// entry, an opening without its publish, an upload. Each reason against a request is found before memory is taken for it.
pub fn answer<H: House>(alloc: Global, house: &mut H, head: &Head, body: &[u8]) -> Reply
    ensures by { AnswersBy H.calls H.gave H.failed house.old head.now body.now (answer_of result) house.new }
    ensures replied { H.answers house.old head.now body.now (answer_of result) house.new }
    ensures grows { H.grows house.old house.new }
{
    let ask = match house.asked_for(alloc, head, body) {
        Ok(ask) => ask,
        Err(why) => return refuse(alloc, why),
    };
    if house.look().is_err() {
        return Reply::out_of_memory();
    }
    match ask {
        // Most requests ask for a read. Its reply is returned at once, and not moved once more with those of the others.
        Ask::Read {
            site,
            version,
            path,
        } => return read(alloc, house, head, &site, &version, &path),
        Ask::Command(command) => change(alloc, house, command),
        Ask::Undo { site, change } => undo(alloc, house, &site, change),
        Ask::Changes { site } => show_changes(alloc, house, &site),
        Ask::Deploy { deploy } => show(alloc, house, deploy),
        Ask::RemoveDeploy { deploy } => remove_deploy(alloc, house, deploy),
        Ask::Cancel { deploy } => cancel(alloc, house, deploy),
        Ask::Upload { deploy, path } => upload(alloc, house, deploy, &path, body),
    }
}
