//! What is told of a call.
ghost use Rattle.std.specs.Prelude.{◌≡◌, false};
ghost use Rattle.site_change.specs.declared.refusals.ChangeRefusal.TheVariants.{NoSuchDeploy};
ghost use Rattle.host_api.specs.declared.refusals.Refusal.TheVariants as reason;
ghost use Rattle.host_replies.specs.Bodies.{answer_of};
ghost use Rattle.host_replies.specs.Replies.{Tells, refused_answer};
ghost use Rattle.host_answers.specs.Answers as spec;

use crate::stops::Stop;
use host_api::{Refusal, Told};
use host_replies::Reply;
use site_change::ChangeRefusal;
use std::alloc::Global;

/// The reply that refuses a request.
pub(crate) fn refuse(alloc: Global, why: Refusal) -> Reply
    ensures { Tells (Told.Refused why) (answer_of result) }
{
    Reply::of_told(alloc, &Told::Refused(why))
}

/// The reply that there is no such deploy. It takes no memory.
pub(crate) fn no_such_deploy() -> Reply
    ensures { answer_of result ≡ refused_answer (reason.Change NoSuchDeploy) }
{
    Reply::plain(Refusal::Change(ChangeRefusal::NoSuchDeploy))
}

/// The reply that tells an entry's number, or why there is none.
pub(crate) fn tell_entry(alloc: Global, done: Result<u64, Stop>) -> Reply
    ensures { Tells (spec.told_entry done) (answer_of result) }
{
    match done {
        Ok(number) => Reply::of_told(alloc, &Told::Entered { number }),
        Err(why) => refuse(alloc, why.into()),
    }
}
