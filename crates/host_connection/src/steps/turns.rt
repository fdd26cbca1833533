//! The phases of a turn, each gone through as far as the stream doesn't have to wait.
ghost use Rattle.std.specs.Prelude.{◌≡◌, ◌≢◌, ◌≤◌, List, false, IsErrOf, IsTrue};
ghost use Rattle.http_wire.specs.Gathering.{nothing, IsCounted, SendsOn};
ghost use Rattle.http_wire.specs.Timing.{Event, Steps};
ghost use Rattle.host_connection.specs.Advancing.{size_in, Advances};
ghost use Rattle.host_connection.specs.Carrying.{text_of, until_asked, AnswersOne, Asks, Carried, Carries, FollowsHead, FollowsReply, FollowsStop, IsAnswering, IsReply, Leads, MayWait};
ghost use Rattle.host_connection.specs.declared.phases.Phase.TheVariants as phases;

use super::{Connection, Progress, Wants};
use crate::connections::ConnectionFault;
use crate::phases::{BodyPart, Invitation, Phase, Sending};
use crate::requests::Request;
use crate::services::Service;
use crate::stops::{Stop, announced};
use crate::wordings::Wording;
use host_replies::{Reply, is_head_only};
use http_wire::{Duplex, Halt, Head, Outgoing, WriteFailed, try_write_interim};
use std::alloc::Global;

/// How many requests a connection answers.
pub(super) const MOST_REQUESTS: u64 = 100;

/// What follows where no request was read.
pub(super) fn after_stop(why: Stop) -> Phase
    ensures { FollowsStop why result }
{
    match why {
        Stop::Ended => Phase::Ended(Ok(())),
        Stop::ReadFault => Phase::Ended(Err(ConnectionFault::InputFault)),
        Stop::WriteFault => Phase::Ended(Err(ConnectionFault::OutputFault)),
        Stop::Refused { why, head_only } => Phase::Reply(Sending {
            wording: Wording::Made(Reply::refusing(why)),
            close: true,
            head_only,
        }),
        Stop::OutOfMemory { head_only } => Phase::Reply(Sending {
            wording: Wording::Made(Reply::out_of_memory()),
            close: true,
            head_only,
        }),
    }
}

/// What follows a head.
fn after_head(alloc: Global, head: Head) -> Phase
    ensures { FollowsHead head result }
{
    let size = match announced(&head) {
        Ok(size) => size as usize,
        Err(why) => return after_stop(why),
    };
    if head.expects_continue() {
        return Phase::Invite(Invitation { head, size, at: 0 });
    }
    Phase::Body(BodyPart {
        head,
        size,
        body: Vec::new(alloc),
    })
}

impl Phase {
    // How many bytes the body has that is read next, or 0.
    fn size(&self) -> u64
        ensures { result ≡ size_in self.now }
    {
        match self {
            Phase::Invite(invitation) => invitation.size as u64,
            Phase::Body(part) => part.size as u64,
            _ => 0,
        }
    }
}

impl Sending {
    // Goes on with it, behind the bytes of it that were written, and with those that are gathered in `out`. It begins where `out` begins a text.
    fn go_on<D: Duplex>(&self, duplex: &mut D, out: &mut Outgoing) -> Result<(), Halt<WriteFailed>>
        requires { IsCounted out.old }
        ensures ran { SendsOn D.saw duplex.old duplex.new result (text_of self.now) out.old out.new }
        ensures led { (events : List Event) × Steps D.saw duplex.old events duplex.new }
        ensures waits { IsErrOf result Halt.WouldWait → D.waits duplex.new }
    {
        match &self.wording {
            Wording::Made(reply) => reply.try_send(duplex, out, self.close, self.head_only),
            Wording::Kept(text) => out.try_send(duplex, text.as_slice()),
        }
    }
}

impl Connection {
    // Reads a head, after which a body is read or a reply is sent.
    pub(super) fn read_head<D: Duplex, S: Service>(
        &mut self,
        alloc: Global,
        duplex: &mut D,
        _service: &S,
    ) -> Progress
        requires { self.old.phase ≡ phases.Head }
        ensures leads { (start : D) (first : S)
            → Carries S.answers D.saw (MayWait D.waits) start first duplex.old _service.now self.old
            → Leads S.answers D.saw (MayWait D.waits) D.waits start first duplex.new _service.now self.new result }
        ensures led { (events : List Event) × Steps D.saw duplex.old events duplex.new }
        ensures advances { Advances result self.old.number self.old.phase self.new.number self.new.phase }
        ensures at_once { result ≢ Progress.Postponed }
    {
        match self.wire.try_read_head(duplex) {
            Ok(head) => {
                // As `enter` does, without moving the phase on the way.
                self.out.begin();
                self.phase = after_head(alloc, head);
                let size = self.phase.size();
                if size > 0 {
                    return Progress::Body(size);
                }
                Progress::More
            }
            Err(Halt::Failed(fault)) => {
                self.enter(after_stop(Stop::of_head(fault)));
                Progress::More
            }
            Err(Halt::WouldWait) => Progress::Waits(Wants::Read),
        }
    }

    // Goes on with an interim reply, after which the body is read.
    pub(super) fn invite<D: Duplex, S: Service>(
        &mut self,
        alloc: Global,
        duplex: &mut D,
        _service: &S,
        invitation: Invitation,
    ) -> Progress
        ensures leads { (start : D) (first : S)
            → Carried S.answers D.saw (MayWait D.waits) start first duplex.old _service.now self.old.wire
            self.old.out self.old.number (phases.Invite invitation)
            → Leads S.answers D.saw (MayWait D.waits) D.waits start first duplex.new _service.now self.new result }
        ensures led { (events : List Event) × Steps D.saw duplex.old events duplex.new }
        ensures advances { Advances result self.old.number (phases.Invite invitation) self.new.number self.new.phase }
        ensures at_once { result ≢ Progress.Postponed }
    {
        let Invitation { head, size, mut at } = invitation;
        match try_write_interim(duplex, &mut at) {
            Ok(()) => {
                let body = Vec::new(alloc);
                self.enter(Phase::Body(BodyPart { head, size, body }));
                Progress::More
            }
            Err(Halt::Failed(_)) => {
                self.enter(after_stop(Stop::WriteFault));
                Progress::More
            }
            Err(Halt::WouldWait) => {
                self.stay(Phase::Invite(Invitation { head, size, at }));
                Progress::Waits(Wants::Write)
            }
        }
    }

    // Goes on with a body, after which the request is answered.
    pub(super) fn read_body<D: Duplex, S: Service>(
        &mut self,
        alloc: Global,
        duplex: &mut D,
        service: &mut S,
        part: BodyPart,
    ) -> Progress
        ensures leads { (start : D) (first : S)
            → Carried S.answers D.saw (MayWait D.waits) start first duplex.old service.old self.old.wire
            self.old.out self.old.number (phases.Body part)
            → Leads S.answers D.saw (MayWait D.waits) D.waits start first duplex.new service.new self.new result }
        ensures led { (events : List Event) × Steps D.saw duplex.old events duplex.new }
        ensures advances { Advances result self.old.number (phases.Body part) self.new.number self.new.phase }
        ensures asks { Asks S.answers service.old service.new (phases.Body part) self.new.phase }
        ensures later { result ≡ Progress.Postponed → S.postpones × (service.new ≡ service.old) }
        ensures grows { S.grows service.old service.new }
    {
        let BodyPart {
            head,
            size,
            mut body,
        } = part;
        match self.wire.try_read_body(duplex, &mut body, size) {
            Ok(()) => {
                let is_last = self.number == MOST_REQUESTS;
                let request = Request {
                    head,
                    body,
                    is_last,
                };
                if self.answer(alloc, service, &request) {
                    return Progress::More;
                }
                self.stay(Phase::Body(request.into_part()));
                Progress::Postponed
            }
            Err(Halt::Failed(fault)) => {
                let why = Stop::of_body(fault, is_head_only(&head));
                self.enter(after_stop(why));
                Progress::More
            }
            Err(Halt::WouldWait) => {
                self.stay(Phase::Body(BodyPart { head, size, body }));
                Progress::Waits(Wants::Read)
            }
        }
    }

    // Answers a request, and tells whether it did. Where the service leaves it for later, nothing changes.
    fn answer<S: Service>(&mut self, alloc: Global, service: &mut S, request: &Request) -> bool
        ensures wire { self.new.wire ≡ self.old.wire }
        ensures number { self.new.number ≡ self.old.number }
        ensures out { IsTrue result → self.new.out ≡ nothing }
        ensures answering { IsTrue result
            → IsAnswering S.answers service.old request.now service.new self.new.phase }
        ensures asks { IsTrue result → AnswersOne S.answers service.old service.new }
        ensures later { result ≡ false → S.postpones × (service.new ≡ service.old) × (self.new ≡ self.old) }
        ensures grows { S.grows service.old service.new }
    {
        let Some(reply) = service.answer(alloc, request) else {
            return false;
        };
        let head_only = is_head_only(&request.head);
        let close = request.closes();
        // As `enter` does, without moving the reply on the way.
        self.out.begin();
        self.phase = Phase::Reply(Sending {
            wording: Wording::Made(reply),
            close,
            head_only,
        });
        true
    }

    // Goes on with a reply, after which the next request is read, or the connection ends.
    pub(super) fn send<D: Duplex, S: Service>(&mut self, duplex: &mut D, _service: &S) -> Progress
        requires { IsReply self.old.phase }
        ensures leads { (start : D) (first : S)
            → Carries S.answers D.saw (MayWait D.waits) start first duplex.old _service.now self.old
            → Leads S.answers D.saw (MayWait D.waits) D.waits start first duplex.new _service.now self.new result }
        ensures led { (events : List Event) × Steps D.saw duplex.old events duplex.new }
        ensures advances { Advances result self.old.number self.old.phase self.new.number self.new.phase }
        ensures asks { 1 ≤ until_asked self.new.phase }
        ensures at_once { result ≢ Progress.Postponed }
    {
        let Phase::Reply(sending) = &self.phase else {
            unreachable!()
        };
        if !self.out.is_counted() {
            return Progress::Waits(Wants::Write);
        }
        let close = sending.close;
        match sending.go_on(duplex, &mut self.out) {
            Ok(()) => {
                self.follow(close);
                Progress::More
            }
            Err(Halt::Failed(_)) => {
                self.enter(Phase::Ended(Err(ConnectionFault::OutputFault)));
                Progress::More
            }
            Err(Halt::WouldWait) => Progress::Waits(Wants::Write),
        }
    }

    // Goes past a reply that is out. That to the last request ends the connection.
    fn follow(&mut self, close: bool)
        ensures wire { self.new.wire ≡ self.old.wire }
        ensures follows { FollowsReply close self.old.number self.new.number self.new.phase }
    {
        if close || self.number >= MOST_REQUESTS {
            self.phase = Phase::Ended(Ok(()));
        } else {
            self.number += 1;
            self.phase = Phase::Head;
        }
    }
}
