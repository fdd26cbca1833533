//! Replies that a service keeps, sent again.
ghost use Rattle.std.specs.Prelude.{◌≡◌, ◌≢◌, ◌<◌, ◌≤◌, drop, length, take, List, IfNone, IfSome, MatchBool, MatchOption};
ghost use Rattle.http_wire.specs.Gathering.{nothing};
ghost use Rattle.http_wire.specs.HeadText.{head_limit};
ghost use Rattle.http_wire.specs.Timing.{Event, Steps};
ghost use Rattle.host_connection.specs.Advancing.{Advances, IsAsBefore};
ghost use Rattle.host_connection.specs.Carrying.{AnswersOnce, BeginsAgain, Carries, Leads, MayWait};
ghost use Rattle.host_connection.specs.declared.phases.Phase.TheVariants as phases;

use super::turns::{MOST_REQUESTS, after_stop};
use super::{Connection, Progress, Wants};
use crate::phases::{Phase, Sending};
use crate::services::Service;
use crate::stops::Stop;
use crate::wordings::Wording;
use http_wire::{Duplex, Halt};

impl Connection {
    // Where a head comes next, reads until it is whole, and sends the reply to it if the service keeps that. If not, the connection goes on as after any read.
    // The last request of a connection is answered anew, since the connection ends after it.
    pub(super) fn recall<D: Duplex, S: Service>(
        &mut self,
        duplex: &mut D,
        service: &mut S,
    ) -> Option<Progress>
        ensures leads { (start : D) (first : S)
            → Carries S.answers D.saw (MayWait D.waits) start first duplex.old service.old self.old
            → MatchOption result
            (Carries S.answers D.saw (MayWait D.waits) start first duplex.new service.new self.new)
            (Leads S.answers D.saw (MayWait D.waits) D.waits start first duplex.new service.new self.new) }
        ensures led { (events : List Event) × Steps D.saw duplex.old events duplex.new }
        ensures advances { MatchOption result
            (IsAsBefore self.old.number self.old.phase self.new.number self.new.phase)
            (λ progress. Advances progress self.old.number self.old.phase self.new.number self.new.phase) }
        ensures asks { AnswersOnce S.answers service.old service.new }
        ensures none { IfNone result (service.new ≡ service.old) }
        ensures at_once { IfSome result (λ progress. progress ≢ Progress.Postponed) }
        ensures grows { S.grows service.old service.new }
    {
        if self.number >= MOST_REQUESTS {
            return None;
        }
        match &self.phase {
            Phase::Head => self.read_again(duplex, service),
            _ => None,
        }
    }

    // The same in a head that isn't that of the last request.
    fn read_again<D: Duplex, S: Service>(
        &mut self,
        duplex: &mut D,
        service: &mut S,
    ) -> Option<Progress>
        requires head { self.old.phase ≡ phases.Head }
        requires not_last { self.old.number < 100 }
        ensures leads { (start : D) (first : S)
            → Carries S.answers D.saw (MayWait D.waits) start first duplex.old service.old self.old
            → MatchOption result
            (Carries S.answers D.saw (MayWait D.waits) start first duplex.new service.new self.new)
            (Leads S.answers D.saw (MayWait D.waits) D.waits start first duplex.new service.new self.new) }
        ensures led { (events : List Event) × Steps D.saw duplex.old events duplex.new }
        ensures advances { MatchOption result
            (IsAsBefore self.old.number self.old.phase self.new.number self.new.phase)
            (λ progress. Advances progress self.old.number self.old.phase self.new.number self.new.phase) }
        ensures asks { AnswersOnce S.answers service.old service.new }
        ensures none { IfNone result (service.new ≡ service.old) }
        ensures at_once { IfSome result (λ progress. progress ≢ Progress.Postponed) }
        ensures grows { S.grows service.old service.new }
    {
        match self.wire.try_find_head(duplex) {
            Ok(count) => {
                if !self.begin_again(service, count) {
                    return None;
                }
                Some(self.send(duplex, service))
            }
            Err(Halt::Failed(fault)) => {
                self.enter(after_stop(Stop::of_head(fault)));
                None
            }
            Err(Halt::WouldWait) => Some(Progress::Waits(Wants::Read)),
        }
    }

    // Begins the reply to the head of so many bytes that came, if the service keeps it, and tells whether it did.
    fn begin_again<S: Service>(&mut self, service: &mut S, count: usize) -> bool
        requires { count ≤ length self.old.wire }
        ensures begun { MatchBool result
            (BeginsAgain S.answers service.old (take count self.old.wire) service.new self.new.phase
            × (self.new.wire ≡ drop count self.old.wire) × (self.new.out ≡ nothing))
            ((service.new ≡ service.old) × (self.new ≡ self.old)) }
        ensures number { self.new.number ≡ self.old.number }
        ensures fits { length self.old.wire ≤ head_limit }
        ensures grows { S.grows service.old service.new }
    {
        match service.recall(&self.wire.bytes()[..count]) {
            Some(text) => {
                self.wire.skip(count);
                self.out.begin();
                self.phase = Phase::Reply(Sending {
                    wording: Wording::Kept(text),
                    close: false,
                    head_only: false,
                });
                true
            }
            None => false,
        }
    }
}
