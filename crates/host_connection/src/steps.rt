//! A connection that goes on where it left off, step by step.
ghost use Rattle.std.specs.Prelude.{◌≡◌, List, IfOk};
ghost use Rattle.http_wire.specs.Gathering.{nothing};
ghost use Rattle.http_wire.specs.Timing.{Event, Steps};
ghost use Rattle.host_connection.specs.Advancing.{phases_left, Advances, Goes, IsBody, RemembersMemory, TellsBody};
ghost use Rattle.host_connection.specs.Carrying.{until_asked, AnswersOnce, Asks, Carries, IsFresh, Leads, MayWait};
ghost use Rattle.host_connection.specs.Resting.{IsResting};

mod recalls;
mod stages;
mod turns;

use crate::connections::ConnectionFault;
use crate::meters::Metered;
use crate::phases::Phase;
use crate::services::Service;
use http_wire::{Duplex, Outgoing, Wire};
pub use stages::Stage;
use std::alloc::{AllocError, Global};
use std::mem;

/// How many phases a step goes through at most: so it begins one answer at most, and goes on to its end.
const PHASES: u64 = 3;

/// What a connection waits for.
#[derive(Clone, Copy, Debug, PartialEq, Eq)]
pub enum Wants {
    /// To read more of a head or of a body.
    Read,
    /// To write more of a reply.
    Write,
}

/// How a step of a connection ended.
#[derive(Clone, Copy, Debug, PartialEq, Eq)]
pub enum Progress {
    /// The stream would have to wait.
    Waits(Wants),
    /// It may go on at once.
    More,
    /// It may go on at once, with a body of this many bytes, of which it has taken none.
    Body(u64),
    /// The request is whole, and the service answers it later. A further step asks again.
    Postponed,
    /// The connection ended. Further steps do nothing.
    Ended(Result<(), ConnectionFault>),
}

/// A connection between two steps.
#[derive(Drop)]
pub struct Connection {
    pub(crate) wire: Wire,
    out: Outgoing,
    /// The number of the request that it is at.
    pub(crate) number: u64,
    pub(crate) phase: Phase,
}

impl Connection {
    /// A connection that has read nothing. It takes all the room for heads and for replies at once.
    pub fn new(alloc: Global) -> Result<Connection, AllocError>
        ensures { IfOk result (λ c. IsFresh c) }
    {
        Connection::rested(alloc, 1)
    }

    /// A connection that rests before the request of this number. It takes all the room for heads and for replies at once.
    pub fn rested(alloc: Global, number: u64) -> Result<Connection, AllocError>
        ensures { IfOk result (IsResting number) }
    {
        Ok(Connection {
            wire: Wire::new(alloc)?,
            out: Outgoing::new(alloc)?,
            number,
            phase: Phase::Head,
        })
    }

    /// Goes on where the last step left off: reads what is there, answers a request, and writes what the stream takes. A step begins one answer at
    /// most, reads 262,144 bytes at most and writes 1,179,648 at most. Then it may go on at once: but only finitely often without a byte that is read or
    /// written.
    ///
    /// Before it reads a body that isn't empty, it tells once how long that is. It waits only where the stream has to, to read while no whole head
    /// or body has come, and to write while some of a reply is left. Where the service leaves a request for later, the step ends so, with the request
    /// whole; each further step asks the service again, and reads and writes nothing before.
    pub fn go_on<D: Duplex, S: Service>(
        &mut self,
        alloc: Global,
        duplex: &mut Metered<D>,
        service: &mut S,
    ) -> Progress
        ensures leads { (start : D) (first : S)
            → Carries S.answers D.saw (Unit {0}) start first duplex.old.stream service.old self.old
            → Leads S.answers D.saw (Unit {0}) D.waits start first duplex.new.stream service.new self.new result }
        ensures goes { Goes D.saw duplex.old.stream duplex.new.stream result
            (phases_left self.old.number self.old.phase) (phases_left self.new.number self.new.phase) }
        ensures tells { TellsBody result self.old.number self.old.phase self.new.number self.new.phase }
        ensures memory { RemembersMemory self.old.phase self.new.phase }
        ensures asks { AnswersOnce S.answers service.old service.new }
        ensures later { result ≡ Progress.Postponed → S.postpones × (service.new ≡ service.old) }
        ensures grows { S.grows service.old service.new }
    {
        duplex.begin();
        match self.go_through(alloc, duplex, service) {
            Progress::Waits(wants) => {
                if duplex.is_used_up() {
                    Progress::More
                } else {
                    Progress::Waits(wants)
                }
            }
            progress => progress,
        }
    }

    // Goes through some phases. A reply that the service keeps is sent before the request is read further than its head.
    fn go_through<D: Duplex, S: Service>(
        &mut self,
        alloc: Global,
        duplex: &mut D,
        service: &mut S,
    ) -> Progress
        ensures leads { (start : D) (first : S)
            → Carries S.answers D.saw (MayWait D.waits) start first duplex.old service.old self.old
            → Leads S.answers D.saw (MayWait D.waits) D.waits start first duplex.new service.new self.new result }
        ensures led { (events : List Event) × Steps D.saw duplex.old events duplex.new }
        ensures advances { Advances result self.old.number self.old.phase self.new.number self.new.phase }
        ensures asks { AnswersOnce S.answers service.old service.new }
        ensures later { result ≡ Progress.Postponed → S.postpones × (service.new ≡ service.old) }
        ensures grows { S.grows service.old service.new }
    {
        match self.recall(duplex, service) {
            Some(progress) => progress,
            None => self.go_through_phases(alloc, duplex, service),
        }
    }

    // Goes through some phases, with no reply that is kept.
    fn go_through_phases<D: Duplex, S: Service>(
        &mut self,
        alloc: Global,
        duplex: &mut D,
        service: &mut S,
    ) -> Progress
        ensures leads { (start : D) (first : S)
            → Carries S.answers D.saw (MayWait D.waits) start first duplex.old service.old self.old
            → Leads S.answers D.saw (MayWait D.waits) D.waits start first duplex.new service.new self.new result }
        ensures led { (events : List Event) × Steps D.saw duplex.old events duplex.new }
        ensures advances { Advances result self.old.number self.old.phase self.new.number self.new.phase }
        ensures asks { AnswersOnce S.answers service.old service.new }
        ensures later { result ≡ Progress.Postponed → S.postpones × (service.new ≡ service.old) }
        ensures grows { S.grows service.old service.new }
    {
        'phases: for _ in 0..PHASES {
            match self.pass(alloc, duplex, service) {
                Progress::More => {}
                progress => return progress,
            }
        }
        Progress::More
    }

    // Goes through the phase that it is in.
    pub(crate) fn pass<D: Duplex, S: Service>(
        &mut self,
        alloc: Global,
        duplex: &mut D,
        service: &mut S,
    ) -> Progress
        ensures leads { (start : D) (first : S)
            → Carries S.answers D.saw (MayWait D.waits) start first duplex.old service.old self.old
            → Leads S.answers D.saw (MayWait D.waits) D.waits start first duplex.new service.new self.new result }
        ensures led { (events : List Event) × Steps D.saw duplex.old events duplex.new }
        ensures advances { Advances result self.old.number self.old.phase self.new.number self.new.phase }
        ensures asks { Asks S.answers service.old service.new self.old.phase self.new.phase }
        ensures later { result ≡ Progress.Postponed
            → S.postpones × (service.new ≡ service.old) × (until_asked self.old.phase ≡ 0) }
        ensures grows { S.grows service.old service.new }
    {
        match &self.phase {
            Phase::Head => self.read_head(alloc, duplex, service),
            Phase::Invite(_) => self.go_through_body(alloc, duplex, service),
            Phase::Body(_) => self.go_through_body(alloc, duplex, service),
            Phase::Reply(_) => self.send(duplex, service),
            Phase::Ended(result) => Progress::Ended(*result),
        }
    }

    // Goes through an interim reply or a body.
    fn go_through_body<D: Duplex, S: Service>(
        &mut self,
        alloc: Global,
        duplex: &mut D,
        service: &mut S,
    ) -> Progress
        requires { IsBody self.old.phase }
        ensures leads { (start : D) (first : S)
            → Carries S.answers D.saw (MayWait D.waits) start first duplex.old service.old self.old
            → Leads S.answers D.saw (MayWait D.waits) D.waits start first duplex.new service.new self.new result }
        ensures led { (events : List Event) × Steps D.saw duplex.old events duplex.new }
        ensures advances { Advances result self.old.number self.old.phase self.new.number self.new.phase }
        ensures asks { Asks S.answers service.old service.new self.old.phase self.new.phase }
        ensures later { result ≡ Progress.Postponed
            → S.postpones × (service.new ≡ service.old) × (until_asked self.old.phase ≡ 0) }
        ensures grows { S.grows service.old service.new }
    {
        match mem::replace(&mut self.phase, Phase::Head) {
            Phase::Invite(invitation) => self.invite(alloc, duplex, service, invitation),
            Phase::Body(part) => self.read_body(alloc, duplex, service, part),
            _ => unreachable!(),
        }
    }

    // Stays in a phase, with what is gathered.
    fn stay(&mut self, phase: Phase)
        ensures { self.new
            ≡ record { wire = self.old.wire; out = self.old.out; number = self.old.number; phase = phase } }
    {
        self.phase = phase;
    }

    // Enters another phase, with nothing gathered.
    fn enter(&mut self, phase: Phase)
        ensures { self.new
            ≡ record { wire = self.old.wire; out = nothing; number = self.old.number; phase = phase } }
    {
        self.out.begin();
        self.stay(phase);
    }
}
