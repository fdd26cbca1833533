//! The connection of a peer that goes on where it left off, step by step.
ghost use Rattle.std.specs.Prelude.{◌≡◌, [], IfOk, IsErrOf};
ghost use Rattle.std.specs.Io.KnownBytes.{Appends, Keeps, prepend_known};
ghost use Rattle.http_wire.specs.Gathering.{nothing};
ghost use Rattle.http_wire.specs.HeadText.{CutShort};
ghost use Rattle.http_wire.specs.Wires.{ServesHead};
ghost use Rattle.peer_link.specs.Answers.{Known};
ghost use Rattle.peer_link.specs.Carrying.{Carries, FollowsAnswer, FollowsHead, IsAnswer, IsAnswerTo, IsFresh, Leads};
ghost use Rattle.peer_link.specs.Stages.{head_stage, stage_of};
ghost use Rattle.peer_link.specs.declared.phases.PeerPhase.TheVariants as phases;

use crate::answers::{LocalChunks, MOST_REQUESTS, chunk_for, is_last, request};
use crate::faults::ServeFault;
use crate::phases::{PeerAnswer, PeerPhase};
use http_wire::{Duplex, Halt, Head, HeadFault, Outgoing, Wire};
use std::alloc::{AllocError, Global};
use std::sync::Wait;

/// What the connection of a peer waits for.
#[derive(Clone, Copy, Debug, PartialEq, Eq)]
pub enum PeerWants {
    /// To read more of a request.
    Read,
    /// To write more of an answer.
    Write,
}

/// How a step of the connection of a peer ended.
#[derive(Clone, Copy, Debug, PartialEq, Eq)]
pub enum PeerProgress {
    /// The stream has to wait.
    Waits(PeerWants),
    /// It may go on at once.
    More,
    /// The connection ended. Further steps do nothing.
    Ended(Result<(), ServeFault>),
}

/// What the connection of a peer is doing.
#[derive(Clone, Copy, Debug, PartialEq, Eq)]
pub enum PeerStage {
    /// Nothing of the next request has come.
    Idle,
    /// A part of a request has come.
    Head,
    /// An answer is on its way.
    Answer,
    Ended,
}

// Reads what is there of the next head, and writes nothing.
fn try_read_head<D: Duplex>(wire: &mut Wire, duplex: &mut D) -> Result<Head, Halt<HeadFault>>
    ensures kept { Appends (D.held duplex.old) (D.held duplex.new) [] }
    ensures head { IfOk result
        (ServesHead (prepend_known wire.old (D.left duplex.old)) (prepend_known wire.new (D.left duplex.new))) }
    ensures came { IsErrOf result Halt.WouldWait
        → Keeps (prepend_known wire.old (D.left duplex.old)) (prepend_known wire.new (D.left duplex.new)) }
    ensures failed { IsErrOf result (Halt.Failed HeadFault.ReadFault) → D.read_fails }
    ensures waits { IsErrOf result Halt.WouldWait → D.waits duplex.new }
    ensures short { IsErrOf result Halt.WouldWait → CutShort wire.new }
{
    wire.try_read_head(duplex)
}

// What a connection is doing that reads a head, of which this many bytes are there.
fn head_stage(buffered: usize) -> PeerStage
    ensures { result ≡ head_stage buffered }
{
    match buffered {
        0 => PeerStage::Idle,
        _ => PeerStage::Head,
    }
}

/// The connection of a peer between two steps. Its steps answer the same requests as `serve_peer`, by the same bytes.
#[derive(Drop)]
pub struct PeerConnection {
    wire: Wire,
    out: Outgoing,
    /// The number of the request that it is at.
    number: u32,
    phase: PeerPhase,
}

impl PeerConnection {
    /// A connection that has read nothing. It takes all the room for heads and for answers at once.
    pub fn new(alloc: Global) -> Result<PeerConnection, AllocError>
        ensures { IfOk result (λ c. IsFresh c) }
    {
        Ok(PeerConnection {
            wire: Wire::new(alloc)?,
            out: Outgoing::new(alloc)?,
            number: 1,
            phase: PeerPhase::Head,
        })
    }

    /// What the connection is doing. It takes no memory.
    pub fn stage(&self) -> PeerStage
        ensures { result ≡ stage_of self.now }
    {
        match &self.phase {
            PeerPhase::Head => head_stage(self.wire.bytes().len()),
            PeerPhase::Answer(_) => PeerStage::Answer,
            PeerPhase::Ended(_) => PeerStage::Ended,
        }
    }

    /// Goes on where the last step left off: reads what is there of a request, gets the chunk that it asks for, and writes what the stream takes. A step reads
    /// one head at most and writes one answer at most, so it moves fewer than 131,072 bytes.
    ///
    /// It waits only where the stream has to, to read while no whole head has come, and to write while an answer is on its way. The chunk may have to be
    /// loaded: for that it waits itself, by its handle.
    pub fn go_on<R: Wait, D: Duplex, C: LocalChunks>(
        &mut self,
        rt: &R,
        duplex: &mut D,
        chunks: &C,
    ) -> PeerProgress
        ensures leads { (first : Known)
            → Carries D.read_fails D.write_fails first (D.left duplex.old) (D.held duplex.old) self.old
            → Leads D.read_fails D.write_fails (D.waits duplex.new) first (D.left duplex.new) (D.held duplex.new) self.new result }
    {
        match self.pass(rt, duplex, chunks) {
            PeerProgress::More => self.pass(rt, duplex, chunks),
            progress => progress,
        }
    }

    // Goes through the phase that it is in.
    fn pass<R: Wait, D: Duplex, C: LocalChunks>(
        &mut self,
        rt: &R,
        duplex: &mut D,
        chunks: &C,
    ) -> PeerProgress
        ensures leads { (first : Known)
            → Carries D.read_fails D.write_fails first (D.left duplex.old) (D.held duplex.old) self.old
            → Leads D.read_fails D.write_fails (D.waits duplex.new) first (D.left duplex.new) (D.held duplex.new) self.new result }
    {
        match &self.phase {
            PeerPhase::Head => self.read(rt, duplex, chunks),
            PeerPhase::Answer(_) => self.send(duplex),
            PeerPhase::Ended(result) => PeerProgress::Ended(*result),
        }
    }

    // Reads a head, after which an answer is sent.
    fn read<R: Wait, D: Duplex, C: LocalChunks>(
        &mut self,
        rt: &R,
        duplex: &mut D,
        chunks: &C,
    ) -> PeerProgress
        requires { self.old.phase ≡ phases.Head }
        ensures leads { (first : Known)
            → Carries D.read_fails D.write_fails first (D.left duplex.old) (D.held duplex.old) self.old
            → Leads D.read_fails D.write_fails (D.waits duplex.new) first (D.left duplex.new) (D.held duplex.new) self.new result }
    {
        match try_read_head(&mut self.wire, duplex) {
            Ok(head) => self.follow_head(rt, chunks, Ok(head)),
            Err(Halt::Failed(fault)) => self.follow_head(rt, chunks, Err(fault)),
            Err(Halt::WouldWait) => PeerProgress::Waits(PeerWants::Read),
        }
    }

    // Goes past a head that was read; or ends, if none was.
    fn follow_head<R: Wait, C: LocalChunks>(
        &mut self,
        rt: &R,
        chunks: &C,
        read: Result<Head, HeadFault>,
    ) -> PeerProgress
        ensures wire { self.new.wire ≡ self.old.wire }
        ensures follows { FollowsHead read self.new.out self.new.phase result }
    {
        match request(read) {
            Ok(Some(head)) => self.answer(rt, chunks, &head),
            Ok(None) => self.end(Ok(())),
            Err(fault) => self.end(Err(fault)),
        }
    }

    // Answers a request.
    fn answer<R: Wait, C: LocalChunks>(&mut self, rt: &R, chunks: &C, head: &Head) -> PeerProgress
        ensures more { result ≡ PeerProgress.More }
        ensures wire { self.new.wire ≡ self.old.wire }
        ensures out { self.new.out ≡ nothing }
        ensures answering { IsAnswerTo head.now self.new.phase }
    {
        self.out.begin();
        self.phase = PeerPhase::Answer(PeerAnswer {
            chunk: chunk_for(rt, chunks, head),
            close: is_last(head),
        });
        PeerProgress::More
    }

    // Goes on with an answer, after which the next request is read, or the connection ends.
    fn send<D: Duplex>(&mut self, duplex: &mut D) -> PeerProgress
        requires { IsAnswer self.old.phase }
        ensures leads { (first : Known)
            → Carries D.read_fails D.write_fails first (D.left duplex.old) (D.held duplex.old) self.old
            → Leads D.read_fails D.write_fails (D.waits duplex.new) first (D.left duplex.new) (D.held duplex.new) self.new result }
    {
        let PeerPhase::Answer(answer) = &self.phase else {
            unreachable!()
        };
        if !self.out.is_counted() {
            return PeerProgress::Waits(PeerWants::Write);
        }
        let close = answer.close;
        match answer.go_on(duplex, &mut self.out) {
            Ok(()) => self.follow_answer(close),
            Err(Halt::Failed(_)) => self.end(Err(ServeFault::WriteFault)),
            Err(Halt::WouldWait) => PeerProgress::Waits(PeerWants::Write),
        }
    }

    // Goes past an answer that is out. That to the last request ends the connection.
    fn follow_answer(&mut self, close: bool) -> PeerProgress
        ensures wire { self.new.wire ≡ self.old.wire }
        ensures follows { FollowsAnswer close self.old.number self.new.number self.new.phase result }
    {
        if close || self.number >= MOST_REQUESTS {
            return self.end(Ok(()));
        }
        self.number += 1;
        self.phase = PeerPhase::Head;
        PeerProgress::More
    }

    // Ends.
    fn end(&mut self, why: Result<(), ServeFault>) -> PeerProgress
        ensures ended { result ≡ PeerProgress.Ended why }
        ensures phase { self.new.phase ≡ PeerPhase.Ended why }
        ensures wire { self.new.wire ≡ self.old.wire }
        ensures number { self.new.number ≡ self.old.number }
    {
        self.phase = PeerPhase::Ended(why);
        PeerProgress::Ended(why)
    }
}
