//! Peers over TCP.
ghost use Rattle.std.specs.Prelude.{◌≡◌, ◌≤◌, IfOk, IfSome, IsSome, None, Some, length, slice_get, vec_len, ⊤};
ghost use Rattle.peer_link.specs.PeerPlaces.{IsReached};

use crate::asks::{AskFault, CHUNK_LIMIT, ask};
use crate::links::{PeerFault, PeerLink};
use crate::peer_streams::connect_to;
use crate::peers::Peer;
use crate::timed::{Budget, TimedReads, TimedWrites};
use host_names::Digest;
use http_wire::Pair;
use operator_notices::Notices;
use std::alloc::{AllocError, Global};
use std::net::{Net, TcpStream};
use std::time::{Clock, Duration};

/// How many seconds the fetches through a link take at most, their connections included: a peer that gives nothing, or little by little, holds nobody
/// longer.
const BUDGET_SECONDS: u64 = 2;

/// The peers of a ring over TCP, in the order of their places. Each fetch has a connection of its own.
///
/// All fetches through one link have one budget of two seconds. It begins with the first fetch that asks a peer; once it is over, no peer is asked any more.
/// A copy of a link has the same budget if that has begun, and else one of its own.
///
/// After a fault a peer is passed over for five seconds; then one fetch tries it, while others still pass it over. A fault is a peer that can't be reached,
/// that gives no whole answer in time, or something that is no answer. It is none if there is no memory, or if only the budget is over, of which earlier
/// fetches had a part. An answer that there is no such chunk is an answer.
pub struct TcpLink<'a, R> {
    alloc: Global,
    rt: &'a R,
    peers: &'a [Peer],
    notices: &'a Notices,
    /// When the budget is over, by the clock, once it has begun.
    end: Option<Duration>,
}

impl<'a, R> TcpLink<'a, R> {
    /// The link to these peers, whose budget hasn't begun. The operator is told of each peer that is passed over, and of each that answers again.
    pub fn new(alloc: Global, rt: &'a R, peers: &'a [Peer], notices: &'a Notices) -> TcpLink<'a, R>
        ensures peers { result.peers.now ≡ peers.now }
        ensures fresh { result.end ≡ None }
    {
        TcpLink {
            alloc,
            rt,
            peers,
            notices,
            end: None,
        }
    }
}

impl<R> Copy for TcpLink<'_, R> {}

impl<R> Clone for TcpLink<'_, R> {
    ghost is_clone = { λ link copy. copy ≡ link };

    ghost is_infallible = { λ _. ⊤ };

    fn clone(&self) -> Result<Self, AllocError> {
        Ok(*self)
    }
}

/// A time of a clock, in milliseconds.
fn milliseconds(time: Duration) -> u64 {
    u64::try_from(time.as_millis()).unwrap_or(u64::MAX)
}

/// A fetch that may ask the peer at a place.
#[derive(Drop)]
struct Fetch<'a, R> {
    peers: &'a [Peer],
    place: usize,
    peer: &'a Peer,
    budget: Budget<'a, R>,
    /// Whether the budget begins with it.
    is_first: bool,
}

impl<R: Net<Stream = TcpStream> + Clock> Fetch<'_, R> {
    /// Asks the peer for a chunk, over a new connection.
    fn ask(&self, rt: &R, alloc: Global, key: &Digest) -> Result<Vec<u8>, AskFault>
        ensures within { IfOk result (λ bytes. vec_len bytes ≤ CHUNK_LIMIT) }
        ensures reached { IfOk result (λ _. IsReached self.now.peers.now self.now.place) }
    {
        let left = self.budget.left().ok_or(AskFault::NoAnswer)?;
        let Ok(made) = connect_to(rt, self.peers, self.place, left) else {
            return Err(AskFault::NoAnswer);
        };
        let stream = made.stream();
        let mut duplex = Pair {
            source: TimedReads {
                stream,
                budget: &self.budget,
            },
            sink: TimedWrites {
                stream,
                budget: &self.budget,
            },
        };
        ask(alloc, &mut duplex, key)
    }

    /// Whether it is a fault of the peer that it didn't answer: it had the whole budget, or there is time left.
    fn blames_peer(&self) -> bool {
        self.is_first || self.budget.left().is_some()
    }
}

impl<'a, R: Net<Stream = TcpStream> + Clock> TcpLink<'a, R> {
    /// A fetch from the peer at a place, unless the budget is over or the peer is passed over.
    fn begin(&mut self, place: usize) -> Option<Fetch<'a, R>>
        ensures began { IfSome result (λ _. IsSome self.new.end) }
        ensures one { IsSome self.old.end → self.new.end ≡ self.old.end }
        ensures place { IfSome result (λ fetch. (fetch.peers.now ≡ self.old.peers.now) × (fetch.place ≡ place)) }
        ensures peer { IfSome result (λ fetch. slice_get self.old.peers.now place ≡ Some fetch.peer.now) }
    {
        let peers = self.peers;
        let peer = peers.get(place)?;
        let now = self.rt.monotonic().ok()?;
        let whole = now.saturating_add(Duration::from_secs(BUDGET_SECONDS));
        let end = self.end.unwrap_or(whole);
        if end <= now || !peer.admits(milliseconds(now)) {
            return None;
        }
        let is_first = self.end.is_none();
        self.end = Some(end);
        Some(Fetch {
            peers,
            place,
            peer,
            budget: Budget::new(self.rt, end),
            is_first,
        })
    }

    /// Notes what a fetch that gave no bytes tells of its peer.
    fn note_fault(&self, fetch: &Fetch<'_, R>, fault: AskFault) {
        match fault {
            AskFault::NoChunk => fetch.peer.note_answer(self.notices),
            AskFault::NoAnswer if fetch.blames_peer() => {
                if let Ok(now) = self.rt.monotonic() {
                    fetch.peer.note_fault(milliseconds(now), self.notices);
                }
            }
            AskFault::NoAnswer | AskFault::OutOfMemory => {}
        }
    }
}

/// A fetch ends when the budget of the link is over, and what it gives has no more bytes than a chunk, and comes over a connection to the peer at that place. A
/// budget that has begun stays as it is.
impl<R: Net<Stream = TcpStream> + Clock> PeerLink for TcpLink<'_, R> {
    ghost use Rattle.peer_link.specs.declared.asks.TheConstants.{CHUNK_LIMIT};
    ghost use Rattle.peer_link.specs.PeerPlaces.{IsReached};

    ghost fetched = { λ old place _ given new. IfSome given (λ bytes. (length bytes ≤ CHUNK_LIMIT) × IsSome new.end × IsReached old.peers.now place)
        × (IsSome old.end → new.end ≡ old.end) };

    fn fetch(&mut self, place: usize, key: &Digest) -> Result<Vec<u8>, PeerFault> {
        let fetch = self.begin(place).ok_or(PeerFault)?;
        match fetch.ask(self.rt, self.alloc, key) {
            Ok(bytes) => {
                fetch.peer.note_answer(self.notices);
                Ok(bytes)
            }
            Err(fault) => {
                self.note_fault(&fetch, fault);
                Err(PeerFault)
            }
        }
    }
}
