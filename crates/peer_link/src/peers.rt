//! The peers of a node, and which of them it passes over.
ghost use Rattle.std.specs.Prelude.{◌≡◌, ◌+◌, ◌-◌, ◌^◌, min};

use operator_notices::{Kind, Notices, Text};
use std::fmt::Write;
use std::net::SocketAddr;
use std::sync::atomic::{AtomicU64, Ordering};

/// How many milliseconds a peer is passed over after a fault.
const PASSED_OVER: u64 = 5_000;

/// The time until which a peer is passed over while it isn't.
const NEVER: u64 = 0;

/// Another node, as one node knows it: where it is asked, and until when it is passed over after a fault. The threads of the node share it.
#[derive(Drop)]
pub struct Peer {
    address: SocketAddr,
    /// In milliseconds of the clock, or `NEVER`.
    passed_until: AtomicU64,
}

// Until when a peer is passed over whose fault is noted at this time, in milliseconds.
fn end_of_passing(now: u64) -> u64
    ensures { result ≡ min (now + 5000) (2 ^ 64 - 1) }
{
    now.saturating_add(PASSED_OVER)
}

impl Peer {
    /// The peer at this address. It isn't passed over.
    pub fn new(address: SocketAddr) -> Peer
        ensures { result.address ≡ address }
    {
        Peer {
            address,
            passed_until: AtomicU64::new(NEVER),
        }
    }

    /// Where it is asked.
    pub fn address(&self) -> SocketAddr
        ensures { result ≡ self.now.address }
    {
        self.address
    }

    /// Whether a fetch may ask it at this time. Once it was passed over as long as it is to be, one fetch may, and all others still pass it over: until that
    /// one has ended, or for as long again.
    pub(crate) fn admits(&self, now: u64) -> bool {
        let until = self.passed_until.load(Ordering::SeqCst);
        if until == NEVER {
            return true;
        }
        until <= now
            && self
                .passed_until
                .compare_exchange(
                    until,
                    end_of_passing(now),
                    Ordering::SeqCst,
                    Ordering::SeqCst,
                )
                .is_ok()
    }

    /// Notes that it answered. The operator is told if it was passed over.
    pub(crate) fn note_answer(&self, notices: &Notices) {
        if self.passed_until.swap(NEVER, Ordering::SeqCst) != NEVER {
            self.tell(notices, "answers again");
        }
    }

    /// Notes a fault of it at this time. The operator is told unless it is passed over already.
    pub(crate) fn note_fault(&self, now: u64, notices: &Notices) {
        if self
            .passed_until
            .swap(end_of_passing(now), Ordering::SeqCst)
            == NEVER
        {
            self.tell(notices, "is passed over for 5 seconds");
        }
    }

    // Tells the operator this of it. That takes no memory.
    fn tell(&self, notices: &Notices, what: &str) {
        let address = self.address;
        let mut text = Text::new();
        if write!(text, "node {address} {what}").is_ok() {
            notices.tell(Kind::Peer, text.as_str(), "");
        }
    }
}
