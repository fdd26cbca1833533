//! Which connection goes if a place or room is needed.
ghost use Rattle.std.specs.Prelude.{◌≡◌};
ghost use Rattle.worker_connections.specs.Clients as spec;

use crate::clients::{Client, State, span_of};
use crate::steps::{Holding, Kind};
use connection_rules::{Limits, Stake};

/// From so many bytes on it makes no difference how many were moved. No connection moves as many.
const MOST_MOVED: u64 = 4_611_686_018_427_387_904;

impl Client {
    /// What is known of it where a place is needed.
    pub(crate) fn stake(&self, limits: &Limits, now: u64) -> Stake
        ensures { result ≡ spec.stake_of limits.now now self.now }
    {
        Stake {
            stage: self.pace.stage,
            is_at_work: self.state == State::Away,
            is_answered: self.is_answered,
            is_young: now.saturating_sub(self.came) < limits.fresh,
            came: self.came,
            active: self.active,
            moved: self.recent.of_late(span_of(limits, now)),
        }
    }

    /// Whether it may have to go, to give room to bodies or to replies.
    fn may_go(&self, kind: Kind, limits: &Limits, now: u64) -> bool
        ensures { result ≡ spec.may_go kind limits.now now self.now }
    {
        match (kind, self.holds, self.state) {
            (_, _, State::Away | State::Left) => false,
            (Kind::Bodies, Holding::Body(0), State::ForRoom(_)) => false,
            (Kind::Bodies, Holding::Body(_), _) => {
                now.saturating_sub(self.body_since) >= limits.wait
            }
            (Kind::Replies, Holding::Reply(_), State::Back(since, _)) => {
                now.saturating_sub(since) >= limits.sweep
            }
            (Kind::Replies, Holding::Reply(_), _) => true,
            _ => false,
        }
    }

    /// Its number among those that may have to go to give room, if it is one of them: by how many bytes it moved of late. Of two that moved as many, the first body
    /// goes before the other: then another one is the first, which may always go on.
    pub(crate) fn slowness(
        &self,
        kind: Kind,
        first: Option<u64>,
        limits: &Limits,
        now: u64,
    ) -> Option<u64>
        ensures { result ≡ spec.slowness kind first limits.now now self.now }
    {
        if !self.may_go(kind, limits, now) {
            return None;
        }
        let moved = self.recent.of_late(span_of(limits, now)).min(MOST_MOVED);
        let others = match first {
            Some(number) if self.number == number => 0,
            _ => 1,
        };
        Some(moved * 2 + others)
    }
}
