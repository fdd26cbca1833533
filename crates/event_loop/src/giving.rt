//! What a worker says of its connections, and how it gives one up that another thread asks for.
ghost use Rattle.std.specs.Prelude.{◌≡◌};

use crate::lines::{Ask, Message};
use crate::nodes::milliseconds;
use crate::serving::{Said, Worker};
use crate::steps::Steps;
use operator_notices::Kind as About;
use socket_sets::{Listener, SocketSet, Waits};
use std::sync::Wait;
use std::time::Clock;
use worker_connections::{Kind, Want};

impl<
    R: Wait + Clock,
    S: Steps + Drop,
    L: Listener<S::Socket> + Drop,
    P: Waits + SocketSet<S::Socket, L> + Drop,
> Worker<'_, R, S, L, P> {
    /// The number of the connection that is to go first for a want, with its place.
    fn first_for(&self, want: Want, now: u64) -> Option<(usize, u64)> {
        let places = self.connections.places();
        match want {
            Want::Place => places.first_to_go(&self.node.limits, now),
            Want::Body => {
                let first = self.node.shares.lock(self.rt).first_body();
                places.slowest(Kind::Bodies, first, &self.node.limits, now)
            }
            Want::Reply => places.slowest(Kind::Replies, None, &self.node.limits, now),
        }
    }

    /// Says the number that a connection has now among those that go if a place is needed, unless it said a lesser one.
    pub(crate) fn say_also(&mut self, number: u64)
        ensures { self.new.done ≡ self.old.done }
    {
        let least = match self.said.place {
            Some(said) => said.min(number),
            None => number,
        };
        self.tell(Said {
            place: Some(least),
            ..self.said
        });
    }

    /// Says which numbers the connections have that are to go first.
    pub(crate) fn say(&mut self, now: u64)
        ensures { self.new.done ≡ self.old.done }
    {
        self.tell(Said {
            place: self.first_for(Want::Place, now).map(|(_, number)| number),
            body: self.first_for(Want::Body, now).map(|(_, number)| number),
            reply: self.first_for(Want::Reply, now).map(|(_, number)| number),
        });
    }

    fn tell(&mut self, said: Said)
        ensures { self.new.done ≡ self.old.done }
    {
        self.said = said;
        let mut shares = self.node.shares.lock(self.rt);
        shares.say(self.worker, said.place, said.body, said.reply);
    }

    /// Whether a connection still has to go for a want. Of several workers that found too many replies, each has asked.
    fn is_needed(&self, want: Want) -> bool {
        match want {
            Want::Reply => self.node.shares.lock(self.rt).are_replies_too_many(),
            Want::Place | Want::Body => true,
        }
    }

    /// Gives up the connection that is asked for, if its number is still no greater than what was said. Else it says the number anew, and the next worker is
    /// asked.
    pub(crate) fn answer_ask(&mut self, ask: &Ask)
        ensures { self.new.done ≡ self.old.done }
    {
        let now = milliseconds(self.rt);
        if !self.is_needed(ask.want) {
            return;
        }
        let name = match self.first_for(ask.want, now) {
            Some((at, number)) if number <= ask.most => self.connections.places().name_at(at),
            _ => None,
        };
        if let Some(name) = name {
            self.end(name);
        }
        self.say(now);
        let is_given = name.is_some();
        if is_given || !self.node.ask(self.rt, ask.want, ask.asker, ask.tries) {
            self.tell_asker(ask, is_given);
        }
    }

    /// Tells whoever asked for a connection whether one was given.
    fn tell_asker(&mut self, ask: &Ask, is_given: bool)
        ensures { self.new.done ≡ self.old.done }
    {
        match (ask.asker, ask.want) {
            (Some(asker), _) => {
                let answer = if is_given {
                    Message::Given
                } else {
                    Message::Refused
                };
                let _ = self.node.send(self.rt, asker, answer);
            }
            (None, Want::Place) => self.node.count_answer(is_given),
            (None, Want::Body) if !is_given => self.node.give_no_room(),
            (None, Want::Reply) if is_given => {
                let text = "they hold more than they may, so the slowest one ends";
                self.node.notices.tell(About::Replies, text, "");
                self.took_room = true;
            }
            (None, _) => {}
        }
    }
}
