//! The connections of a worker, with what it keeps of each.
ghost use Rattle.std.specs.Prelude.{◌≡◌, ◌+◌, ◌<◌, ◌≤◌, [], false, true, IfOk, IfSome, OnErr, OnOk, if◌then◌else◌, length};
ghost use Rattle.worker_connections.specs.Clients as client;
ghost use Rattle.worker_connections.specs.Places as held;
ghost use Rattle.worker_connections.specs.Connections as spec;

use crate::changes::{Change, Name};
use crate::places::Places;
use crate::steps::Step;
use connection_rules::Limits;
use std::alloc::{AllocError, Global};
use std::marker::Model;
use std::mem;

/// The connections of a worker: of each what is known of it, and what is kept of it, such as its socket. What is kept of one that has ended is dropped.
#[derive(Drop)]
pub struct Connections<K> {
    places: Places,
    kept: Vec<Option<K>>,
}

impl<K> Model for Connections<K> {
    ghost use Rattle.worker_connections.specs.Connections.{IsKept, Keeps};

    ghost Value = { Keeps K };

    ghost view = { λ c. record { held = c.places; kept = c.kept.items } };

    ghost invariant = { λ c. IsKept c.places.places c.kept.items };
}

/// Makes room for what is kept of one connection more, where there are so many places.
fn make_room<K: Drop>(kept: &mut Vec<Option<K>>, places: usize) -> Result<(), AllocError>
    requires { places ≤ length kept.old.items }
    ensures ok { OnOk result (places < length kept.new.items) }
    ensures within { places ≤ length kept.new.items }
    ensures same { spec.KeepsAll kept.old.items kept.new.items }
{
    if places == kept.len() {
        kept.push(None)?;
    }
    Ok(())
}

/// Keeps this at a place.
fn keep<K: Drop>(kept: &mut Vec<Option<K>>, at: usize, one: Option<K>)
    requires { at < length kept.old.items }
    ensures at { spec.KeepsAt at one kept.old.items kept.new.items }
    ensures len { length kept.new.items ≡ length kept.old.items }
{
    kept[at] = one;
}

/// Takes what is kept at a place.
fn take<K: Drop>(kept: &mut Vec<Option<K>>, at: usize) -> Option<K>
    requires { at < length kept.old.items }
    ensures taken { result ≡ spec.kept_at kept.old.items at }
    ensures at { spec.KeepsAt at None kept.old.items kept.new.items }
    ensures len { length kept.new.items ≡ length kept.old.items }
{
    mem::replace(&mut kept[at], None)
}

/// Keeps this at a place whose connection has not ended, and nothing at any other.
fn settle<K: Drop>(places: &Places, kept: &mut Vec<Option<K>>, at: usize, one: Option<K>)
    requires { at < length kept.old.items }
    ensures at { spec.KeepsAt at (if held.is_live_in (held.place_at places.now.places at) then one else None)
        kept.old.items kept.new.items }
    ensures len { length kept.new.items ≡ length kept.old.items }
{
    if places.is_live_at(at) {
        keep(kept, at, one);
    } else {
        keep(kept, at, None);
    }
}

impl<K: Drop> Connections<K> {
    /// There are none. The first that comes gets this number, and each further one the next.
    pub fn new(alloc: Global, first: u64) -> Connections<K>
        ensures { result ≡ record { held = record { places = []; came = first; drains = false }; kept = [] } }
    {
        Connections {
            places: Places::new(alloc, first),
            kept: Vec::new(alloc),
        }
    }

    /// What is known of them.
    pub fn places(&self) -> &Places
        ensures { result.now ≡ self.now.held }
    {
        &self.places
    }

    /// What is kept of the connection in a place, if it isn't lent.
    pub fn kept(&self, place: usize) -> Option<&K>
        ensures { IfSome result (λ k. spec.kept_at self.now.kept place ≡ Some k.now) }
    {
        if place >= self.kept.len() {
            return None;
        }
        self.kept[place].as_ref()
    }

    /// The node begins to drain.
    pub fn drain(&mut self)
        ensures { self.new ≡ record self.old { held = record self.old.held { drains = true } } }
    {
        self.places.drain();
    }

    /// A client comes now. It gets the first place that is free, and a number that none has had. Without memory it is dropped.
    pub fn come(&mut self, kept: K, limits: &Limits, now: u64) -> Result<Name, AllocError>
        ensures place { IfOk result (λ name. held.IsFirstFree self.old.held.places name.place) }
        ensures number { IfOk result (λ name. name.number ≡ self.old.held.came) }
        ensures held { IfOk result (λ name. self.new.held ≡ record self.old.held {
          places = held.placed name.place (client.begun_client self.old.held.came limits.now now) self.old.held.places;
          came = self.old.held.came + 1;
        }) }
        ensures kept { IfOk result (λ name. spec.KeepsAt name.place (Some kept) self.old.kept self.new.kept) }
        ensures err { OnErr result ((self.new.held ≡ self.old.held) × spec.KeepsAll self.old.kept self.new.kept) }
    {
        make_room(&mut self.kept, self.places.len())?;
        let name = self.places.come(limits, now)?;
        keep(&mut self.kept, name.place, Some(kept));
        Ok(name)
    }

    /// Lends what is kept of the connection of this name, for a step; nothing if it has ended.
    pub fn lend(&mut self, name: Name) -> Option<K>
        ensures lent { result ≡ spec.lent name self.old }
        ensures held { self.new.held ≡ self.old.held }
        ensures kept { spec.KeepsBut name self.old.held None self.old.kept self.new.kept }
    {
        if self.places.find(name).is_none() {
            return None;
        }
        take(&mut self.kept, name.place)
    }

    /// A step of the connection of this name ended now. What was lent for it is kept again, unless the connection is over.
    pub fn step_ended(
        &mut self,
        name: Name,
        kept: K,
        step: &Step,
        limits: &Limits,
        now: u64,
    ) -> Option<Change>
        ensures held { self.new.held
            ≡ held.becomes (held.stepped self.old.held.drains step.now limits.now now) name self.old.held }
        ensures change { result
            ≡ held.change_by (held.stepped self.old.held.drains step.now limits.now now) name self.old.held }
        ensures kept { spec.KeepsBut name self.old.held (spec.if_live name self.new.held (Some kept))
            self.old.kept self.new.kept }
    {
        let change = self.places.step_ended(name, step, limits, now)?;
        settle(&self.places, &mut self.kept, name.place, Some(kept));
        Some(change)
    }
}

impl<K: Drop> Connections<K> {
    /// A thread that may wait is done with the connection of this name, with a step that ended now. What was lent for it is kept again, unless the connection
    /// is over or ended meanwhile.
    pub fn come_back(
        &mut self,
        name: Name,
        kept: Option<K>,
        step: &Step,
        limits: &Limits,
        now: u64,
    ) -> Option<Change>
        ensures held { self.new.held ≡ held.becomes (client.back step.now limits.now now) name self.old.held }
        ensures change { result ≡ held.change_by (client.back step.now limits.now now) name self.old.held }
        ensures kept { spec.KeepsBut name self.old.held (spec.if_live name self.new.held kept)
            self.old.kept self.new.kept }
    {
        let change = self.places.come_back(name, step, limits, now)?;
        settle(&self.places, &mut self.kept, name.place, kept);
        Some(change)
    }

    /// There is room for a step of the body of this name, or there isn't.
    pub fn answer(&mut self, name: Name, has_room: bool, now: u64) -> Option<Change>
        ensures held { self.new.held ≡ held.becomes (λ c. Some (client.answered has_room now c)) name self.old.held }
        ensures change { result ≡ held.change_by (λ c. Some (client.answered has_room now c)) name self.old.held }
        ensures kept { self.new.kept ≡ self.old.kept }
    {
        self.places.answer(name, has_room, now)
    }

    /// The connection of this name ends, and what is kept of it is dropped.
    pub fn end(&mut self, name: Name) -> Option<Change>
        ensures held { self.new.held ≡ held.becomes client.ended name self.old.held }
        ensures change { result ≡ held.change_by client.ended name self.old.held }
        ensures kept { spec.KeepsBut name self.old.held None self.old.kept self.new.kept }
    {
        let change = self.places.end(name)?;
        keep(&mut self.kept, name.place, None);
        Some(change)
    }
}
