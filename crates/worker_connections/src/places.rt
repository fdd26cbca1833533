//! The connections of a worker, by their places.
ghost use Rattle.std.specs.Prelude.{◌≡◌, ◌+◌, ◌<◌, ◌≤◌, ◌↔◌, [], false, true, IfOk, IfSome, IsTrue, OnErr, OnOk, length, option_map, slice_set};
ghost use Rattle.worker_connections.specs.Clients as client;
ghost use Rattle.worker_connections.specs.Places as spec;

use crate::changes::{Change, Name};
use crate::clients::Client;
use crate::steps::Step;
use connection_rules::Limits;
use std::alloc::{AllocError, Global};
use std::marker::Model;

/// The connections of a worker. Each is in a place; a place that is left is given again.
#[derive(Drop)]
pub struct Places {
    places: Vec<Option<Client>>,
    /// How many came, and how many have gone.
    came: u64,
    gone: u64,
    drains: bool,
}

impl Model for Places {
    ghost use Rattle.worker_connections.specs.Places.{Held, IsSound};

    ghost Value = { Held };

    ghost view = { λ p. record { places = p.places.items; came = p.came; drains = p.drains } };

    ghost invariant = { λ p. IsSound p.places.items p.came p.gone };
}

/// Whether a place has a connection that has not ended.
fn is_live(place: &Option<Client>) -> bool
    ensures { result ≡ spec.is_live_in place.now }
{
    match place {
        Some(client) => client.is_live(),
        None => false,
    }
}

/// The first place that is free, or one more.
fn first_free(places: &[Option<Client>]) -> usize
    ensures { spec.IsFirstFree places.now result }
{
    'looks: for at in 0..places.len() {
        if places[at].is_none() {
            return at;
        }
    }
    places.len()
}

/// Puts a connection into a place that is free, or into one more.
fn put(places: &mut Vec<Option<Client>>, at: usize, client: Client) -> Result<(), AllocError>
    requires { at ≤ length places.old.items }
    ensures ok { OnOk result (places.new.items ≡ spec.placed at client places.old.items) }
    ensures err { OnErr result (places.new.items ≡ places.old.items) }
{
    if at < places.len() {
        places[at] = Some(client);
    } else {
        places.push(Some(client))?;
    }
    Ok(())
}

/// What a connection is after a step that ended now; none if it is over, or idle while the node drains.
fn after_step(drains: bool, old: &Client, step: &Step, limits: &Limits, now: u64) -> Option<Client>
    ensures is { result ≡ spec.stepped drains step.now limits.now now old.now }
    ensures number { IfSome result (λ c. c.number ≡ old.now.number) }
{
    old.after(step, limits, now)?.unless_drained(drains)
}

/// How many have ended where one becomes this.
fn lost(old: &Client, new: &Option<Client>) -> u64
    ensures { result ≡ spec.lost old.now new.now }
{
    if old.is_live() && !is_live(new) { 1 } else { 0 }
}

impl Places {
    /// There are none. The first that comes gets this number, and each further one the next.
    pub fn new(alloc: Global, first: u64) -> Places
        ensures { result ≡ record { places = []; came = first; drains = false } }
    {
        Places {
            places: Vec::new(alloc),
            came: first,
            gone: first,
            drains: false,
        }
    }

    /// How many have gone: all that came but those that have not ended.
    pub fn gone(&self) -> u64
        ensures { result + spec.count_live self.now.places ≡ self.now.came }
    {
        self.gone
    }

    /// A client comes now. It gets the first place that is free, and a number that none has had.
    pub fn come(&mut self, limits: &Limits, now: u64) -> Result<Name, AllocError>
        ensures place { IfOk result (λ name. spec.IsFirstFree self.old.places name.place) }
        ensures number { IfOk result (λ name. name.number ≡ self.old.came) }
        ensures ok { IfOk result (λ name. self.new ≡ record self.old {
          places = spec.placed name.place (client.begun_client self.old.came limits.now now) self.old.places;
          came = self.old.came + 1;
        }) }
        ensures err { OnErr result (self.new ≡ self.old) }
    {
        let came = self.came.checked_add(1).ok_or(AllocError)?;
        let number = self.came;
        let place = first_free(&self.places);
        put(&mut self.places, place, Client::new(number, limits, now))?;
        self.came = came;
        Ok(Name { place, number })
    }

    /// The connection of this name, if it has not ended.
    pub(crate) fn find(&self, name: Name) -> Option<Client>
        ensures { result ≡ spec.named name self.now.places }
    {
        if name.place >= self.places.len() {
            return None;
        }
        match self.places[name.place] {
            Some(client) if client.number == name.number => Some(client),
            _ => None,
        }
    }

    /// Puts what became of a connection into its place.
    fn replace(&mut self, at: usize, old: &Client, new: Option<Client>) -> Change
        requires there { spec.place_at self.old.places at ≡ Some old.now }
        requires number { IfSome new (λ c. c.number ≡ old.now.number) }
        requires live { spec.is_live_in new ≡ true → client.is_live old.now ≡ true }
        ensures held { self.new ≡ record self.old { places = slice_set self.old.places at new } }
        ensures change { result ≡ spec.change_between old.now new }
    {
        self.places[at] = new;
        self.gone += lost(old, &new);
        Change::between(old, &new)
    }
}

impl Places {
    /// A step of the connection of this name ended now.
    pub fn step_ended(
        &mut self,
        name: Name,
        step: &Step,
        limits: &Limits,
        now: u64,
    ) -> Option<Change>
        ensures held { self.new ≡ spec.becomes (spec.stepped self.old.drains step.now limits.now now) name self.old }
        ensures change { result
            ≡ spec.change_by (spec.stepped self.old.drains step.now limits.now now) name self.old }
    {
        let old = self.find(name)?;
        let new = after_step(self.drains, &old, step, limits, now);
        Some(self.replace(name.place, &old, new))
    }

    /// A thread that may wait is done with the connection of this name, with a step that ended now.
    pub fn come_back(
        &mut self,
        name: Name,
        step: &Step,
        limits: &Limits,
        now: u64,
    ) -> Option<Change>
        ensures held { self.new ≡ spec.becomes (client.back step.now limits.now now) name self.old }
        ensures change { result ≡ spec.change_by (client.back step.now limits.now now) name self.old }
    {
        let old = self.find(name)?;
        let new = old.back(step, limits, now);
        Some(self.replace(name.place, &old, new))
    }

    /// There is room for a step of the body of this name, or there isn't.
    pub fn answer(&mut self, name: Name, has_room: bool, now: u64) -> Option<Change>
        ensures held { self.new ≡ spec.becomes (λ c. Some (client.answered has_room now c)) name self.old }
        ensures change { result ≡ spec.change_by (λ c. Some (client.answered has_room now c)) name self.old }
    {
        let old = self.find(name)?;
        let new = old.answered(has_room, now);
        Some(self.replace(name.place, &old, Some(new)))
    }

    /// The connection of this name ends.
    pub fn end(&mut self, name: Name) -> Option<Change>
        ensures held { self.new ≡ spec.becomes client.ended name self.old }
        ensures change { result ≡ spec.change_by client.ended name self.old }
    {
        let old = self.find(name)?;
        let new = old.ended();
        Some(self.replace(name.place, &old, new))
    }

    /// The node begins to drain.
    pub fn drain(&mut self)
        ensures { self.new ≡ record self.old { drains = true } }
    {
        self.drains = true;
    }

    /// Whether the node drains: then no client is taken any more.
    pub fn drains(&self) -> bool
        ensures { result ≡ self.now.drains }
    {
        self.drains
    }

    /// What is in each place.
    pub(crate) fn all(&self) -> &[Option<Client>]
        ensures { result.now ≡ self.now.places }
    {
        &self.places
    }

    /// How many places there are.
    pub(crate) fn len(&self) -> usize
        ensures { result ≡ length self.now.places }
    {
        self.places.len()
    }

    /// How many have not ended.
    pub(crate) fn present(&self) -> u64
        ensures { result ≡ spec.count_live self.now.places }
    {
        self.came - self.gone
    }

    /// Whether the connection in a place has not ended.
    pub(crate) fn is_live_at(&self, place: usize) -> bool
        ensures { result ≡ spec.is_live_in (spec.place_at self.now.places place) }
    {
        place < self.places.len() && is_live(&self.places[place])
    }

    /// Whether all that came have gone.
    pub fn are_gone(&self) -> bool
        ensures { IsTrue result ↔ spec.count_live self.now.places ≡ 0 }
    {
        self.gone == self.came
    }

    /// The name of the connection in a place.
    pub fn name_at(&self, place: usize) -> Option<Name>
        ensures { result
            ≡ option_map (λ c. record { place = place; number = c.number }) (spec.place_at self.now.places place) }
    {
        if place >= self.places.len() {
            return None;
        }
        match self.places[place] {
            Some(client) => Some(Name {
                place,
                number: client.number,
            }),
            None => None,
        }
    }
}
