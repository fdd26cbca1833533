//! The set of a simulated worker.
use crate::edges::{DrawnListener, DrawnSocket};
use crate::worlds::World;
use simulated_clients::Watch;
use socket_sets::{Ready, SocketSet, Waits};
use std::sync::Mutex;
use worker_connections::Interest;

/// The set of a worker.
#[derive(Drop)]
pub struct DrawnSet<'a> {
    pub world: &'a Mutex<World>,
    pub number: usize,
}

impl DrawnSet<'_> {
    /// Sets whether its worker is told of clients.
    fn hear(&self, listens: bool) -> bool {
        match self.world.try_lock() {
            Some(mut world) => world.hear(self.number, listens),
            None => false,
        }
    }

    /// What it waits for of a socket that has this place.
    fn watch(&self, place: usize, interest: Interest) -> Watch {
        Watch {
            set: self.number,
            place,
            interest,
        }
    }

    /// Sets whether its wait is to be ended.
    fn stir(&self, is_woken: bool) {
        if let Some(mut world) = self.world.try_lock() {
            if let Some(ear) = world.ears.get_mut(self.number) {
                ear.is_woken = is_woken;
            }
        }
    }
}

impl Waits for DrawnSet<'_> {
    fn wait(&self, _milliseconds: i32) -> Ready {
        match self.world.try_lock() {
            Some(mut world) => world.ready(self.number),
            None => Ready::new(),
        }
    }

    fn wake(&self) {
        self.stir(true);
    }

    fn calm(&self) {
        self.stir(false);
    }
}

impl<'a> SocketSet<DrawnSocket<'a>, DrawnListener<'a>> for DrawnSet<'a> {
    fn listen(&self, _listener: &DrawnListener<'a>) -> bool {
        self.hear(true)
    }

    fn deafen(&self, _listener: &DrawnListener<'a>) -> bool {
        self.hear(false)
    }

    fn add(&self, socket: &DrawnSocket<'a>, place: usize, interest: Interest) -> bool {
        let Some(mut world) = self.world.try_lock() else {
            return false;
        };
        world.add(socket.caller, self.watch(place, interest))
    }

    fn change(&self, socket: &DrawnSocket<'a>, place: usize, interest: Interest) -> bool {
        let Some(mut world) = self.world.try_lock() else {
            return false;
        };
        world.change(socket.caller, self.watch(place, interest))
    }

    fn remove(&self, socket: &DrawnSocket<'a>) -> bool {
        let Some(mut world) = self.world.try_lock() else {
            return false;
        };
        world.remove(socket.caller)
    }
}
