//! What the connections of a simulated node do: heads, bodies and replies of drawn lengths, some of which a thread that may wait goes on with.
use crate::edges::DrawnSocket;
use crate::meanwhile::{Others, let_others_go};
use crate::worlds::World;
use event_loop::{NotBegun, SlowSteps, Steps};
use simulated_clients::{Talk, broken};
use std::alloc::Global;
use std::sync::Mutex;
use worker_connections::Step;

/// What goes on with the connections of a worker. Before each step others may go on.
#[derive(Drop)]
pub struct DrawnSteps<'a, 'o, O> {
    pub world: &'a Mutex<World>,
    pub others: &'o O,
}

impl<'a, O: Others> Steps for DrawnSteps<'a, '_, O> {
    type Socket = DrawnSocket<'a>;

    type Connection = Talk;

    fn begin(&mut self, _alloc: Global, socket: &DrawnSocket<'a>) -> Result<Talk, NotBegun> {
        let_others_go(self.world, self.others);
        let Some(mut world) = self.world.try_lock() else {
            return Err(NotBegun::Refused);
        };
        let seed = match world.caller(socket.caller) {
            Some(caller) => caller.seed,
            None => 0,
        };
        let taste = world.plan.taste;
        world.begin(socket.caller)?;
        Ok(Talk::new(socket.caller, seed, taste))
    }

    fn go_on(
        &mut self,
        _alloc: Global,
        talk: &mut Talk,
        _socket: &DrawnSocket<'a>,
    ) -> Option<Step> {
        let_others_go(self.world, self.others);
        let Some(mut world) = self.world.try_lock() else {
            return Some(broken());
        };
        let before = talk.begun;
        let step = talk.step(&mut *world);
        world.step_made(talk.caller, &step, talk.begun != before);
        Some(step)
    }
}

/// What goes on with the connections that workers hand over.
#[derive(Drop)]
pub struct DrawnSlowSteps<'a> {
    pub world: &'a Mutex<World>,
}

impl SlowSteps for DrawnSlowSteps<'_> {
    type Connection = Talk;

    fn go_on(&mut self, _alloc: Global, talk: &mut Talk) -> Step {
        let Some(mut world) = self.world.try_lock() else {
            return broken();
        };
        let step = talk.slow_step(world.slow_fails);
        world.slow_made(talk.caller, &step);
        step
    }
}
