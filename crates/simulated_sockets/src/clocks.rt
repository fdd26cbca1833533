//! The clock of a simulated node, as one of its threads sees it.
use crate::meanwhile::{Inner, Others, WORKERS, let_others_go};
use crate::worlds::World;
use std::io;
use std::io::ErrorKind;
use std::sync::{Mutex, Wait};
use std::time::{Clock, Duration};

/// The clock of a world. Before it tells the time, others may go on, and while a thread sleeps, they do. What may wait there is what its runtime lets wait.
#[derive(Drop)]
pub struct DrawnClock<'a, R, O> {
    pub rt: &'a R,
    pub world: &'a Mutex<World>,
    pub others: &'a O,
}

impl<R: Wait, O> Wait for DrawnClock<'_, R, O> {}

impl<R, O: Others> Clock for DrawnClock<'_, R, O> {
    fn monotonic(&self) -> io::Result<Duration> {
        let_others_go(self.world, self.others);
        match self.world.try_lock() {
            Some(mut world) => Ok(Duration::from_millis(world.tick())),
            None => Err(io::Error::from(ErrorKind::Other)),
        }
    }

    fn since_1970(&self) -> io::Result<Duration> {
        self.monotonic()
    }

    fn sleep(&self, duration: Duration) {
        if let Some(mut world) = self.world.try_lock() {
            let milliseconds = u64::try_from(duration.as_millis()).unwrap_or(0);
            world.pass(milliseconds);
        }
        for number in 0..WORKERS as usize {
            self.others.happen(Inner::Turn(number, true));
        }
    }
}
