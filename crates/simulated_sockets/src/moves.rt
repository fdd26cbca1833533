//! How many bytes the calls of a simulated socket move.
use crate::worlds::World;
use simulated_clients::{Bytes, Moved};

impl World {
    /// How many bytes move of so many that could: all, fewer, or for once none.
    fn split(&mut self, bytes: u64) -> Option<u64> {
        match self.draws.below(32) {
            0 => None,
            n if n < 8 => Some(self.draws.below(bytes).saturating_add(1)),
            _ => Some(bytes),
        }
    }
}

impl Bytes for World {
    /// Reads from a client.
    fn read(&mut self, at: usize, most: u64) -> Moved {
        self.stir();
        let Some(few) = self.split(most) else {
            return Moved::WouldWait;
        };
        match self.callers.get_mut(at) {
            Some(caller) => caller.read(few),
            None => Moved::Failed,
        }
    }

    /// Writes to a client.
    fn write(&mut self, at: usize, most: u64) -> Moved {
        self.stir();
        let Some(few) = self.split(most) else {
            return Moved::WouldWait;
        };
        match self.callers.get_mut(at) {
            Some(caller) => caller.write(few),
            None => Moved::Failed,
        }
    }
}
