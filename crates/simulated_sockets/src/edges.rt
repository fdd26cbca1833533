//! The listener and the sockets of a simulated node.
ghost use Rattle.std.specs.Bool.{⊤};

use crate::worlds::World;
use simulated_clients::Moved;
use socket_sets::{AcceptFault, ClientSocket, Listener};
use std::io;
use std::io::ErrorKind;
use std::sync::Mutex;

/// The socket of a client of a world.
pub struct DrawnSocket<'a> {
    pub world: &'a Mutex<World>,
    pub caller: usize,
}

impl Drop for DrawnSocket<'_> {
    fn drop(self) {
        let Self { world, caller } = self;
        if let Some(mut world) = world.try_lock() {
            world.close(caller);
        }
    }
}

impl ClientSocket for DrawnSocket<'_> {
    fn read_some(&self, buffer: &mut [u8]) -> io::Result<usize> {
        let most = buffer.len();
        let Some(mut world) = self.world.try_lock() else {
            return Err(io::Error::from(ErrorKind::WouldBlock));
        };
        match world.drop_input(self.caller, most as u64) {
            Moved::Bytes(count) => Ok((count as usize).min(most)),
            // A call that would wait may say that it was interrupted.
            Moved::WouldWait if world.draws.below(8) == 0 => {
                Err(io::Error::from(ErrorKind::Interrupted))
            }
            Moved::WouldWait => Err(io::Error::from(ErrorKind::WouldBlock)),
            Moved::Failed => Err(io::Error::from(ErrorKind::ConnectionReset)),
        }
    }

    fn shut_down(&self) -> bool {
        match self.world.try_lock() {
            Some(mut world) => world.shut_down(self.caller),
            None => false,
        }
    }
}

/// What the clients of a world connect to.
#[derive(Drop)]
pub struct DrawnListener<'a> {
    pub world: &'a Mutex<World>,
}

impl<'a> Listener<DrawnSocket<'a>> for DrawnListener<'a> {
    ghost failed = { λ _. ⊤ };

    ghost looked = { λ _. ⊤ };

    fn accept_client(&self) -> Result<DrawnSocket<'a>, AcceptFault> {
        let Some(mut world) = self.world.try_lock() else {
            return Err(AcceptFault::Other);
        };
        let caller = world.accept()?;
        drop(world);
        Ok(DrawnSocket {
            world: self.world,
            caller,
        })
    }

    fn has_client(&self) -> bool {
        match self.world.try_lock() {
            Some(mut world) => world.has_client(),
            None => false,
        }
    }
}
