//! What a node knows of the system: a listener, the sockets of its clients, and the sets that its workers wait on.
#![tactic(auto)]

mod ready_sets;
mod tcp;
mod traits;

pub use ready_sets::ReadySet;
pub use tcp::bound_replies;
pub use traits::{
    AcceptFault, ClientSocket, Listener, NotAccepted, Ready, SocketSet, Told, Waits, accept_one,
};
