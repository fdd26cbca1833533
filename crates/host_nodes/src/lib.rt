//! The nodes of a host: each serves clients and other nodes over TCP, in threads.
#![tactic(auto)]

mod addresses;
mod desks;
mod errands;
mod groups;
mod guests;
mod inputs;
mod lines;
mod nodes;
mod open_desks;
mod overseeing;
mod peer_ports;
mod ports;
mod posts;
mod rooms;
mod runtimes;
mod serving;
mod showing;
mod task_lists;
mod tasks;

pub use serving::{has_ports, open_memory, refuse_memory, refuse_ports, run_serve};
