//! What links a node to the other nodes of its group: how it asks them for chunks, and how it answers them.
#![tactic(auto)]

mod answers;
mod asks;
mod bodies;
mod connections;
mod faults;
mod links;
mod paths;
mod peer_streams;
mod peers;
mod phases;
mod serving;
mod tcp_links;
mod timed;

pub use answers::LocalChunks;
pub use asks::{AskFault, CHUNK_LIMIT, ask};
pub use connections::{PeerConnection, PeerProgress, PeerStage, PeerWants};
pub use faults::ServeFault;
pub use links::{NoLink, PeerFault, PeerLink};
pub use paths::{chunk_path, key_of_path};
pub use peers::Peer;
pub use serving::{answer_peer, serve_peer};
pub use tcp_links::TcpLink;
