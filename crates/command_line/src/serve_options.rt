//! What the command `serve` is told.
ghost use Rattle.std.specs.Prelude.{◌≤◌};

use std::net::SocketAddr;

/// What `serve` is told.
#[derive(Debug, Drop, PartialEq, Eq)]
pub struct ServeOptions {
    /// Where the first node serves clients. Each other node has the next port.
    pub listen: SocketAddr,
    /// How many nodes there are, from 1 to 8.
    pub nodes: u64,
    /// How many workers each node has, from 1 to 8.
    pub workers: u64,
    /// The folder that keeps the host, if one does.
    pub store: Option<String>,
    /// After how many client connections each node ends, from 1 to 1,000,000, if it ends.
    pub conns: Option<u64>,
    ghost few_nodes: { (1 ≤ nodes) × (nodes ≤ 8) },
    ghost few_workers: { (1 ≤ workers) × (workers ≤ 8) },
}
