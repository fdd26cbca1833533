//! What may happen next.
use host_names::SiteName;
use site_change::Command;
use std::sync::Arc;
use world_node::Call;
use world_read::FileRequest;

/// One atomic action of one actor. Visitors are numbered from 0 on. A step that its actor can't take now changes nothing.
#[derive(Drop)]
pub enum Step {
    /// The desk is asked to commit a command. It does nothing while one of its entries is unpublished.
    Commit(Command),
    /// The desk is asked to undo a change. It does nothing while one of its entries is unpublished.
    Undo {
        site: SiteName,
        change: u64,
    },
    /// The desk shows what it has.
    Publish,
    /// A visitor with no read in hand looks at what is shown, and asks for a file or for none.
    Enter {
        visitor: usize,
        request: Option<Arc<FileRequest>>,
    },
    /// A visitor is told of what is shown, also while it has a read in hand.
    Learn(usize),
    /// A file is uploaded.
    Upload(Vec<u8>),
    /// A visitor goes on with the chunk that it wants, at its node.
    Call(usize, Call),
    /// A visitor takes what is ready for it at its node. Once the outcome of a flight is set, each joiner takes it by a step of its own: in
    /// one step all joiners would need memory at once.
    Take(usize),
}
