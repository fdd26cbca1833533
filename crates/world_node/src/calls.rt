//! What readers do at their node.
use chunk_lru::Which;

/// One atomic action of a reader who wants a chunk. A call that the reader can't make now changes nothing.
#[derive(Drop)]
pub enum Call {
    /// It looks into the caches.
    Look,
    /// After a miss it leads a flight, or joins the open flight of the key.
    Begin,
    /// As a leader it gets the answer of a peer or of the source: any bytes, or a fault.
    Answer(Option<Vec<u8>>),
    /// As a leader it puts the chunk that it loaded into one of the caches.
    Add(Which),
    /// As a leader it sets the outcome of its flight.
    Settle,
    /// As a leader it ends its flight.
    Finish,
}
