//! What answers other nodes.
use connection_rules::Stage;
use event_loop::{NotBegun, Steps};
use peer_link::{LocalChunks, PeerConnection, PeerProgress, PeerStage, PeerWants};
use std::alloc::Global;
use std::net::TcpStream;
use std::sync::Wait;
use tcp_socket::{Socket, Trail};
use worker_connections::{Holding, Interest, Next, Step};

/// Answers other nodes from the chunks of a node. Its steps wait for no socket, but a chunk that isn't in the caches is read from the store.
#[derive(Drop)]
pub(crate) struct PeerSteps<'a, R, C> {
    pub(crate) rt: &'a R,
    pub(crate) chunks: &'a C,
}

/// Whether whoever connects has the address of this node itself: all nodes of a group have one address.
fn is_local(stream: &TcpStream) -> bool {
    match (stream.peer_addr(), stream.local_addr()) {
        (Ok(theirs), Ok(ours)) => theirs.ip() == ours.ip(),
        _ => false,
    }
}

impl<R: Wait, C: LocalChunks> Steps for PeerSteps<'_, R, C> {
    type Socket = TcpStream;

    type Connection = PeerConnection;

    fn begin(&mut self, alloc: Global, socket: &TcpStream) -> Result<PeerConnection, NotBegun> {
        if !is_local(socket) {
            return Err(NotBegun::Refused);
        }
        Ok(PeerConnection::new(alloc)?)
    }

    fn go_on(
        &mut self,
        _alloc: Global,
        connection: &mut PeerConnection,
        socket: &TcpStream,
    ) -> Option<Step> {
        let mut socket = Socket::new(socket, &Trail::new());
        let progress = connection.go_on(self.rt, &mut socket, self.chunks);
        let stage = connection.stage();
        Some(Step {
            next: next_of(progress, stage),
            stage: stage_of(progress, stage),
            read: socket.read(),
            written: socket.written(),
            answers: stage == PeerStage::Answer || socket.written() > 0,
            holds: Holding::Nothing,
        })
    }
}

/// What a connection is doing, as far as its deadline goes. If it may go on at once with a next request, it waits only where the answers before that aren't
/// taken, as in an answer.
fn stage_of(progress: PeerProgress, stage: PeerStage) -> Stage {
    match stage {
        PeerStage::Idle => Stage::Idle,
        PeerStage::Head if progress == PeerProgress::More => Stage::Reply,
        PeerStage::Head => Stage::Head,
        PeerStage::Answer => Stage::Reply,
        PeerStage::Ended => Stage::Closing,
    }
}

/// What follows a step. If nothing of a next request has come, a connection that may go on at once has only to read.
fn next_of(progress: PeerProgress, stage: PeerStage) -> Next {
    match progress {
        PeerProgress::Waits(PeerWants::Read) => Next::Waits(Interest::Read),
        PeerProgress::Waits(PeerWants::Write) => Next::Waits(Interest::Write),
        PeerProgress::More if stage == PeerStage::Idle => Next::Waits(Interest::Read),
        PeerProgress::More => Next::Waits(Interest::Either),
        PeerProgress::Ended(_) => Next::Ends,
    }
}
