//! The notices that wait to be written.
use crate::kinds::Kind;
use crate::slots::{Notice, Slot};
use std::sync::Mutex;
use std::sync::atomic::{AtomicU64, Ordering};

/// The notices that wait, at most one of a kind. Threads share it. No call of it waits for another one, so a notice may be lost; those are counted.
#[derive(Drop)]
pub struct Notices {
    journal: Mutex<Slot>,
    device: Mutex<Slot>,
    descriptors: Mutex<Slot>,
    memory: Mutex<Slot>,
    listener: Mutex<Slot>,
    peer: Mutex<Slot>,
    bodies: Mutex<Slot>,
    replies: Mutex<Slot>,
    lost: AtomicU64,
}

impl Notices {
    /// None waits.
    pub fn new() -> Notices {
        Notices {
            journal: Slot::shared(),
            device: Slot::shared(),
            descriptors: Slot::shared(),
            memory: Slot::shared(),
            listener: Slot::shared(),
            peer: Slot::shared(),
            bodies: Slot::shared(),
            replies: Slot::shared(),
            lost: AtomicU64::new(0),
        }
    }

    fn slot(&self, kind: Kind) -> &Mutex<Slot> {
        match kind {
            Kind::Journal => &self.journal,
            Kind::Device => &self.device,
            Kind::Descriptors => &self.descriptors,
            Kind::Memory => &self.memory,
            Kind::Listener => &self.listener,
            Kind::Peer => &self.peer,
            Kind::Bodies => &self.bodies,
            Kind::Replies => &self.replies,
        }
    }

    /// Notes what happened, and why; an empty text says that nothing is known of that. While a notice of the kind waits, this one is only counted.
    pub fn tell(&self, kind: Kind, what: &str, why: &str) {
        match self.slot(kind).try_lock() {
            Some(mut slot) => slot.note(what, why),
            None => {
                self.lost.fetch_add(1, Ordering::SeqCst);
            }
        }
    }

    /// Takes the notice of a kind that waits, if one does and no other thread is at it just then.
    pub fn take(&self, kind: Kind) -> Option<Notice> {
        self.slot(kind).try_lock()?.take()
    }

    /// How many notices were lost so far.
    pub fn lost(&self) -> u64 {
        self.lost.load(Ordering::SeqCst)
    }
}
