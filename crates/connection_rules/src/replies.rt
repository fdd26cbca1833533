//! How many bytes of files the replies of a node hold.
ghost use Rattle.std.specs.Prelude.{◌≡◌, OnOk, nat_lt};
ghost use Rattle.connection_rules.specs.Holding as spec;

use std::alloc::{AllocError, Global};
use std::collections::BTreeMap;

/// How many bytes of files the replies of a node hold at most: 256 MiB.
const ROOM: u64 = 268_435_456;

/// What a reply holds of a file until it is sent.
#[derive(Clone, Copy, Debug, PartialEq, Eq)]
pub struct HeldReply {
    /// The digest of the file.
    pub file: [u8; 20],
    /// How many bytes the reply sends.
    pub length: u64,
    /// How many bytes the file has; the greatest number where that isn't known.
    pub size: u64,
}

/// What the replies hold of one file.
#[derive(Clone, Copy, Debug, PartialEq, Eq)]
pub struct HeldFile {
    /// How many bytes they send in all.
    pub sent: u64,
    /// How many bytes the file has; the greatest number where that isn't known.
    pub size: u64,
}

impl HeldFile {
    /// How many bytes are held at most: the replies share what they hold of a file.
    pub fn held(&self) -> u64
        ensures { result ≡ spec.held_of self.now }
    {
        self.sent.min(self.size)
    }

    /// With one more reply.
    pub fn with(&self, reply: &HeldReply) -> HeldFile
        ensures { result ≡ spec.with_reply reply.now self.now }
    {
        HeldFile {
            sent: self.sent.saturating_add(reply.length),
            size: self.size.min(reply.size),
        }
    }

    /// With one reply less.
    pub fn without(&self, reply: &HeldReply) -> HeldFile
        ensures { result ≡ spec.without_reply reply.now self.now }
    {
        HeldFile {
            sent: self.sent.saturating_sub(reply.length),
            size: self.size,
        }
    }
}

/// The replies of a node that are on their way, by their files.
#[derive(Drop)]
pub struct Replies {
    files: BTreeMap<[u8; 20], HeldFile>,
    held: u64,
}

impl Replies {
    /// There are none.
    pub fn new(alloc: Global) -> Replies
        ensures { result.held ≡ 0 }
    {
        Replies {
            files: BTreeMap::new(alloc),
            held: 0,
        }
    }

    // A file of which so much was held is held so much of now.
    fn recount(&mut self, before: u64, after: u64)
        ensures { self.new ≡ record self.old { held = spec.recounted before after self.old.held } }
    {
        self.held = self.held.saturating_sub(before).saturating_add(after);
    }

    /// One more is on its way.
    pub fn add(&mut self, reply: &HeldReply) -> Result<(), AllocError>
        ensures { OnOk result (spec.IsAdded reply.now self.old self.new) }
    {
        let none = HeldFile {
            sent: 0,
            size: u64::MAX,
        };
        let file = self.files.entry(reply.file)?.or_insert(none);
        let (before, after) = (*file, file.with(reply));
        *file = after;
        self.recount(before.held(), after.held());
        Ok(())
    }

    /// One less is.
    pub fn remove(&mut self, reply: &HeldReply)
        ensures { spec.IsRemoved reply.now self.old self.new }
    {
        let Some(file) = self.files.get_mut(&reply.file) else {
            return;
        };
        let (before, after) = (*file, file.without(reply));
        *file = after;
        if after.sent == 0 {
            self.files.remove(&reply.file);
        }
        self.recount(before.held(), after.held());
    }

    /// Whether they hold more than they may.
    pub fn are_too_many(&self) -> bool
        ensures { result ≡ nat_lt 268435456 self.now.held }
    {
        self.held > ROOM
    }
}
