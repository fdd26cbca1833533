//! Replies that a worker keeps, each over a log.
use crate::notes::LogFront;
use site_desk::DeskName;
use std::alloc::{AllocError, Global};
use std::marker::Model;
use std::sync::Arc;

/// What a reply that is kept takes beside its texts, in bytes.
const BESIDE: usize = 160;

/// The text of a reply, over a log, to the head of a request. Contracts see the head.
#[derive(Drop)]
pub struct Kept<J: DeskName> {
    front: LogFront<J>,
    head: Vec<u8>,
    text: Arc<Vec<u8>>,
}

impl<J: DeskName> Model for Kept<J> {
    ghost use Rattle.std.specs.Prelude.{List, ℕ};
    ghost use Rattle.shared_house.specs.Kept.{IsKept};

    ghost Value = { List ℕ };

    ghost view = { λ k. k.head.items };

    ghost invariant = { λ k. IsKept k.front k.head.items k.text.value.items };
}

impl<J: DeskName> Kept<J> {
    ghost use Rattle.std.specs.Prelude.{◌≡◌, IfSome, IsTrue};
    ghost use Rattle.shared_house.specs.Kept.{IsKept};

    /// The text of the reply to this head over this log. There may be no memory to keep it.
    pub(crate) fn new(
        alloc: Global,
        front: LogFront<J>,
        head: &[u8],
        text: Vec<u8>,
    ) -> Result<Kept<J>, AllocError>
        requires { IsKept front head.now text.items }
    {
        let head = head.to_vec(alloc)?;
        let text = Arc::new(alloc, text)?;
        Ok(Kept { front, head, text })
    }

    /// How many bytes of memory it takes.
    pub(crate) fn size(&self) -> usize {
        self.head
            .len()
            .saturating_add(self.text.len())
            .saturating_add(BESIDE)
    }

    /// The head.
    pub(crate) fn head(&self) -> &[u8]
        ensures { result.now ≡ self.now }
    {
        self.head.as_slice()
    }

    /// Whether it is the reply to this head.
    pub(crate) fn is_to(&self, head: &[u8]) -> bool
        ensures { IsTrue result → self.now ≡ head.now }
    {
        self.head.as_slice() == head
    }

    /// The text of the reply over this log, if it is over that.
    pub(crate) fn text_over(&self, front: &LogFront<J>) -> Option<Arc<Vec<u8>>>
        ensures { IfSome result (λ text. IsKept front.now self.now text.value.items) }
    {
        if !self.front.reaches(front) || !front.reaches(&self.front) {
            return None;
        }
        match Arc::try_clone(&self.text) {
            Ok(text) => Some(text),
            Err(_) => None,
        }
    }
}
