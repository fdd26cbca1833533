//! The notice of a kind that waits.
ghost use Rattle.std.specs.Prelude.{◌≡◌, ◌+◌, ◌-◌, ◌^◌, IfSome, IsSome, None, min};
ghost use Rattle.operator_notices.specs.Waiting.{IsNoted};

use crate::texts::{Text, text_of};
use std::sync::Mutex;

/// A notice, and how many more of its kind came before it was taken.
#[derive(Drop)]
pub struct Notice {
    pub text: Text,
    pub more: u64,
}

impl Notice {
    /// Counts one more of its kind. The count stops at `u64::MAX`.
    fn count(&mut self)
        ensures text { self.new.text ≡ self.old.text }
        ensures more { self.new.more ≡ min (self.old.more + 1) (2 ^ 64 - 1) }
    {
        self.more = self.more.saturating_add(1);
    }
}

/// The notice of a kind that waits, if one does.
#[derive(Drop)]
pub(crate) struct Slot {
    waiting: Option<Notice>,
}

impl Slot {
    /// A slot in which none waits, for threads that share it.
    pub(crate) fn shared() -> Mutex<Slot> {
        Mutex::new(Slot { waiting: None })
    }

    /// Keeps what happened, and why; while a notice waits, this one is only counted.
    pub(crate) fn note(&mut self, what: &str, why: &str)
        ensures waits { IsSome self.new.waiting }
        ensures noted { IfSome self.new.waiting (IsNoted what.now why.now self.old.waiting) }
    {
        match &mut self.waiting {
            Some(notice) => notice.count(),
            None => {
                self.waiting = Some(Notice {
                    text: text_of(what, why),
                    more: 0,
                })
            }
        }
    }

    /// Takes the notice that waits, if one does.
    pub(crate) fn take(&mut self) -> Option<Notice>
        ensures taken { result ≡ self.old.waiting }
        ensures empty { self.new.waiting ≡ None }
    {
        self.waiting.take()
    }
}
