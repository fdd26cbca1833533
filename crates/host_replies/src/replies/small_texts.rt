//! The texts of small replies, as they are sent.
ghost use Rattle.std.specs.Prelude.{◌≡◌, ⊤, ◌++◌, ◌≤◌, false, length, true, vec_len, IfSome, IsTrue, Some};
ghost use Rattle.http_wire.specs.Gathering.{nothing};
ghost use Rattle.host_replies.specs.Bodies.{answer_of};
ghost use Rattle.host_replies.specs.Replies.{sent_text};

use super::Reply;
use http_wire::{Outgoing, Pair, Sink, WriteFailed};
use std::alloc::Global;

/// How many bytes such a text has at most.
const MOST: usize = 8192;

/// A text that is written, of so many bytes at most.
#[derive(Drop)]
struct Sheet {
    text: Vec<u8>,
    ghost small: { vec_len text ≤ 8192 },
}

impl Sink for Sheet {
    ghost held = { λ s. Some s.text.items };

    ghost may_fail = { ⊤ };

    fn write_some(&mut self, bytes: &[u8]) -> Result<usize, WriteFailed> {
        if bytes.len() > MOST - self.text.len() {
            return Err(WriteFailed);
        }
        match self.text.extend_from_slice(bytes) {
            Ok(()) => Ok(bytes.len()),
            Err(_) => Err(WriteFailed),
        }
    }
}

impl Reply {
    /// Writes all that is sent of it, where its connection goes on, to a sheet. Answers whether there was room for it.
    fn write_to(&self, sheet: &mut Pair<&[u8], Sheet>, out: &mut Outgoing, head_only: bool) -> bool
        requires withheld { (answer_of self.now).withheld ≡ true → head_only ≡ true }
        requires fresh { out.old ≡ nothing }
        ensures { IsTrue result → sheet.new.sink.text.items
            ≡ sheet.old.sink.text.items ++ sent_text false head_only (answer_of self.now) }
    {
        match self.try_send(sheet, out, false, head_only) {
            Ok(()) => true,
            Err(_) => false,
        }
    }

    /// All that is sent of it, where its connection goes on, if that has 8,192 bytes at most. There is none either where there is no memory.
    pub fn small_text(&self, alloc: Global, head_only: bool) -> Option<Vec<u8>>
        requires { (answer_of self.now).withheld ≡ true → head_only ≡ true }
        ensures text { IfSome result (λ text. text.items ≡ sent_text false head_only (answer_of self.now)) }
        ensures small { IfSome result (λ text. vec_len text ≤ 8192) }
    {
        if !head_only && self.body.length() > MOST as u64 {
            return None;
        }
        let mut out = Outgoing::new(alloc).ok()?;
        let source: &[u8] = &[];
        let text = Vec::new(alloc);
        let mut sheet = Pair {
            source,
            sink: Sheet { text },
        };
        if !self.write_to(&mut sheet, &mut out, head_only) {
            return None;
        }
        let Pair { source: _, sink } = sheet;
        let Sheet { text } = sink;
        Some(text)
    }
}
