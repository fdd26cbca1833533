//! Gathers texts and writes them.
ghost use Rattle.std.specs.Prelude.{◌≡◌, ◌≤◌, ◌↔◌, ℕ, IsTrue, ◌-◌, List, [], ◌++◌, drop, length, IfOk, IsErrOf, MatchBool, OnOk};
ghost use Rattle.std.specs.List.{flat_map};
ghost use Rattle.http_wire.specs.Gathering.{from_front, IsCounted, nothing, Puts, SendsOn, WritesOn};
ghost use Rattle.byte_slices.specs.Slices.{joined};
ghost use Rattle.http_wire.specs.Timing.{Event, NoRead, Ran, Steps};

use crate::duplexes::Duplex;
use crate::halts::Halt;
use crate::sinks::WriteFailed;
use byte_slices::Slices;
use std::alloc::{AllocError, Global};
use std::marker::Model;

// How many bytes are gathered before they are written, so that a small reply is one write.
pub(crate) const ROOM: usize = 8192;

/// A buffer that gathers a text before it is written, and the progress of that text. A connection allocates the buffer once and lends
/// it to each call that writes. If a write has to wait, the gathered bytes stay, and the next call for the same text goes on after them.
#[derive(Drop)]
pub struct Outgoing {
    // The gathered bytes, and how many of them were written.
    pending: Vec<u8>,
    at: usize,
    // How many bytes of the text were written.
    sent: u64,
    // How many bytes of what is put next were already taken.
    passed: u64,
}

impl Model for Outgoing {
    ghost use Rattle.std.specs.Prelude.{◌≤◌, drop, vec_len};
    ghost use Rattle.http_wire.specs.Gathering.{Gathered};

    ghost Value = { Gathered };

    ghost view = { λ o. record { rest = drop o.at o.pending.items; sent = o.sent; passed = o.passed } };

    ghost invariant = { λ o. o.at ≤ vec_len o.pending };
}

// Writes the slices, drops the bytes that were written, and adds their number to `sent`.
fn send_slices<D: Duplex>(
    duplex: &mut D,
    sent: &mut u64,
    slices: &mut Slices<'_>,
) -> Result<(), Halt<WriteFailed>>
    ensures ran { Ran D.saw NoRead duplex.old duplex.new
        (WritesOn result [] sent.old sent.new (joined slices.old) (joined slices.new)) }
    ensures first { (count : ℕ) × (slices.new.first.now ≡ drop count slices.old.first.now) }
    ensures all { OnOk result (joined slices.new ≡ []) }
    ensures waits { IsErrOf result Halt.WouldWait → D.waits duplex.new }
{
    'writes: while !slices.is_empty() {
        let count = duplex.write_slices(slices)?;
        slices.skip(count);
        *sent = sent.saturating_add(count as u64);
    }
    Ok(())
}

impl Outgoing {
    /// Returns an empty buffer. Allocates memory for 8,192 bytes.
    pub fn new(alloc: Global) -> Result<Outgoing, AllocError>
        ensures { IfOk result (λ out. out ≡ nothing) }
    {
        Ok(Outgoing {
            pending: Vec::with_capacity(alloc, ROOM)?,
            at: 0,
            sent: 0,
            passed: 0,
        })
    }

    /// Begins another text.
    pub fn begin(&mut self)
        ensures { self.new ≡ nothing }
    {
        self.pending.clear();
        self.at = 0;
        self.sent = 0;
        self.passed = 0;
    }

    // Begins to put the same text again, and passes over the bytes that were already taken.
    pub(crate) fn go_on(&mut self)
        ensures { self.new ≡ from_front self.old }
    {
        let gathered = self.pending.len() - self.at;
        self.passed = self.sent.saturating_add(gathered as u64);
    }

    /// Whether the written and the gathered bytes are few enough to be counted. They always are: otherwise a text would have about
    /// 2^64 bytes.
    pub fn is_counted(&self) -> bool
        ensures { IsTrue result ↔ IsCounted self.now }
    {
        let gathered = self.pending.len() - self.at;
        self.sent.saturating_add(gathered as u64) < u64::MAX
    }

    /// Returns the number of bytes of the text that were written.
    pub fn sent(&self) -> u64
        ensures { result ≡ self.now.sent }
    {
        self.sent
    }

    // Gathers one more piece if there is room for it, and returns whether it did.
    fn gather(&mut self, piece: &[u8]) -> bool
        ensures gathered { MatchBool result (self.new.rest ≡ self.old.rest ++ piece.now)
            (self.new.rest ≡ self.old.rest) }
        ensures sent { self.new.sent ≡ self.old.sent }
        ensures passed { self.new.passed ≡ self.old.passed }
    {
        let room = self.pending.capacity() - self.pending.len();
        if room < piece.len() {
            return false;
        }
        self.pending.extend_from_slice(piece).is_ok()
    }

    // Returns the rest of a piece, after the bytes that were already taken.
    fn behind<'a>(&mut self, piece: &'a [u8]) -> &'a [u8]
        ensures left { result.now ≡ drop self.old.passed piece.now }
        ensures passed { self.new.passed ≡ self.old.passed - length piece.now }
        ensures sent { self.new.sent ≡ self.old.sent }
        ensures rest { self.new.rest ≡ self.old.rest }
    {
        let count = self.passed.min(piece.len() as u64);
        self.passed -= count;
        &piece[count as usize..]
    }

    // Writes the gathered bytes and then these pieces.
    pub(crate) fn write<D: Duplex>(
        &mut self,
        duplex: &mut D,
        first: &[u8],
        second: &[u8],
        third: &[u8],
    ) -> Result<(), Halt<WriteFailed>>
        ensures ran { Ran D.saw NoRead duplex.old duplex.new
            (WritesOn result (first.now ++ (second.now ++ third.now))
            self.old.sent self.new.sent self.old.rest self.new.rest) }
        ensures empty { OnOk result (self.new.rest ≡ []) }
        ensures passed { self.new.passed ≡ self.old.passed }
        ensures waits { IsErrOf result Halt.WouldWait → D.waits duplex.new }
    {
        let mut slices = Slices {
            first: &self.pending.as_slice()[self.at..],
            second: first,
            third: second,
            fourth: third,
        };
        let done = send_slices(duplex, &mut self.sent, &mut slices);
        self.at = self.pending.len() - slices.first.len();
        done?;
        self.pending.clear();
        self.at = 0;
        Ok(())
    }

    // Puts three more pieces, without the bytes that were already taken: gathers pieces while there is room, and writes the others after
    // the gathered bytes.
    pub(crate) fn put_three<D: Duplex>(
        &mut self,
        duplex: &mut D,
        first: &[u8],
        second: &[u8],
        third: &[u8],
    ) -> Result<(), Halt<WriteFailed>>
        ensures ran { Ran D.saw NoRead duplex.old duplex.new
            (Puts result (first.now ++ (second.now ++ third.now)) self.old self.new) }
        ensures waits { IsErrOf result Halt.WouldWait → D.waits duplex.new }
    {
        let first = self.behind(first);
        let second = self.behind(second);
        let third = self.behind(third);
        if !self.gather(first) {
            return self.write(duplex, first, second, third);
        }
        if !self.gather(second) {
            return self.write(duplex, second, third, &[]);
        }
        if !self.gather(third) {
            return self.write(duplex, third, &[], &[]);
        }
        Ok(())
    }

    // Puts four more pieces, without the bytes that were already taken. If the last one has bytes, none of them is gathered: they go out together, after
    // what is.
    pub(crate) fn put_four<D: Duplex>(
        &mut self,
        duplex: &mut D,
        first: &[u8],
        second: &[u8],
        third: &[u8],
        fourth: &[u8],
    ) -> Result<(), Halt<WriteFailed>>
        ensures ran { Ran D.saw NoRead duplex.old duplex.new
            (Puts result (first.now ++ (second.now ++ (third.now ++ fourth.now))) self.old self.new) }
        ensures waits { IsErrOf result Halt.WouldWait → D.waits duplex.new }
    {
        if fourth.is_empty() {
            return self.put_three(duplex, first, second, third);
        }
        self.write(duplex, &[], &[], &[])?;
        let first = self.behind(first);
        let second = self.behind(second);
        let third = self.behind(third);
        let fourth = self.behind(fourth);
        let mut slices = Slices {
            first,
            second,
            third,
            fourth,
        };
        send_slices(duplex, &mut self.sent, &mut slices)
    }

    /// Goes on with a text after the bytes of it that were written. If nothing is gathered of it, none of it is copied.
    pub fn try_send<D: Duplex>(
        &mut self,
        duplex: &mut D,
        text: &[u8],
    ) -> Result<(), Halt<WriteFailed>>
        requires { IsCounted self.old }
        ensures ran { SendsOn D.saw duplex.old duplex.new result text.now self.old self.new }
        ensures led { (events : List Event) × Steps D.saw duplex.old events duplex.new }
        ensures waits { IsErrOf result Halt.WouldWait → D.waits duplex.new }
    {
        self.go_on();
        let left = self.behind(text);
        self.write(duplex, left, &[], &[])
    }

    // Puts one more piece.
    pub(crate) fn put<D: Duplex>(
        &mut self,
        duplex: &mut D,
        piece: &[u8],
    ) -> Result<(), Halt<WriteFailed>>
        ensures ran { Ran D.saw NoRead duplex.old duplex.new (Puts result piece.now self.old self.new) }
        ensures waits { IsErrOf result Halt.WouldWait → D.waits duplex.new }
    {
        let piece = self.behind(piece);
        if self.gather(piece) {
            return Ok(());
        }
        self.write(duplex, piece, &[], &[])
    }
}

/// Puts the pieces in order.
pub fn put_pieces<D: Duplex>(
    duplex: &mut D,
    out: &mut Outgoing,
    pieces: &[&[u8]],
) -> Result<(), Halt<WriteFailed>>
    ensures ran { Ran D.saw NoRead duplex.old duplex.new
        (Puts result (flat_map (λ p. p.now) pieces.now) out.old out.new) }
    ensures waits { IsErrOf result Halt.WouldWait → D.waits duplex.new }
{
    for piece in pieces {
        out.put(duplex, piece)?;
    }
    Ok(())
}
