//! What went over a socket, for clauses alone.
ghost use Rattle.std.specs.Prelude.{◌≡◌, [], ◌∷◌, take};
ghost use Rattle.byte_slices.specs.Slices.{joined};
ghost use Rattle.http_wire.specs.Timing.{Put, ReadFails, WriteFails, read_of};
ghost use Rattle.tcp_socket.specs.Trails.{noted_read, noted_read_failure, noted_write, noted_write_failure};

use boxcar::tag::{Names, Tag};
use byte_slices::Slices;
use std::marker::Model;

/// The same numbers.
struct Same;

impl Names<Tag> for Same {
    ghost numbers = { λ past. past.numbers };
}

/// A read that gave these bytes, or found the end if there are none.
struct Read;

impl<'t, 'a> Names<(&'t Tag, &'a [u8])> for Read {
    ghost numbers = { λ read. noted_read read.1.now read.0.now.numbers };
}

/// A read that failed.
struct ReadFailed;

impl Names<Tag> for ReadFailed {
    ghost numbers = { λ past. noted_read_failure past.numbers };
}

/// A write that took these bytes.
struct Written;

impl<'t, 'a> Names<(&'t Tag, &'a [u8])> for Written {
    ghost numbers = { λ written. noted_write written.1.now written.0.now.numbers };
}

/// A write that took so many bytes of these slices, from their front.
struct WrittenFront;

impl<'t, 's, 'a> Names<(&'t Tag, &'s Slices<'a>, usize)> for WrittenFront {
    ghost numbers = { λ written. noted_write (take written.2 (joined written.1.now)) written.0.now.numbers };
}

/// A write that failed.
struct WriteFailed;

impl Names<Tag> for WriteFailed {
    ghost numbers = { λ past. noted_write_failure past.numbers };
}

/// All that was read from a socket and written to it so far, as the calls told. Contracts see the events, the latest first. Only a socket adds to it. A tag has
/// no bytes, so nothing is kept when the program runs.
#[derive(Drop)]
pub struct Trail {
    noted: Tag,
}

impl Model for Trail {
    ghost use Rattle.std.specs.Prelude.{List};
    ghost use Rattle.http_wire.specs.Timing.{Event};
    ghost use Rattle.tcp_socket.specs.Trails.{events_of};

    ghost Value = { List Event };

    ghost view = { λ trail. events_of trail.noted.numbers };
}

impl Trail {
    /// That of a socket over which nothing went.
    pub fn new() -> Trail
        ensures { result ≡ [] }
    {
        Trail {
            noted: Tag::empty(),
        }
    }

    /// The same.
    pub fn again(&self) -> Trail
        ensures { result ≡ self.now }
    {
        Trail {
            noted: Tag::of::<Tag, Same>(&self.noted),
        }
    }

    /// A read gave these bytes, or found the end if there are none.
    pub(crate) fn note_read(&mut self, bytes: &[u8])
        ensures { self.new ≡ read_of bytes.now ∷ self.old }
    {
        self.noted = Tag::of::<(&Tag, &[u8]), Read>(&(&self.noted, bytes));
    }

    /// A read failed.
    pub(crate) fn note_read_failed(&mut self)
        ensures { self.new ≡ ReadFails ∷ self.old }
    {
        self.noted = Tag::of::<Tag, ReadFailed>(&self.noted);
    }

    /// A write took these bytes.
    pub(crate) fn note_written(&mut self, bytes: &[u8])
        ensures { self.new ≡ Put bytes.now ∷ self.old }
    {
        self.noted = Tag::of::<(&Tag, &[u8]), Written>(&(&self.noted, bytes));
    }

    /// A write took so many bytes of slices, from their front.
    pub(crate) fn note_slices(&mut self, slices: &Slices<'_>, count: usize)
        ensures { self.new ≡ Put (take count (joined slices.now)) ∷ self.old }
    {
        self.noted = Tag::of::<(&Tag, &Slices<'_>, usize), WrittenFront>(&(
            &self.noted,
            slices,
            count,
        ));
    }

    /// A write failed.
    pub(crate) fn note_write_failed(&mut self)
        ensures { self.new ≡ WriteFails ∷ self.old }
    {
        self.noted = Tag::of::<Tag, WriteFailed>(&self.noted);
    }
}
