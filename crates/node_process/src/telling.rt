//! How the operator is told what happens.
ghost use Rattle.std.specs.Prelude.{◌≡◌, ◌++◌, IfOk, OnOk, string_bytes};
ghost use Rattle.node_process.specs.Lines.{IsLine, IsStamp, more_text};

use http_wire::{Sink, write_all};
use jiff_core::Timestamp;
use jiff_fmt::temporal::DateTimePrinter;
use operator_notices::{Kind, Notice, Notices};
use std::alloc::{AllocError, Global};
use std::sync::{Mutex, Wait};
use std::time::{Clock, Duration, SystemTime};

/// Each kind of notice, in the order in which they are written.
const KINDS: [Kind; 8] = [
    Kind::Journal,
    Kind::Device,
    Kind::Descriptors,
    Kind::Memory,
    Kind::Listener,
    Kind::Peer,
    Kind::Bodies,
    Kind::Replies,
];

/// How many milliseconds pass at least between two lines of a kind.
const SPAN: u128 = 1_000;

/// What stands for a time that has no date.
const NO_DATE: &str = "0000-00-00T00:00:00Z";

/// Writes a line for each notice, at most one a second of a kind. What can't be written is dropped.
#[derive(Drop)]
pub struct Teller<'a, T> {
    alloc: Global,
    sink: &'a Mutex<T>,
    /// When lines were written last, by the clock.
    told: Option<Duration>,
}

impl<'a, T: Sink> Teller<'a, T> {
    /// Nothing was told yet.
    pub fn new(alloc: Global, sink: &'a Mutex<T>) -> Teller<'a, T> {
        Teller {
            alloc,
            sink,
            told: None,
        }
    }

    /// Tells what waits, unless lines were written less than a second ago.
    pub fn tell<R: Wait + Clock>(&mut self, rt: &R, notices: &Notices) {
        let now = rt.monotonic().ok();
        if let (Some(now), Some(told)) = (now, self.told) {
            if now.saturating_sub(told).as_millis() < SPAN {
                return;
            }
        }
        for kind in KINDS {
            if let Some(notice) = notices.take(kind) {
                self.told = now;
                let _ = self.write(rt, kind, &notice);
            }
        }
    }

    /// Writes the line of a notice.
    fn write<R: Wait + Clock>(
        &self,
        rt: &R,
        kind: Kind,
        notice: &Notice,
    ) -> Result<(), AllocError> {
        let line = line_of(self.alloc, seconds(rt), kind, notice)?;
        let mut sink = self.sink.lock(rt);
        let _ = write_all(&mut *sink, line.as_bytes());
        Ok(())
    }
}

/// The seconds since the beginning of 1970; 0 where the time can't be told.
fn seconds<R: Clock>(rt: &R) -> u64 {
    let Ok(now) = SystemTime::now(rt) else {
        return 0;
    };
    match now.duration_since(SystemTime::UNIX_EPOCH) {
        Ok(since) => since.as_secs(),
        Err(_) => 0,
    }
}

/// A time in UTC, as in `2026-11-28T18:04:05Z` (RFC 3339, section 5.6).
fn stamp(alloc: Global, seconds: u64) -> Result<String, AllocError>
    ensures { IfOk result (λ text. IsStamp seconds (string_bytes text)) }
{
    let Ok(moment) = Timestamp::from_nanosecond(seconds as i128 * 1_000_000_000) else {
        return format!(in alloc; "{}", NO_DATE);
    };
    let printer = DateTimePrinter::new().precision(Some(0));
    format!(in alloc; "{}", printer.timestamp_text(moment).as_str())
}

/// The line of a notice that is written so many seconds after the beginning of 1970.
fn line_of(alloc: Global, seconds: u64, kind: Kind, notice: &Notice) -> Result<String, AllocError>
    ensures { IfOk result (λ line. IsLine seconds kind notice.now (string_bytes line)) }
{
    let stamp = stamp(alloc, seconds)?;
    let (word, text) = (kind.word(), notice.text.as_str());
    let mut line = format!(in alloc; "filehost: {stamp} {word}: {text}")?;
    push_more(&mut line, notice.more)?;
    line.push_str("\n")?;
    Ok(line)
}

/// Appends how many more of its kind came, if any did.
fn push_more(line: &mut String, more: u64) -> Result<(), AllocError>
    ensures { OnOk result (string_bytes line.new ≡ string_bytes line.old ++ more_text more) }
{
    if more == 0 {
        return Ok(());
    }
    write!(line, " ({more} more)")
}
