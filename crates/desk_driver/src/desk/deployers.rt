//! Deployers: what they are answered, and what they see then.

use crate::desk::asked::{AskedDesk, Entered, Uploaded};
use crate::desk::scripts::{Task, Upload};
use anyhow::{Result, anyhow};
use blob_store::UploadFault;
use change_log::Log;
use host_names::{Digest, FilePath, SiteName};
use seen_lists::{Front, Visitor};
use site_change::{ChangeRefusal, Command, Entry};
use site_desk::{DeskError, DeskName, HostSnap, Notice, Seat, UploadError, number_of};
use std::alloc::Global;
use std::io::Print;
use std::sync::Wait;

/// Who looks at what is shown of a desk.
pub(crate) type Reader<J> = Visitor<Log, J, HostSnap>;

/// What a desk answers. Numbers are those of last entries: of the receipt, and of the log that a refusal is of.
#[derive(Debug, Drop)]
pub(crate) enum Told {
    Made(u64),
    Stored,
    Refused(ChangeRefusal, u64),
    NoReceipt(ChangeRefusal),
    NoSuchDeploy,
    NotListed,
    WrongDigest,
    NotStored(UploadFault),
    Broken,
    OutOfMemory,
    Device,
}

/// Who makes entries from a seat, and learns each receipt.
#[derive(Drop)]
pub(crate) struct Deployer<J: DeskName> {
    pub(crate) number: usize,
    pub(crate) seat: Seat<J>,
    pub(crate) reader: Reader<J>,
    pub(crate) last: u64,
}

/// Whether a snapshot serves `hello` as `/a.txt` of the site `one`.
fn served_by(alloc: Global, snap: &HostSnap) -> Result<bool> {
    let site = SiteName::new("one")?;
    let path = FilePath::read(alloc, "/a.txt")?;
    let file = snap.state().file(&site, &path);
    Ok(file.is_some_and(|file| file.digest() == Digest::of_bytes(b"hello")))
}

/// What an entry does, in a word, with the number that it names.
fn word_of(alloc: Global, entry: &Entry) -> Result<String> {
    let word = match entry {
        Entry::Undo { change, .. } => format!(in alloc; " undo:{change}")?,
        Entry::Change(Command::Publish { number, .. }) => format!(in alloc; " publish:{number}")?,
        Entry::Change(Command::Open { .. }) => String::from_str(alloc, " open")?,
        Entry::Change(Command::Remove { .. }) => String::from_str(alloc, " remove")?,
        Entry::Change(_) => String::from_str(alloc, " other")?,
    };
    Ok(word)
}

/// What the entries of a log do, each after a space.
fn words_of(alloc: Global, log: &Log) -> Result<String> {
    let mut words = String::new(alloc);
    for number in 1..=log.len() {
        if let Some(entry) = log.entry(number) {
            words.push_str(word_of(alloc, entry)?.as_str())?;
        }
    }
    Ok(words)
}

/// Whether two fronts are of the same entries.
fn are_same<J: DeskName>(one: &Front<Log, J>, other: &Front<Log, J>) -> bool {
    one.reaches(other) && other.reaches(one)
}

impl<J: DeskName> Deployer<J> {
    /// Learns a receipt, and tells its number.
    fn learn(&mut self, receipt: Notice<J>) -> u64 {
        let number = number_of(&receipt);
        self.reader.learn(receipt);
        number
    }

    /// Learns the receipt of the last entry.
    fn learn_made(&mut self, receipt: Notice<J>) -> Told {
        self.last = self.learn(receipt);
        Told::Made(self.last)
    }

    /// Learns the receipt of an error, and tells what it is.
    fn learn_error(&mut self, error: DeskError<Notice<J>>) -> Told {
        match error {
            DeskError::Refused { reason, seen } => Told::Refused(reason, self.learn(seen)),
            DeskError::NoReceipt(reason) => Told::NoReceipt(reason),
            DeskError::Broken => Told::Broken,
            DeskError::OutOfMemory => Told::OutOfMemory,
            DeskError::Device => Told::Device,
        }
    }

    /// Learns the receipt of an answer to a change or an undo, and tells what it is.
    fn learn_answer(&mut self, answer: Entered<J>) -> Told {
        match answer {
            Ok(receipt) => self.learn_made(receipt),
            Err(error) => self.learn_error(error),
        }
    }

    /// Learns the receipt of an answer to an upload, and tells what it is.
    fn learn_upload(&mut self, answer: Uploaded<J>) -> Told {
        match answer {
            Ok(Some(receipt)) => self.learn_made(receipt),
            Ok(None) => Told::Stored,
            Err(UploadError::NotPublished(error)) => self.learn_error(error),
            Err(UploadError::NotStored(fault)) => Told::NotStored(fault),
            Err(UploadError::Broken) => Told::Broken,
            Err(UploadError::NoSuchDeploy) => Told::NoSuchDeploy,
            Err(UploadError::NotListed) => Told::NotListed,
            Err(UploadError::WrongDigest) => Told::WrongDigest,
        }
    }

    /// What the desk answers where this is to be its next entry.
    fn enter<A: AskedDesk<J>>(&mut self, rt: &impl Wait, desk: &A, entry: Entry) -> Told {
        let mut seen = self.reader.front();
        let answer = desk.enter(rt, &mut seen, &mut self.seat, entry);
        self.reader.learn_front(&seen);
        self.learn_answer(answer)
    }

    /// What it answers to an upload.
    fn upload<A: AskedDesk<J>>(&mut self, rt: &impl Wait, desk: &A, upload: &Upload) -> Told {
        let number = upload.number.unwrap_or(self.last);
        let mut seen = self.reader.front();
        let answer = desk.upload(rt, &mut seen, &mut self.seat, number, upload);
        self.reader.learn_front(&seen);
        self.learn_upload(answer)
    }

    /// What it answers to something.
    fn answer<A: AskedDesk<J>>(&mut self, rt: &impl Wait, desk: &A, task: Task) -> Told {
        match task {
            Task::Enter(entry) => self.enter(rt, desk, entry),
            Task::Upload(upload) => self.upload(rt, desk, &upload),
        }
    }

    /// Asks for something, and prints what is answered.
    pub(crate) fn ask<A: AskedDesk<J>, W: Wait + Print>(
        &mut self,
        rt: &W,
        desk: &A,
        task: Task,
    ) -> Result<()> {
        let told = self.answer(rt, desk, task);
        Ok(println!(rt; "deployer {} {told:?}", self.number)?)
    }

    /// The receipt that the desk hands out is of all entries that a look shows, and so is what it tells. It fails if not.
    pub(crate) fn compare<A: AskedDesk<J>>(&mut self, rt: &impl Wait, desk: &A) -> Result<()> {
        let mut seen = self.reader.front();
        let Ok(receipt) = desk.last(rt, &mut seen) else {
            return Err(anyhow!("a receipt has no memory"));
        };
        let shown = self.reader.front();
        if !are_same(receipt.front(), &shown) || !are_same(&seen, &shown) {
            return Err(anyhow!("the desk has other entries than it shows"));
        }
        Ok(())
    }

    /// Looks, and prints how many entries were made from the seat, whether `/a.txt` is served, and what all entries do.
    pub(crate) fn look(&mut self, rt: &impl Print, alloc: Global) -> Result<()> {
        let snap = self
            .reader
            .look()
            .map_err(|_| anyhow!("a look has no memory"))?;
        let is_served = served_by(alloc, &snap)?;
        let words = words_of(alloc, snap.log())?;
        println!(rt;
            "share {} served {is_served} entries{words}",
            self.seat.share()
        )?;
        Ok(())
    }
}
