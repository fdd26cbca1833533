//! What is asked of a desk: each call is one of the desk's. Deployers and their threads know no more of it, so they aren't generic in all that a desk is
//! made of, which would cost their proofs much time.

use crate::desk::gates::Gate;
use crate::desk::scripts::Upload;
use blob_store::{LockedAccess, Shelf};
use change_log::Log;
use host_disk::Disk;
use host_names::Digest;
use left_right::Absorb;
use seen_lists::{Front, ListName};
use shared_desk::Desk;
use site_change::Entry;
use site_desk::{DeskError, DeskName, KnownFiles, Notice, Seat, SeenFiles, UploadError};
use std::alloc::AllocError;
use std::sync::Wait;

/// The answer to an entry.
pub(crate) type Entered<J> = Result<Notice<J>, DeskError<Notice<J>>>;

/// The answer to an upload.
pub(crate) type Uploaded<J> = Result<Option<Notice<J>>, UploadError<Notice<J>>>;

/// A desk that threads share.
pub(crate) trait AskedDesk<J: DeskName> {
    /// Its answer where this is to be its next entry. It tells the entries by which it is judged.
    fn enter<W: Wait>(
        &self,
        rt: &W,
        seen: &mut Front<Log, J>,
        seat: &mut Seat<J>,
        entry: Entry,
    ) -> Entered<J>;

    /// Its answer to an upload to the deploy of this number, by the steps of `SeatedDesk::upload` of `desk_seats`.
    fn upload<W: Wait>(
        &self,
        rt: &W,
        seen: &mut Front<Log, J>,
        seat: &mut Seat<J>,
        number: u64,
        upload: &Upload,
    ) -> Uploaded<J>;

    /// The receipt of all entries, if there is memory for it. It tells them.
    fn last<W: Wait>(&self, rt: &W, seen: &mut Front<Log, J>) -> Result<Notice<J>, AllocError>;

    /// Reads the chunk of these bytes. Tells whether it has them, and how many calls have come to the gate by then.
    fn read<W: Wait>(&self, rt: &W, gate: &Gate, bytes: &[u8]) -> (bool, u64);

    /// Closes it, if these are all its seats. Answers how many entries there are.
    fn close(&mut self, seats: &mut Vec<Seat<J>>) -> Option<u64>;
}

impl<
    J: DeskName,
    K: ListName<KnownFiles>,
    D: Disk,
    S: Shelf,
    T: Absorb<Notice<J>, State = Log> + Drop,
    R: Wait + Drop,
> AskedDesk<J> for Desk<J, K, D, S, T, R> {
    fn enter<W: Wait>(
        &self,
        rt: &W,
        seen: &mut Front<Log, J>,
        seat: &mut Seat<J>,
        entry: Entry,
    ) -> Entered<J> {
        match entry {
            Entry::Change(command) => self.commit(rt, seen, seat, command),
            Entry::Undo { site, change } => self.undo(rt, seen, seat, &site, change),
        }
    }

    fn upload<W: Wait>(
        &self,
        rt: &W,
        seen: &mut Front<Log, J>,
        seat: &mut Seat<J>,
        number: u64,
        upload: &Upload,
    ) -> Uploaded<J> {
        let listed = match self.judge(rt, seen, seat, &upload.site, number, &upload.path) {
            Ok(listed) => listed,
            Err(why) => return Err(why),
        };
        let bytes = upload.text.as_bytes();
        let digest = Digest::of_bytes(bytes);
        if listed != digest {
            return Err(UploadError::WrongDigest);
        }
        match self.store(rt, &LockedAccess, digest, bytes) {
            Ok(stored) => {
                let mut known = SeenFiles::of(stored);
                self.publish_if_ready(rt, seen, &mut known, seat, &upload.site, number)
            }
            Err(fault) => Err(UploadError::NotStored(fault)),
        }
    }

    fn last<W: Wait>(&self, rt: &W, seen: &mut Front<Log, J>) -> Result<Notice<J>, AllocError> {
        self.shown(rt, seen)
    }

    fn read<W: Wait>(&self, rt: &W, gate: &Gate, bytes: &[u8]) -> (bool, u64) {
        let name = Digest::of_bytes(bytes);
        let mut files = self.files().lock(rt);
        let read = files.chunk(&name);
        // The files are still locked, so no put comes between the read and the count.
        let held = gate.held();
        (read.is_ok_and(|chunk| chunk.view().bytes() == bytes), held)
    }

    fn close(&mut self, seats: &mut Vec<Seat<J>>) -> Option<u64> {
        self.close(seats)
    }
}
