//! Reads requests from a stream: heads and bodies, one after another.
ghost use Rattle.std.specs.Prelude.{◌≡◌, ◌≢◌, ◌<◌, List, [], ◌++◌, ℕ, ◌≤◌, drop, length, vec_len, IfOk, IfErr, IfSome, IsErrOf};
ghost use Rattle.std.specs.Io.KnownBytes.{Consumes, Keeps, IsAtEnd, prepend_known};
ghost use Rattle.http_wire.specs.Halting.{TriesBody, TriesHead, TriesToFind};
ghost use Rattle.http_wire.specs.HeadText.{CutShort};
ghost use Rattle.http_wire.specs.Requests.{IsBadHead};
ghost use Rattle.http_wire.specs.Scanning.{HasSearched};
ghost use Rattle.http_wire.specs.Timing.{Ran};
ghost use Rattle.http_wire.specs.Wires.{HasWholeHead, ServesHead, TakesHead, RefusesLargeHead, AwaitsHead, AwaitsBody, ReadsHead, ReadsBody};

use crate::bodies::{fill_body, read_body};
use crate::buffers::{Buffer, HEAD_LIMIT};
use crate::duplexes::{Duplex, Steady};
use crate::faults::{BodyFault, HeadFault};
use crate::halts::Halt;
use crate::heads::{FIELD_LIMIT, Head};
use crate::scans::{Search, scan};
use httparse::spans::{EMPTY_HEADER_SPAN, HeaderSpan};
use std::alloc::{AllocError, Global};
use std::marker::Model;

/// Reads requests from a stream, one after another, in whatever pieces the stream comes. The stream is lent to each call. A contract
/// sees the bytes that were read and not yet taken. The rest of the requests is these bytes, and then the rest of the stream. The search
/// for the end of a head goes on where it left off, so it looks at each byte once, however slowly the bytes come.
#[derive(Drop)]
pub struct Wire {
    buffer: Buffer,
    search: Search,
    // Room for the fields of a head while it is parsed. It is kept, so that it isn't cleared for each head.
    room: Vec<HeaderSpan>,
}

impl Model for Wire {
    ghost use Rattle.std.specs.Prelude.{◌≡◌, ℕ, List, vec_len};
    ghost use Rattle.http_wire.specs.Scanning.{HasSearched};

    ghost Value = { List ℕ };

    ghost view = { λ w. w.buffer };

    ghost invariant = { λ w. HasSearched w.buffer w.search.state w.search.scanned × (vec_len w.room ≡ 64) };
}

impl Wire {
    /// Returns a wire that has read nothing. Allocates all the memory for heads at once, and keeps the allocator for what it reads.
    pub fn new(alloc: Global) -> Result<Wire, AllocError>
        ensures { IfOk result (λ wire. wire ≡ []) }
    {
        let buffer = Buffer::new(alloc)?;
        let search = Search::new();
        let room = vec![in alloc; EMPTY_HEADER_SPAN; FIELD_LIMIT]?;
        Ok(Wire {
            buffer,
            search,
            room,
        })
    }

    /// Returns the bytes that were read and not yet taken.
    pub fn bytes(&self) -> &[u8]
        ensures value { result.now ≡ self.now }
        ensures fits { length self.now ≤ HEAD_LIMIT }
    {
        self.buffer.as_slice()
    }

    /// Reads until a whole head has come, and takes none of it. Returns its length, the empty lines before it included. If there is none, it says why as
    /// `try_read_head` does, and keeps the bytes that came. What is read after it goes on where this call left off.
    pub fn try_find_head<D: Duplex>(&mut self, duplex: &mut D) -> Result<usize, Halt<HeadFault>>
        ensures ran { Ran D.saw (AwaitsHead self.old) duplex.old duplex.new (TriesToFind result self.old self.new) }
        ensures waits { IsErrOf result Halt.WouldWait → D.waits duplex.new }
        ensures short { IsErrOf result Halt.WouldWait → CutShort self.new }
    {
        find_head(&mut self.buffer, duplex, &mut self.search)
    }

    /// Takes this many bytes from the front of those that came, as they are.
    pub fn skip(&mut self, count: usize)
        requires { count ≤ length self.old }
        ensures { self.new ≡ drop count self.old }
    {
        self.buffer.consume(count);
        self.search = Search::new();
    }

    /// Reads the next head as `read_head` does, from a stream that may have to wait. If the stream has to wait before a whole head has
    /// come, the wire keeps the bytes that came, and the next call goes on after them.
    pub fn try_read_head<D: Duplex>(&mut self, duplex: &mut D) -> Result<Head, Halt<HeadFault>>
        ensures ran { Ran D.saw (AwaitsHead self.old) duplex.old duplex.new (TriesHead result self.old self.new) }
        ensures waits { IsErrOf result Halt.WouldWait → D.waits duplex.new }
        ensures short { IsErrOf result Halt.WouldWait → CutShort self.new }
    {
        let count = self.try_find_head(duplex)?;
        let parsed = Head::parse(
            self.buffer.allocator(),
            &self.buffer.as_slice()[..count],
            &mut self.room,
        )?;
        self.skip(count);
        match parsed {
            Ok(head) => Ok(head),
            Err(fault) => Err(Halt::Failed(fault)),
        }
    }

    /// Goes on reading a body of `size` bytes as `read_body` does, from a stream that may have to wait. `body` holds the part that was read
    /// before. If the stream has to wait before the whole body has come, `body` and the wire keep the bytes that came, and the next call
    /// goes on after them.
    pub fn try_read_body<D: Duplex>(
        &mut self,
        duplex: &mut D,
        body: &mut Vec<u8>,
        size: usize,
    ) -> Result<(), Halt<BodyFault>>
        requires { vec_len body.old ≤ size }
        ensures ran { Ran D.saw (AwaitsBody (body.old.items ++ self.old) size) duplex.old duplex.new
            (TriesBody result size (body.old.items ++ self.old) body.new self.new) }
        ensures within { vec_len body.new ≤ size }
        ensures waits { IsErrOf result Halt.WouldWait → D.waits duplex.new }
        ensures short { IsErrOf result Halt.WouldWait → length (body.new.items ++ self.new) < size }
    {
        self.search = Search::new();
        fill_body(&mut self.buffer, duplex, body, size)
    }

    /// Reads the next head. Reads from the stream only if the bytes that came before hold no whole head, and writes nothing.
    ///
    /// Takes the head from the stream up to and including its last byte, and nothing after it, even if the head is not answered.
    /// Leaves a head that is too long in the stream. Any other error leaves the rest of the stream as it was.
    pub fn read_head<D: Steady>(&mut self, duplex: &mut D) -> Result<Head, HeadFault>
        ensures ok { let old = prepend_known self.old (D.left duplex.old) in
            let new = prepend_known self.new (D.left duplex.new) in
            IfOk result (ServesHead old new) }
        ensures bad { let old = prepend_known self.old (D.left duplex.old) in
            let new = prepend_known self.new (D.left duplex.new) in
            IsErrOf result HeadFault.BadHead → (text : List ℕ) × TakesHead old new text × IsBadHead text }
        ensures large { let old = prepend_known self.old (D.left duplex.old) in
            let new = prepend_known self.new (D.left duplex.new) in
            IsErrOf result HeadFault.HeadTooLarge → RefusesLargeHead old new }
        ensures ended { let old = prepend_known self.old (D.left duplex.old) in
            IsErrOf result HeadFault.Ended → IfSome old CutShort }
        ensures failed { IsErrOf result HeadFault.ReadFault → D.read_fails }
        ensures memory { let old = prepend_known self.old (D.left duplex.old) in
            IsErrOf result HeadFault.OutOfMemory → HasWholeHead old }
        ensures kept { let old = prepend_known self.old (D.left duplex.old) in
            let new = prepend_known self.new (D.left duplex.new) in
            IfErr result (λ e. e ≢ HeadFault.BadHead → e ≢ HeadFault.HeadTooLarge → Keeps old new) }
        ensures ran { Ran D.saw (AwaitsHead self.old) duplex.old duplex.new (ReadsHead result self.old self.new) }
    {
        take_head(self, duplex)
    }

    /// Reads a body of `count` bytes. Reads from the stream only if fewer bytes came before, and writes nothing. Allocates memory as the
    /// bytes come, by design for at most twice the bytes that came and at most `count`. An empty body allocates nothing.
    pub fn read_body<D: Steady>(&mut self, duplex: &mut D, count: u64) -> Result<Vec<u8>, BodyFault>
        ensures ok { let old = prepend_known self.old (D.left duplex.old) in
            let new = prepend_known self.new (D.left duplex.new) in
            IfOk result (λ body. (vec_len body ≡ count) × Consumes old new body.items) }

        // On an error, part of the body is taken, never the whole; if no more bytes come, all that came is taken (`ran`).
        ensures part { let old = prepend_known self.old (D.left duplex.old) in
            let new = prepend_known self.new (D.left duplex.new) in
            IfErr result (λ e. (bytes : List ℕ) × Consumes old new bytes × (length bytes < count)) }
        ensures ended { let old = prepend_known self.old (D.left duplex.old) in
            let new = prepend_known self.new (D.left duplex.new) in
            IsErrOf result BodyFault.Ended → IsAtEnd new × IfSome old (λ left. length left < count) }
        ensures failed { IsErrOf result BodyFault.ReadFault → D.read_fails }
        ensures memory { IsErrOf result BodyFault.OutOfMemory → 0 < count }
        ensures ran { Ran D.saw (AwaitsBody self.old count) duplex.old duplex.new (ReadsBody result count self.old self.new) }
    {
        self.search = Search::new();
        read_body(&mut self.buffer, duplex, count)
    }
}

// Takes the next head from a stream that never has to wait.
fn take_head<D: Steady>(wire: &mut Wire, duplex: &mut D) -> Result<Head, HeadFault>
    ensures ran { Ran D.saw (AwaitsHead wire.old) duplex.old duplex.new (ReadsHead result wire.old wire.new) }
{
    match wire.try_read_head(duplex) {
        Ok(head) => Ok(head),
        Err(Halt::Failed(fault)) => Err(fault),
        Err(Halt::WouldWait) => unreachable!(),
    }
}

// Reads until the head at the front of the buffer is whole, and returns its length; the search goes on where it left off.
pub(crate) fn find_head<D: Duplex>(
    buffer: &mut Buffer,
    duplex: &mut D,
    search: &mut Search,
) -> Result<usize, Halt<HeadFault>>
    requires { HasSearched buffer.old search.old.state search.old.scanned }
    ensures ran { Ran D.saw (AwaitsHead buffer.old) duplex.old duplex.new (TriesToFind result buffer.old buffer.new) }
    ensures waits { IsErrOf result Halt.WouldWait → D.waits duplex.new }
    ensures short { IsErrOf result Halt.WouldWait → CutShort buffer.new }
    ensures searched { HasSearched buffer.new search.new.state search.new.scanned }
{
    search.go_on(buffer.as_slice());
    'reads: while !search.state.is_done() {
        if buffer.as_slice().len() == HEAD_LIMIT {
            return Err(Halt::Failed(HeadFault::HeadTooLarge));
        }
        let count = match buffer.fill(duplex) {
            Ok(count) => count,
            Err(Halt::Failed(_)) => return Err(Halt::Failed(HeadFault::ReadFault)),
            Err(Halt::WouldWait) => return Err(Halt::WouldWait),
        };
        if count == 0 {
            return Err(Halt::Failed(HeadFault::Ended));
        }
        search.go_on(buffer.as_slice());
    }
    Ok(search.scanned)
}
