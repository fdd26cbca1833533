//! Laws of the definitions. Each law is the contract of a function that does nothing.
ghost use Rattle.std.specs.Prelude.{◌≡◌, ◌≤◌, ◌-◌, ℕ, List, [], ◌∷◌, Option, Some, Result, Ok, Err, length, codes};
ghost use Rattle.httparse.specs.Spans.{RequestExceeds};
ghost use Rattle.http_wire.specs.declared.answers.AnswerFault.{AnswerFault};
ghost use Rattle.std.specs.declared.vec.Vec.{Vec};
ghost use Rattle.http_wire.specs.declared.faults.BodyFault.{BodyFault};
ghost use Rattle.http_wire.specs.declared.faults.BodyFault.TheVariants as body_fault;
ghost use Rattle.http_wire.specs.declared.faults.HeadFault.{HeadFault};
ghost use Rattle.http_wire.specs.declared.faults.HeadFault.TheVariants as head_fault;
ghost use Rattle.http_wire.specs.declared.faults.LengthFault.{LengthFault};
ghost use Rattle.http_wire.specs.declared.halts.Halt.{Halt};
ghost use Rattle.http_wire.specs.Halting.{KeepsOn, TriesBody, TriesHead};
ghost use Rattle.http_wire.specs.Answers.{AnswerParts, Begins, Brings, Tells};
ghost use Rattle.http_wire.specs.AnswerReads.{AwaitsAnswer};
ghost use Rattle.http_wire.specs.Fields.{IsBodyLength};
ghost use Rattle.http_wire.specs.HeadText.{CutShort, HasHead, head_limit};
ghost use Rattle.http_wire.specs.Replies.{HasLines, fields_of, head_lines, head_text, status_line};
ghost use Rattle.http_wire.specs.Requests.{RequestParts, Says, IsBadHead, field_limit};
ghost use Rattle.http_wire.specs.Sending.{AppendsFront, SentFront, WritesText};
ghost use Rattle.http_wire.specs.Timing.{AtEnd, Event, IsLatest, Moves, NoRead, Ran, ReadFails, Timely, count_reads};
ghost use Rattle.http_wire.specs.Wires.{AwaitsBody, AwaitsHead, HasWholeHead, ReadsBody, ReadsHead, RefusesLargeHead, ServesHead, TakesHead};

use crate::duplexes::Duplex;
use crate::replies::ReplyHead;

/// A stream begins with at most one head. The text of a head says at most one set of parts; if it says one, the head is not bad
/// and does not have too many fields. Fields announce at most one length or have at most one first reason why not, never both.
pub fn one_head()
    ensures begins { (stream text rest other others : List ℕ) → HasHead stream text rest → HasHead stream other others
        → (text ≡ other) × (rest ≡ others) }
    ensures says { (text : List ℕ) (parts others : RequestParts) → Says text parts → Says text others → parts ≡ others }
    ensures good { (text : List ℕ) (parts : RequestParts) → Says text parts → ¬ (IsBadHead text) }
    ensures fits { (text : List ℕ) (parts : RequestParts)
        → Says text parts → ¬ (RequestExceeds field_limit text) }
    ensures announces { (fields : List (List ℕ × List ℕ)) (limit : ℕ) (one another : Result ℕ LengthFault)
        → IsBodyLength one fields limit → IsBodyLength another fields limit → one ≡ another }
{}

/// The head of an answer tells at most one set of parts and brings a body of at most one length. A stream that begins with an answer
/// does not begin with another answer or with a refused one. The empty stream does not begin with an answer.
pub fn one_answer()
    ensures tells { (text : List ℕ) (parts others : AnswerParts) → Tells text parts → Tells text others
        → parts ≡ others }
    ensures brings { (text : List ℕ) (n m : ℕ) → Brings text n → Brings text m → n ≡ m }
    ensures one { (limit n m : ℕ) (stream rest others : List ℕ) → Begins (Ok n) limit stream rest
        → Begins (Ok m) limit stream others → (n ≡ m) × (rest ≡ others) }
    ensures refused { (fault : AnswerFault) (limit n : ℕ) (stream rest others : List ℕ)
        → Begins (Ok n) limit stream rest → ¬ (Begins (Err fault) limit stream others) }
    ensures nothing { (answer : Result ℕ AnswerFault) (limit : ℕ) (rest : List ℕ)
        → ¬ (Begins answer limit [] rest) }
    ensures asked { (limit : ℕ) (got : List ℕ) → ¬ (AwaitsAnswer limit got (0 ∷ [])) }
{}

/// If a call has to wait and the next call goes on, the two together are one call. So a head or a body is read in the same way, in
/// whatever steps it comes.
pub fn calls_go_on<D: Duplex>()
    ensures head { (old mid new : D) (buffer waiting rest : List ℕ) (result : Result RequestParts (Halt HeadFault))
        → Ran D.saw (AwaitsHead buffer) old mid (KeepsOn buffer waiting)
        → Ran D.saw (AwaitsHead waiting) mid new (TriesHead result waiting rest)
        → Ran D.saw (AwaitsHead buffer) old new (TriesHead result buffer rest) }
    ensures body { (old mid new : D) (size : ℕ) (before waiting rest : List ℕ) (body : Vec ℕ ℕ)
        (result : Result (Unit {0}) (Halt BodyFault))
        → Ran D.saw (AwaitsBody before size) old mid (KeepsOn before waiting)
        → Ran D.saw (AwaitsBody waiting size) mid new (TriesBody result size waiting body rest)
        → Ran D.saw (AwaitsBody before size) old new (TriesBody result size before body rest) }
{}

/// Reading a head or a body takes at most as many reads as bytes are missing: from the longest head, or from the body.
pub fn few_reads()
    ensures head { (buffer : List ℕ) (events : List Event) → Timely (AwaitsHead buffer) events
        → count_reads events ≤ head_limit - length buffer }
    ensures body { (buffer : List ℕ) (size : ℕ) (events : List Event) → Timely (AwaitsBody buffer size) events
        → count_reads events ≤ size - length buffer }
{}

/// The head of a reply is its status line, one line for each field that is present, and the empty line that ends the head.
/// The text of a field never begins another line.
pub fn a_head_has_its_lines(head: &ReplyHead<'_>, size: u64)
    ensures { HasLines (head_text (fields_of head.now size)) (head_lines (fields_of head.now size)) }
{}

/// The reason phrases of 413 and 422 are the older ones (RFC 7231, section 6.5.11; RFC 4918, section 11.2), not those of RFC 9110,
/// sections 15.5.14 and 15.5.21. A reason phrase means nothing to a client (RFC 9112, section 4).
pub fn two_phrases_are_older()
    ensures too_large { status_line 413 ≡ codes "HTTP/1.1 413 Payload Too Large" }
    ensures unprocessable { status_line 422 ≡ codes "HTTP/1.1 422 Unprocessable Entity" }
{}

/// Each of these relations is refuted for a wrong answer, so none of them holds of everything. An empty stream has no head that is
/// served or refused.
pub fn wrong_answers_are_refused<D: Duplex>()
    ensures cut_short { (stream : List ℕ) → head_limit ≤ length stream → ¬ (CutShort stream) }
    ensures cut_head { (stream text rest : List ℕ) → HasHead stream text rest → ¬ (CutShort stream) }
    ensures serves { (new : Option (List ℕ)) (parts : RequestParts) → ¬ (ServesHead (Some []) new parts) }
    ensures whole { ¬ (HasWholeHead (Some [])) }
    ensures refuses { (new : Option (List ℕ))
        → ¬ ((text : List ℕ) × TakesHead (Some []) new text × IsBadHead text) }
    ensures large { (new : Option (List ℕ)) → ¬ (RefusesLargeHead (Some []) new) }
    ensures lines { ¬ (HasLines [] []) }
    ensures front { (start held : Option (List ℕ)) (count : ℕ) → ¬ (SentFront start held [] count) }
    ensures appends { (held new_held : Option (List ℕ)) → ¬ (AppendsFront [] held new_held) }
    ensures written { ¬ (WritesText (Ok tt) (0 ∷ []) []) }
    ensures moves { (left held new_left new_held : Option (List ℕ)) → ¬ (Moves ⊥ ⊥ ReadFails left held new_left new_held) }
    ensures no_read { (old new : D) → ¬ (Ran D.saw NoRead old new (IsLatest AtEnd)) }
    ensures awaits_head { (buffer got : List ℕ) → ¬ (AwaitsHead buffer got (0 ∷ [])) }
    ensures awaits_body { (buffer got put : List ℕ) → ¬ (AwaitsBody buffer 0 got put) }
    ensures reads_head { (buffer new_buffer : List ℕ) → ¬ (ReadsHead (Err head_fault.ReadFault) buffer new_buffer []) }
    ensures reads_body { (size : ℕ) (buffer new_buffer : List ℕ) → ¬ (ReadsBody {A = ℕ} (Err body_fault.ReadFault) size buffer new_buffer []) }
{}
