//! The body that sends bytes of a file. It lends what is held of the file in parts.
ghost use Rattle.std.specs.Prelude.{◌≡◌, ◌<◌, ◌≤◌, ℕ, List, All, IfErr, IfNone, IfOk, IsTrue, MatchResult, None, length, map};
ghost use Rattle.std.specs.List.{concat};
ghost use Rattle.byte_view.specs.Holds.{Held, IsHeld};
ghost use Rattle.chunk_reads.specs.declared.faults.ReadFault.TheVariants.{OutOfMemory};
ghost use Rattle.range_spec.specs.Chosen.{LiesWithin, intervals_in};
ghost use Rattle.range_spec.specs.declared.selection.Choice.TheVariants as choice;
ghost use Rattle.range_reply.specs.Bodies.{AreFor, HasBoundary, body_text, text_in};
ghost use Rattle.range_reply.specs.Holding.{held_in};
ghost use Rattle.range_reply.specs.Multipart.{IsCount};
ghost use Rattle.range_reply.specs.Sending.{HasParts, IsForm, IsNotRead, IsRead, IsSent, plan_sent, sends_bytes};
ghost use Rattle.range_reply.specs.Slices.{ArePure, all_meant, shown};

use crate::boundaries::Boundary;
use crate::choices::boundary;
use crate::holds::Holds;
use crate::lengths::multipart_length;
use crate::parts::Parts;
use crate::plans::ReplyPlan;
use crate::stretches::{hold_for, hold_whole};
use byte_view::{BlobInfo, Hold};
use chunk_reads::{Holder, ReadFault};
use host_names::Digest;
use http_wire::FieldText;
use range_spec::Choice;
use std::alloc::Global;
use std::marker::Model;
use std::sync::Arc;

/// What is sent of a file. Several ranges always have a boundary that separates their parts.
#[derive(Clone, Copy, Debug)]
pub enum FileForm {
    /// The whole file.
    Whole,
    /// The bytes from the first position to the last.
    One(u64, u64),
    /// Several ranges, in parts.
    Several(Boundary),
    /// No bytes: the file has none of those asked for.
    Nothing,
}

/// What a plan sends, without the intervals of several ranges. Their holds have the intervals, so a body is small and cheap to move.
#[derive(Clone, Copy, Debug)]
enum Sends {
    Whole,
    One(u64, u64),
    Several,
    Nothing,
}

/// Returns what a plan sends.
fn sends_of(plan: &ReplyPlan) -> Sends
    ensures { (holds : List Held) (file : List ℕ) → AreFor holds file plan.now
        → plan_sent result holds ≡ plan.now }
{
    match plan {
        Choice::Whole => Sends::Whole,
        Choice::One(first, last) => Sends::One(*first, *last),
        Choice::Many(_) => Sends::Several,
        Choice::None416 => Sends::Nothing,
    }
}

/// The body that sends some bytes of a file. It owns what is held of the file and lends it in parts.
#[derive(Drop)]
pub struct FileBody {
    sends: Sends,
    boundary: Option<Boundary>,
    content_type: FieldText<'static>,
    holds: Holds,
    /// How many bytes the file has, and how many the body has.
    size: u64,
    length: u64,
}

impl Model for FileBody {
    ghost use Rattle.std.specs.Prelude.{map};
    ghost use Rattle.range_reply.specs.Bodies.{body_text, text_in};
    ghost use Rattle.range_reply.specs.Holding.{held_in};
    ghost use Rattle.range_reply.specs.Sending.{IsMade, SentFile, plan_sent};
    ghost use Rattle.range_reply.specs.Slices.{shown};

    ghost Value = { SentFile };

    ghost view = { λ b. let plan = plan_sent b.sends (held_in b.holds) in record {
      plan = plan;
      boundary = b.boundary;
      bytes = body_text (text_in b.boundary) b.content_type.text.now b.size plan (map shown (held_in b.holds));
    } };

    ghost invariant = { λ b. IsMade (plan_sent b.sends (held_in b.holds)) b.boundary b.content_type.text.now (held_in b.holds)
        b.size b.length };
}

/// Returns how many bytes a hold shows of its stretch, or 0 if there is no hold.
fn single_length(holds: &[Hold]) -> u64
    requires { length holds.now ≤ 1 }
    ensures held { All IsHeld holds.now }
    ensures long { result ≡ length (concat (map shown holds.now)) }
{
    let [hold] = holds else {
        return 0;
    };
    let (first, last) = hold.stretch();
    (last - first + 1) as u64
}

/// Returns how many bytes the body has, if the number fits in a `u64`.
fn body_length(
    holds: &[Hold],
    plan: &ReplyPlan,
    boundary: &Option<Boundary>,
    content_type: FieldText<'static>,
    info: &BlobInfo,
) -> Option<u64>
    requires held { AreFor holds.now info.now plan.now }
    requires lawful { All IsHeld holds.now }
    requires within { All (LiesWithin (length info.now)) (intervals_in plan.now) }
    requires separated { HasBoundary boundary.now plan.now }
    ensures long { IsCount result
        (length (body_text (text_in boundary.now) content_type.entry.text.now (length info.now) plan.now
        (map shown holds.now))) }
    ensures several { IfNone result (HasParts plan.now) }
{
    match (plan, boundary) {
        (Choice::Many(intervals), Some(boundary)) => multipart_length(
            info,
            boundary,
            content_type,
            intervals,
        ),
        _ => Some(single_length(holds)),
    }
}

impl FileBody {
    /// Makes the body of these holds. Returns `ReadFault::OutOfMemory` if the body has 2^64 bytes or more.
    fn new(
        holds: Holds,
        plan: &ReplyPlan,
        boundary: Option<Boundary>,
        content_type: FieldText<'static>,
        info: &BlobInfo,
    ) -> Result<FileBody, ReadFault>
        requires held { AreFor (held_in holds) info.now plan.now }
        requires lawful { All IsHeld (held_in holds) }
        requires within { All (LiesWithin (length info.now)) (intervals_in plan.now) }
        requires separated { HasBoundary boundary plan.now }
        ensures made { IfOk result (λ body. body ≡ record {
          plan = plan.now;
          boundary = boundary;
          bytes = body_text (text_in boundary) content_type.entry.text.now (length info.now) plan.now
              (map shown (held_in holds));
        }) }
        ensures fault { IfErr result (λ fault. fault ≡ OutOfMemory) }
        ensures memory { IfErr result (λ _. HasParts plan.now) }
    {
        let length = body_length(holds.as_slice(), plan, &boundary, content_type, info);
        let length = length.ok_or(ReadFault::OutOfMemory)?;
        Ok(FileBody {
            sends: sends_of(plan),
            boundary,
            content_type,
            holds,
            size: info.len() as u64,
            length,
        })
    }

    /// Makes the body of a whole file, of its hold.
    fn whole(holds: Holds, content_type: FieldText<'static>, info: &BlobInfo) -> FileBody
        requires held { AreFor (held_in holds) info.now choice.Whole }
        requires lawful { All IsHeld (held_in holds) }
        ensures { result ≡ record {
          plan = choice.Whole;
          boundary = None;
          bytes = concat (map shown (held_in holds));
        } }
    {
        let length = single_length(holds.as_slice());
        FileBody {
            sends: Sends::Whole,
            boundary: None,
            content_type,
            holds,
            size: info.len() as u64,
            length,
        }
    }

    /// Returns what is sent.
    pub fn form(&self) -> FileForm
        ensures { IsForm result self.now.plan self.now.boundary }
    {
        match self.sends {
            Sends::Whole => FileForm::Whole,
            Sends::One(first, last) => FileForm::One(first, last),
            Sends::Several => match &self.boundary {
                Some(boundary) => FileForm::Several(*boundary),
                None => unreachable!(),
            },
            Sends::Nothing => FileForm::Nothing,
        }
    }

    /// Returns the parts of the body, in order. The bytes of the file are lent as they lie. Allocates nothing.
    #[inline(always)]
    pub fn parts(&self) -> Parts<'_>
        ensures { concat result ≡ self.now.bytes }
    {
        let holds = self.holds.as_slice();
        match self.form() {
            FileForm::Several(boundary) => {
                Parts::of_several(holds, self.size, &boundary, self.content_type, self.length)
            }
            _ => Parts::of_stretch(holds.first(), self.length),
        }
    }
}

/// Several parts have no boundary, because each candidate occurs in one of them.
#[derive(Drop)]
struct NoBoundary;

/// Returns the boundary if a plan has several parts.
fn boundary_for(
    holds: &[Hold],
    plan: &ReplyPlan,
    digest: Digest,
) -> Result<Option<Boundary>, NoBoundary>
    ensures separated { IfOk result (λ found. HasBoundary found plan.now) }
    ensures several { IfErr result (λ _. HasParts plan.now) }
    ensures shown { MatchResult result (λ found. IsSent (map shown holds.now) digest plan.now found plan.now)
        (λ _. IsSent (map shown holds.now) digest plan.now None choice.Whole) }
    ensures pure { ArePure holds.now → MatchResult result
        (λ found. IsSent (all_meant holds.now) digest plan.now found plan.now)
        (λ _. IsSent (all_meant holds.now) digest plan.now None choice.Whole) }
{
    match plan {
        Choice::Many(_) => Ok(Some(boundary(holds, digest).ok_or(NoBoundary)?)),
        Choice::Whole | Choice::One(..) | Choice::None416 => Ok(None),
    }
}

/// Reads what a plan asks for of a file and returns the body that sends it. The stretches of the plan are held. If several parts
/// have no boundary, the whole file is then held and sent. The body lends what is held and copies none of it. Allocates nothing
/// if nothing is sent.
pub fn read_body<H: Holder>(
    alloc: Global,
    holder: &mut H,
    info: &Arc<BlobInfo>,
    plan: &ReplyPlan,
    content_type: FieldText<'static>,
) -> Result<FileBody, ReadFault>
    requires { All (LiesWithin (length info.now.value)) (intervals_in plan.now) }
    ensures read { IfOk result
        (λ body. IsRead H.gave holder.old info.now.value plan.now content_type.entry.text.now body holder.new) }
    ensures fault { IfErr result
        (λ fault. IsNotRead H.gave H.failed holder.old info.now.value plan.now fault holder.new) }
    ensures some { IfErr result (λ _. IsTrue (sends_bytes (length info.now.value) plan.now)) }
{
    let holds = hold_for(alloc, holder, info, plan)?;
    match boundary_for(holds.as_slice(), plan, info.digest()) {
        Ok(boundary) => FileBody::new(holds, plan, boundary, content_type, info),
        Err(NoBoundary) => {
            let whole = hold_whole(alloc, holder, info)?;
            FileBody::new(whole, &Choice::Whole, None, content_type, info)
        }
    }
}

/// Reads a whole file and returns the body that sends it, as `read_body` does where that is the plan.
pub fn read_whole<H: Holder>(
    alloc: Global,
    holder: &mut H,
    info: &Arc<BlobInfo>,
    content_type: FieldText<'static>,
) -> Result<FileBody, ReadFault>
    ensures read { IfOk result
        (λ body. IsRead H.gave holder.old info.now.value choice.Whole content_type.entry.text.now body holder.new) }
    ensures fault { IfErr result
        (λ fault. IsNotRead H.gave H.failed holder.old info.now.value choice.Whole fault holder.new) }
    ensures some { IfErr result (λ _. IsTrue (sends_bytes (length info.now.value) choice.Whole)) }
{
    let holds = hold_whole(alloc, holder, info)?;
    Ok(FileBody::whole(holds, content_type, info))
}
