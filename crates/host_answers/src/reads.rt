//! Reads of files.
ghost use Rattle.std.specs.Prelude.{◌≡◌, ◌≢◌, ◌⊎◌, All, MatchOption, OnSome, codes, false, length};
ghost use Rattle.range_spec.specs.Chosen.{LiesWithin, intervals_in};
ghost use Rattle.range_spec.specs.Understood.{IsUnderstoodAs};
ghost use Rattle.range_spec.specs.declared.grammar.Asked.{Asked as Range};
ghost use Rattle.range_spec.specs.declared.grammar.Asked.TheVariants.{Ignore};
ghost use Rattle.range_spec.specs.declared.selection.Choice.TheVariants.{None416};
ghost use Rattle.range_reply.specs.Conditions.{allows_range};
ghost use Rattle.range_reply.specs.Plans.{lets_ranges};
ghost use Rattle.http_wire.specs.Fields.{values_of};
ghost use Rattle.host_api.specs.Types.{type_of};
ghost use Rattle.host_api.specs.declared.refusals.Refusal.TheVariants.{OutOfMemory};
ghost use Rattle.host_replies.specs.Bodies.{answer_of};
ghost use Rattle.host_replies.specs.Replies.{is_head, refused_answer, unread_answer};
ghost use Rattle.host_replies.specs.FileAsks as spec;
ghost use Rattle.host_answers.specs.Reads.{ReadsBy, SendsBy};
ghost use Rattle.host_replies.specs.FileAsks.{AsksRange, plan_of};
ghost use Rattle.host_replies.specs.Versions as versions;

use crate::houses::House;
use byte_view::BlobInfo;
use chunk_reads::{Holder, ReadFault};
use host_api::{Refusal, Version};
use host_names::{Digest, FilePath, SiteName};
use host_replies::{Reply, file_of, file_type, is_head_only};
use http_wire::Head;
use range_reply::{IfRange, ReplyPlan, plan, read_body, read_whole};
use range_spec::{Choice, parse};
use std::alloc::Global;
use std::sync::Arc;

/// The value of a request's Range field, if it is a GET with one such field (RFC 9110, section 14.2).
fn range_value(head: &Head) -> Option<&[u8]>
    ensures asks { MatchOption result (AsksRange head.now Ignore)
        (λ value. (range : Range) → IsUnderstoodAs value.now range → AsksRange head.now range) }
    ensures get { OnSome result (is_head head.now ≡ false) }
{
    if head.method().as_str() != "GET" {
        return None;
    }
    let mut ranges = head.values("range");
    match (ranges.next(), ranges.next()) {
        (Some(value), None) => Some(value),
        _ => None,
    }
}

/// What its If-Range fields say of the file with this digest (RFC 9110, section 13.1.5).
fn condition(head: &Head, digest: Digest) -> IfRange
    ensures { lets_ranges result ≡ allows_range digest (values_of (codes "if-range") head.now.fields) }
{
    let mut values = head.values("if-range");
    match (values.next(), values.next()) {
        (None, _) => IfRange::of(&[], digest),
        (Some(value), None) => IfRange::of(&[value], digest),
        (Some(value), Some(other)) => IfRange::of(&[value, other], digest),
    }
}

/// What is to be sent of a file to a request whose Range field has this value.
#[inline(never)]
fn plan_of_range(head: &Head, value: &[u8], info: &BlobInfo) -> ReplyPlan
    ensures asked { (range : Range) × IsUnderstoodAs value.now range × (result ≡ plan_of head.now range info.now) }
    ensures within { All (LiesWithin (length info.now)) (intervals_in result) }
{
    plan(info, &parse(value), condition(head, info.digest()))
}

/// The refusal of a read that failed this way.
fn refusal_of_read(why: ReadFault) -> Refusal
    ensures { result ≡ spec.refusal_of_read why }
{
    match why {
        ReadFault::Missing => Refusal::Missing,
        ReadFault::Damaged => Refusal::Damaged,
        ReadFault::Device => Refusal::Device,
        ReadFault::OutOfMemory => Refusal::OutOfMemory,
    }
}

/// The reply with what a plan sends of a file.
fn send<H: Holder>(
    alloc: Global,
    holder: &mut H,
    info: &Arc<BlobInfo>,
    plan: &ReplyPlan,
    path: &FilePath,
) -> Reply
    requires within { All (LiesWithin (length info.now.value)) (intervals_in plan.now) }
    requires some { plan.now ≢ None416 }
    ensures { SendsBy H.gave H.failed holder.old path.now info.now.value plan.now (answer_of result) holder.new }
{
    let content_type = file_type(path);
    let body = match read_body(alloc, holder, info, plan, content_type) {
        Ok(body) => body,
        Err(why) => return Reply::plain(refusal_of_read(why)),
    };
    Reply::of_file(content_type, info, body)
}

/// The reply to HEAD. Nothing of the file is held and no plan is made for it: what needs no memory is judged first.
fn unread(path: &FilePath, info: &Arc<BlobInfo>) -> Reply
    ensures { (answer_of result ≡ unread_answer (type_of path.now) info.now.value)
        ⊎ (answer_of result ≡ refused_answer OutOfMemory) }
{
    match Arc::try_clone(info) {
        Ok(info) => Reply::unread(path, info),
        Err(_) => Reply::out_of_memory(),
    }
}

/// The reply to a read with a Range field of this value.
#[inline(never)]
fn read_range<H: House>(
    alloc: Global,
    house: &mut H,
    head: &Head,
    value: &[u8],
    site: &SiteName,
    version: &Version,
    path: &FilePath,
) -> Reply
    requires get { is_head head.now ≡ false }
    requires asks { (range : Range) → IsUnderstoodAs value.now range → AsksRange head.now range }
    ensures { let found = versions.file_of (H.calls.seen house.old).state site.now version.now path.now in
        ReadsBy H.gave H.failed house.old head.now path.now found (answer_of result) house.new }
{
    let file = match file_of(house.state(), site, version, path) {
        Ok(file) => file,
        Err(why) => return Reply::plain(why),
    };
    let plan = plan_of_range(head, value, file.info());
    if matches!(plan, Choice::None416) {
        return Reply::plain(Refusal::NotSatisfiable(file.info().len() as u64));
    }
    let Ok(info) = Arc::try_clone(file.info()) else {
        return Reply::out_of_memory();
    };
    send(alloc, house, &info, &plan, path)
}

/// The reply to a read: the file that a version of the site has at a path, as the request's Range asks for it, or the refusal if there is
/// none. Most requests have no Range field: they take no room for what one may ask for.
pub(crate) fn read<H: House>(
    alloc: Global,
    house: &mut H,
    head: &Head,
    site: &SiteName,
    version: &Version,
    path: &FilePath,
) -> Reply
    ensures { let found = versions.file_of (H.calls.seen house.old).state site.now version.now path.now in
        ReadsBy H.gave H.failed house.old head.now path.now found (answer_of result) house.new }
{
    if let Some(value) = range_value(head) {
        return read_range(alloc, house, head, value, site, version, path);
    }
    let file = match file_of(house.state(), site, version, path) {
        Ok(file) => file,
        Err(why) => return Reply::plain(why),
    };
    if is_head_only(head) {
        return unread(path, file.info());
    }
    let Ok(info) = Arc::try_clone(file.info()) else {
        return Reply::out_of_memory();
    };
    let content_type = file_type(path);
    let body = match read_whole(alloc, house, &info, content_type) {
        Ok(body) => body,
        Err(why) => return Reply::plain(refusal_of_read(why)),
    };
    Reply::of_file(content_type, &info, body)
}
