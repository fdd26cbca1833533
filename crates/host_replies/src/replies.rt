//! Replies, before they are written.
ghost use Rattle.std.specs.Prelude.{◌≡◌, ◌≢◌, ◌↔◌, [], All, length, true, false, Some, None, IsSome, IsTrue, IfOk, IfErr, OnErr, Err, IsErrOf, MatchOption, option_map};
ghost use Rattle.std.specs.List.{concat};
ghost use Rattle.http_wire.specs.Replies.{fields_of};
ghost use Rattle.host_api.specs.Texts.{has_cell, told_text};
ghost use Rattle.host_api.specs.declared.refusals.Refusal.TheVariants as reason;
ghost use Rattle.host_api.specs.declared.refusals.Refusal.TheVariants.{OutOfMemory};
ghost use Rattle.host_replies.specs.Bodies.{answer_of, is_plain, text_bytes};
ghost use Rattle.host_replies.specs.Replies as spec;
ghost use Rattle.host_replies.specs.Replies.{Tells};
ghost use Rattle.host_replies.specs.Replies.{takes_text};
ghost use Rattle.host_names.specs.Digests.{digest_of};
ghost use Rattle.range_reply.specs.Multipart.{text_of};
ghost use Rattle.host_api.specs.Types.{type_of};
ghost use Rattle.host_replies.specs.SentFiles.{SendsParts, sent_as};
ghost use Rattle.host_replies.specs.PartsTypes.{IsOfEight, parts_type};
ghost use Rattle.host_replies.specs.Replies.{told_answer, refused_answer, part_answer, fields_for, is_head, sent_text, unread_answer};

mod held_files;
mod sends;
mod small_texts;

use crate::bodies::{Body, BodyText};
use crate::media_types::{MediaType, file_type};
use crate::parts_types::PartsType;
use byte_view::BlobInfo;
pub use held_files::HeldFile;
use host_api::{HeadRefusal, Refusal, Told, short_text, text};
use host_names::{Digest, FilePath};
use http::StatusCode;
use http_wire::{ContentRange, EntityTag, FieldText, Head, ReplyHead};
use range_reply::{Boundary, FileBody, FileForm, Parts};
use std::alloc::{AllocError, Global};
use std::sync::Arc;

/// The media type of a text (RFC 8259, section 11).
const JSON: &str = "application/json";

/// The text where there is no memory for one.
const NO_MEMORY: &str = "{\"error\":\"OutOfMemory\"}";

/// A reply, before it is written. Its length, and whether ranges are served, follow from the rest.
#[derive(Drop)]
pub struct Reply {
    status: StatusCode,
    content_type: MediaType,
    /// The digest of the file, where the reply has a file or a part of one.
    etag: Option<Digest>,
    content_range: Option<ContentRange>,
    allow: Option<FieldText<'static>>,
    body: Body,
}

/// Whether a reply to the request has no body.
pub fn is_head_only(head: &Head) -> bool
    ensures { result ≡ is_head head.now }
{
    head.method().as_str() == "HEAD"
}

/// The status code of a reply that tells something.
fn status_told(told: &Told) -> StatusCode
    ensures { result ≡ spec.status_told told.now }
{
    match told {
        Told::Refused(refusal) => refusal.status(),
        _ => StatusCode::OK,
    }
}

/// Which bytes of the file there are, where none of the range are.
fn range_told(told: &Told) -> Option<ContentRange>
    ensures { result ≡ spec.range_told told.now }
{
    match told {
        Told::Refused(Refusal::NotSatisfiable(length)) => {
            Some(ContentRange::Unsatisfied { length: *length })
        }
        _ => None,
    }
}

/// The methods that the route has, where it hasn't that of the request.
fn allow_told(told: &Told) -> Option<FieldText<'static>>
    ensures { option_map (λ t. t.text.now) result ≡ spec.allow_told told.now }
{
    match told {
        Told::Refused(Refusal::BadMethod(kind)) => Some(FieldText::new(kind.methods_text())),
        _ => None,
    }
}

/// The text of a refusal, where it takes no memory.
fn short_body(told: &Told) -> Option<BodyText>
    ensures { MatchOption result (IsTrue (takes_text told.now)) (λ text. text_bytes text ≡ told_text told.now) }
{
    match told {
        Told::Refused(refusal) => Some(BodyText::Short(short_text(refusal)?)),
        _ => None,
    }
}

/// The text of what is told.
fn body_of(alloc: Global, told: &Told) -> Result<BodyText, AllocError>
    ensures ok { IfOk result (λ text. text_bytes text ≡ told_text told.now) }
    ensures memory { OnErr result (IsTrue (takes_text told.now)) }
{
    if let Some(body) = short_body(told) {
        return Ok(body);
    }
    Ok(BodyText::Made(text(alloc, told)?))
}

impl Reply {
    /// A reply with JSON.
    fn with_json(told: &Told, text: BodyText) -> Reply
        requires { text_bytes text ≡ told_text told.now }
        ensures { answer_of result ≡ told_answer told.now }
    {
        Reply {
            status: status_told(told),
            content_type: MediaType::Fixed(FieldText::new(JSON)),
            etag: None,
            content_range: range_told(told),
            allow: allow_told(told),
            body: Body::Text(text),
        }
    }

    /// The reply that tells something, or the one where there is no memory for its text.
    #[inline(never)]
    pub fn of_told(alloc: Global, told: &Told) -> Reply
        ensures { Tells told.now (answer_of result) }
    {
        match body_of(alloc, told) {
            Ok(body) => Reply::with_json(told, body),
            Err(_) => Reply::out_of_memory(),
        }
    }

    /// The reply where there is no memory. It takes none.
    #[inline(never)]
    pub fn out_of_memory() -> Reply
        ensures { answer_of result ≡ refused_answer OutOfMemory }
    {
        let text = BodyText::Fixed(NO_MEMORY);
        Reply::with_json(&Told::Refused(Refusal::OutOfMemory), text)
    }

    /// Whether it answers with a whole file, or tells of one to HEAD.
    pub fn is_of_whole_file(&self) -> bool
        ensures { IsTrue result ↔ (((answer_of self.now).status ≡ 200) × IsSome (answer_of self.now).etag) }
    {
        self.status == StatusCode::OK && self.etag.is_some()
    }

    // Whether it names no file, no range and no method.
    fn is_bare(&self) -> bool
        ensures { IsTrue result
            ↔ ((self.now.etag ≡ None) × (self.now.content_range ≡ None) × (self.now.allow ≡ None)) }
    {
        self.etag.is_none() && self.content_range.is_none() && self.allow.is_none()
    }

    /// Whether it is the reply where there is no memory, and no file that has the same bytes. It takes no memory.
    pub fn is_out_of_memory(&self) -> bool
        ensures { IsTrue result ↔ (IsTrue (is_plain self.now.content_type self.now.body)
            × (answer_of self.now ≡ refused_answer OutOfMemory)) }
    {
        let (MediaType::Fixed(content_type), Body::Text(text)) = (&self.content_type, &self.body)
        else {
            return false;
        };
        self.status == StatusCode::SERVICE_UNAVAILABLE
            && self.is_bare()
            && content_type.as_str() == JSON
            && text.bytes() == NO_MEMORY.as_bytes()
    }

    /// The reply to a request that is refused for a reason that names no cell. It takes no memory.
    #[inline(never)]
    pub fn plain(reason: Refusal) -> Reply
        requires { has_cell reason ≡ false }
        ensures { answer_of result ≡ refused_answer reason }
    {
        let told = Told::Refused(reason);
        match short_body(&told) {
            Some(body) => Reply::with_json(&told, body),
            None => unreachable!(),
        }
    }

    /// The reply to a request that is refused by its head. It takes no memory.
    pub fn refusing(why: HeadRefusal) -> Reply
        ensures { answer_of result ≡ refused_answer (reason.Head why) }
    {
        Reply::plain(Refusal::Head(why))
    }

    /// The reply with several parts of a file.
    #[inline(never)]
    fn of_parts(info: &BlobInfo, boundary: Boundary, body: FileBody) -> Reply
        requires { IsOfEight (digest_of info.now) (text_of boundary) }
        ensures { answer_of result ≡ part_answer 206 (parts_type (text_of boundary)) info.now None body.bytes }
    {
        let digest = info.digest();
        Reply {
            status: StatusCode::PARTIAL_CONTENT,
            content_type: MediaType::Parts(PartsType::of(boundary, digest)),
            etag: Some(digest),
            content_range: None,
            allow: None,
            body: Body::File(body),
        }
    }

    /// The reply with what is sent of a file of this type (RFC 9110, sections 15.3.1, 15.3.7 and 15.5.17). Its entity tag is the digest of the
    /// whole (RFC 9110, section 8.8.3).
    #[inline(always)]
    pub fn of_file(content_type: FieldText<'static>, info: &BlobInfo, body: FileBody) -> Reply
        requires { SendsParts (digest_of info.now) body }
        ensures { answer_of result
            ≡ sent_as content_type.entry.text.now info.now body.plan body.boundary body.bytes }
    {
        let length = info.len() as u64;
        let (status, content_range) = match body.form() {
            FileForm::Whole => (StatusCode::OK, None),
            FileForm::One(first, last) => {
                let range = ContentRange::Of {
                    first,
                    last,
                    length,
                };
                (StatusCode::PARTIAL_CONTENT, Some(range))
            }
            FileForm::Several(boundary) => return Reply::of_parts(info, boundary, body),
            FileForm::Nothing => return Reply::plain(Refusal::NotSatisfiable(length)),
        };
        Reply {
            status,
            content_type: MediaType::Fixed(content_type),
            etag: Some(info.digest()),
            content_range,
            allow: None,
            body: Body::File(body),
        }
    }

    /// The reply that tells of the file at a path without a byte of it (RFC 9110, section 9.3.2).
    pub fn unread(path: &FilePath, info: Arc<BlobInfo>) -> Reply
        ensures { answer_of result ≡ unread_answer (type_of path.now) info.value }
    {
        Reply {
            status: StatusCode::OK,
            content_type: MediaType::Fixed(file_type(path)),
            etag: Some(info.digest()),
            content_range: None,
            allow: None,
            body: Body::Unread(info),
        }
    }

    /// Its head, with this type and this entity tag.
    fn head<'a>(
        &'a self,
        content_type: FieldText<'a>,
        etag: Option<EntityTag<'a>>,
        close: bool,
    ) -> ReplyHead<'a>
        requires typed { content_type.text.now ≡ (answer_of self.now).content_type }
        requires tag { option_map (λ t. t.text.now) etag ≡ (answer_of self.now).etag }
        ensures { fields_of result (length (answer_of self.now).body) ≡ fields_for close (answer_of self.now) }
    {
        ReplyHead {
            status: self.status,
            content_type: Some(content_type),
            etag,
            accept_ranges: self.etag.is_some(),
            content_range: self.content_range,
            allow: self.allow,
            close,
        }
    }

    /// The parts of its body, in order, each as it lies: a text, or bytes of a file that it holds. A reply that tells of a file without a byte of
    /// it has no byte to lend. It takes no memory.
    pub fn parts(&self) -> Parts<'_>
        ensures sent { (answer_of self.now).withheld ≡ false → concat result ≡ (answer_of self.now).body }
        ensures withheld { (answer_of self.now).withheld ≡ true → concat result ≡ [] }
    {
        self.body.parts()
    }
}
