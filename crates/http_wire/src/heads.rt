//! Heads of requests.
ghost use Rattle.std.specs.Prelude.{◌≡◌, length, IfOk, IfErr, OnErr, Err};
ghost use Rattle.httparse.specs.Grammar.{RequestHead, print_request};
ghost use Rattle.httparse.specs.Spans.{IsRequestAt, IsRequestWithin};
ghost use Rattle.http_wire.specs.Fields.{values_of};
ghost use Rattle.http_wire.specs.HeadText.{IsHeadText};
ghost use Rattle.http_wire.specs.Requests.{IsServed, version_of, Says, SaysSomething, IsParsedAs};

use crate::faults::HeadFault;
use crate::fields::{Fields, Values};
use http::method::MethodError;
use http::{Method, Version};
use httparse::spans::{HeaderSpan, RequestSpans, Span, parse_request};
use httparse::{Error, Status};
use std::alloc::{AllocError, Global};
use std::marker::Model;
use std::str;

/// The maximum number of fields in a head.
pub(crate) const FIELD_LIMIT: usize = 64;

/// The head of a request. Contracts see its parts: method, target, minor version and fields.
#[derive(Drop)]
pub struct Head {
    text: Vec<u8>,
    method: Method,
    target: Span,
    minor: u8,
    fields: Vec<HeaderSpan>,
}

impl Model for Head {
    ghost use Rattle.std.specs.Prelude.{map, All, vec_len, IsUtf8};
    ghost use Rattle.httparse.specs.Spans.{span_bytes, header_bytes, IsWithin, IsHeaderWithin};
    ghost use Rattle.http_wire.specs.Requests.{RequestParts, Says};

    ghost Value = { RequestParts };

    ghost view = { λ h. record {
      method = h.method;
      target = span_bytes h.text.items h.target;
      minor = h.minor;
      fields = map (header_bytes h.text.items) h.fields.items;
    } };

    ghost invariant = { λ h. IsWithin (vec_len h.text) h.target × IsUtf8 (span_bytes h.text.items h.target)
        × All (IsHeaderWithin (vec_len h.text)) h.fields.items
        × Says h.text.items (record {
          method = h.method;
          target = span_bytes h.text.items h.target;
          minor = h.minor;
          fields = map (header_bytes h.text.items) h.fields.items;
        }) };
}

// Finds the spans of the head's parts, if the head is served.
fn find_parts(text: &[u8], room: &mut [HeaderSpan]) -> Result<RequestSpans, HeadFault>
    requires whole { IsHeadText text.now }
    requires size { length room.old ≡ FIELD_LIMIT }
    ensures found { IfOk result (λ spans. (head : RequestHead) × IsServed head × (text.now ≡ print_request head)
        × IsRequestAt text.now room.new spans head) }
    ensures within { IfOk result (IsRequestWithin text.now room.new) }
    ensures fault { IfErr result (λ fault. IsParsedAs (Err fault) text.now) }
{
    let spans = match parse_request(text, room) {
        Ok(Status::Complete(spans)) => spans,
        Ok(Status::Partial) => return Err(HeadFault::BadHead),
        Err(error) => {
            return Err(if error == Error::TooManyHeaders {
                HeadFault::HeadTooLarge
            } else {
                HeadFault::BadHead
            });
        }
    };
    // A target begins with a slash.
    if spans.path.of(text).first().copied() == Some(b'/') {
        Ok(spans)
    } else {
        Err(HeadFault::BadHead)
    }
}

impl Head {
    /// Parses the text of a head by the grammar of requests. `room` has a place for each of 64 fields, and is overwritten. Returns the head or the
    /// reason why it is refused, or `AllocError` if memory for the head cannot be allocated.
    pub(crate) fn parse(
        alloc: Global,
        text: &[u8],
        room: &mut [HeaderSpan],
    ) -> Result<Result<Head, HeadFault>, AllocError>
        requires whole { IsHeadText text.now }
        requires size { length room.old ≡ FIELD_LIMIT }
        ensures ok { IfOk result (λ parsed. IsParsedAs parsed text.now) }
        ensures memory { OnErr result (SaysSomething text.now) }
    {
        let spans = match find_parts(text, room) {
            Ok(spans) => spans,
            Err(fault) => return Ok(Err(fault)),
        };
        if str::from_utf8(spans.path.of(text)).is_err() {
            return Ok(Err(HeadFault::BadHead));
        }
        let method = match Method::from_bytes(alloc, spans.method.of(text)) {
            Ok(method) => method,
            Err(MethodError::Invalid) => return Ok(Err(HeadFault::BadHead)),
            Err(MethodError::OutOfMemory) => return Err(AllocError),
        };
        let fields = room[..spans.headers].to_vec(alloc)?;
        let text = text.to_vec(alloc)?;
        Ok(Ok(Head {
            text,
            method,
            target: spans.path,
            minor: spans.version,
            fields,
        }))
    }

    /// Returns its text, as it came, the empty lines before it included.
    pub fn text(&self) -> &[u8]
        ensures { Says result.now self.now }
    {
        self.text.as_slice()
    }

    /// Returns the method.
    pub fn method(&self) -> &Method
        ensures { result.now ≡ self.now.method }
    {
        &self.method
    }

    /// Returns the HTTP version.
    pub fn version(&self) -> Version
        ensures { result ≡ version_of self.now.minor }
    {
        if self.minor == 0 {
            Version::HTTP_10
        } else {
            Version::HTTP_11
        }
    }

    /// Returns the target, as it is in the head.
    pub fn target(&self) -> &str
        ensures { result.now ≡ self.now.target }
    {
        // SAFETY: a head is made only if its target is UTF-8, and never changes.
        unsafe { str::from_utf8_unchecked(self.target.of(&self.text)) }
    }

    /// Returns all fields, in order: the name and the value of each.
    pub fn fields(&self) -> Fields<'_>
        ensures { result ≡ self.now.fields }
    {
        Fields::new(self.text.as_slice(), self.fields.as_slice())
    }

    /// Returns the values of the fields named `name`, ignoring ASCII case, in order.
    pub fn values<'h>(&'h self, name: &'h str) -> Values<'h>
        ensures { result ≡ values_of name.now self.now.fields }
    {
        Values::new(self.text.as_slice(), self.fields.as_slice(), name)
    }
}
