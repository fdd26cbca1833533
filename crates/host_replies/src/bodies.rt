//! The bodies of replies.
ghost use Rattle.std.specs.Prelude.{◌≡◌, [], false, length, true};
ghost use Rattle.std.specs.List.{concat};
ghost use Rattle.host_replies.specs.Bodies.{bytes_of, is_withheld, text_bytes};

use arrayvec::ArrayString;
use byte_view::{BlobInfo, BodyParts};
use host_api::SHORT_TEXT;
use range_reply::{FileBody, Parts};
use std::sync::Arc;

/// A text of a reply.
#[derive(Drop)]
pub enum BodyText {
    /// One that was made for the reply.
    Made(String),
    /// That of a refusal, which takes no memory.
    Short(ArrayString<SHORT_TEXT>),
    /// One that the program has.
    Fixed(&'static str),
}

impl BodyText {
    pub(crate) fn bytes(&self) -> &[u8]
        ensures { result.now ≡ text_bytes self.now }
    {
        match self {
            BodyText::Made(text) => text.as_bytes(),
            BodyText::Short(text) => text.as_str().as_bytes(),
            BodyText::Fixed(text) => text.as_bytes(),
        }
    }
}

/// The body of a reply.
#[derive(Drop)]
pub enum Body {
    Text(BodyText),
    /// What is sent of a file, which is held.
    File(FileBody),
    /// All of a file of which nothing is read, since no byte of it is sent.
    Unread(Arc<BlobInfo>),
}

impl Body {
    /// How many bytes it has.
    pub(crate) fn length(&self) -> u64
        ensures { result ≡ length (bytes_of self.now) }
    {
        match self {
            Body::Text(text) => text.bytes().len() as u64,
            Body::File(sent) => sent.parts().length(),
            Body::Unread(info) => info.len() as u64,
        }
    }

    /// Its parts, in order, each as it lies; no byte of a file of which nothing is read. It takes no memory.
    pub(crate) fn parts(&self) -> Parts<'_>
        ensures sent { is_withheld self.now ≡ false → concat result ≡ bytes_of self.now }
        ensures withheld { is_withheld self.now ≡ true → concat result ≡ [] }
    {
        match self {
            Body::Text(text) => Parts::of(text.bytes()),
            Body::File(sent) => sent.parts(),
            Body::Unread(_) => Parts::of(&[]),
        }
    }
}
