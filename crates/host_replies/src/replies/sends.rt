//! Replies on their way out.
ghost use Rattle.std.specs.Prelude.{◌≡◌, List, true, option_map, IsErrOf};
ghost use Rattle.http_wire.specs.Gathering.{IsCounted, SendsOn};
ghost use Rattle.http_wire.specs.Timing.{Event, Steps};
ghost use Rattle.host_replies.specs.Bodies.{answer_of};
ghost use Rattle.host_replies.specs.Replies.{sent_text};

use super::Reply;
use crate::media_types::MediaType;
use http_wire::{
    Duplex, EntityTag, FieldText, Halt, Outgoing, ReplyBody, WriteFailed, try_write_reply,
};
use range_reply::Parts;

impl Reply {
    /// Goes on with it, with this type and this entity tag.
    #[inline(always)]
    fn try_send_with<D: Duplex>(
        &self,
        duplex: &mut D,
        out: &mut Outgoing,
        content_type: FieldText<'_>,
        etag: Option<EntityTag<'_>>,
        close: bool,
        head_only: bool,
    ) -> Result<(), Halt<WriteFailed>>
        requires typed { content_type.text.now ≡ (answer_of self.now).content_type }
        requires tag { option_map (λ t. t.text.now) etag ≡ (answer_of self.now).etag }
        requires sent { (answer_of self.now).withheld ≡ true → head_only ≡ true }
        requires counted { IsCounted out.old }
        ensures ran { SendsOn D.saw duplex.old duplex.new result
            (sent_text close head_only (answer_of self.now)) out.old out.new }
        ensures led { (events : List Event) × Steps D.saw duplex.old events duplex.new }
        ensures waits { IsErrOf result Halt.WouldWait → D.waits duplex.new }
    {
        let head = self.head(content_type, etag, close);
        if head_only {
            return try_write_reply(
                duplex,
                out,
                &head,
                ReplyBody::<Parts<'_>>::Withheld(self.body.length()),
            );
        }
        try_write_reply(duplex, out, &head, ReplyBody::Sent(self.parts()))
    }

    /// Goes on with it, with this type.
    fn try_send_as<D: Duplex>(
        &self,
        duplex: &mut D,
        out: &mut Outgoing,
        content_type: FieldText<'_>,
        close: bool,
        head_only: bool,
    ) -> Result<(), Halt<WriteFailed>>
        requires typed { content_type.text.now ≡ (answer_of self.now).content_type }
        requires sent { (answer_of self.now).withheld ≡ true → head_only ≡ true }
        requires counted { IsCounted out.old }
        ensures ran { SendsOn D.saw duplex.old duplex.new result
            (sent_text close head_only (answer_of self.now)) out.old out.new }
        ensures led { (events : List Event) × Steps D.saw duplex.old events duplex.new }
        ensures waits { IsErrOf result Halt.WouldWait → D.waits duplex.new }
    {
        let Some(digest) = self.etag else {
            return self.try_send_with(duplex, out, content_type, None, close, head_only);
        };
        let hex = digest.to_hex();
        let etag = Some(EntityTag::new(hex.as_str()));
        self.try_send_with(duplex, out, content_type, etag, close, head_only)
    }

    /// Goes on with the reply after the bytes of it that were written, and with those that are gathered in `out`; it begins where `out` begins a
    /// text. It has no body if only the head is wanted (RFC 9110, section 9.3.2), and its head says whether the connection closes.
    pub fn try_send<D: Duplex>(
        &self,
        duplex: &mut D,
        out: &mut Outgoing,
        close: bool,
        head_only: bool,
    ) -> Result<(), Halt<WriteFailed>>
        requires sent { (answer_of self.now).withheld ≡ true → head_only ≡ true }
        requires counted { IsCounted out.old }
        ensures ran { SendsOn D.saw duplex.old duplex.new result
            (sent_text close head_only (answer_of self.now)) out.old out.new }
        ensures led { (events : List Event) × Steps D.saw duplex.old events duplex.new }
        ensures waits { IsErrOf result Halt.WouldWait → D.waits duplex.new }
    {
        match &self.content_type {
            MediaType::Fixed(text) => self.try_send_as(duplex, out, *text, close, head_only),
            MediaType::Parts(parts) => {
                let text = parts.text();
                let content_type = FieldText::new(text.as_str());
                self.try_send_as(duplex, out, content_type, close, head_only)
            }
        }
    }
}
