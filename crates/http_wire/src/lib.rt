//! HTTP/1.1 on a byte stream. A server reads request heads and bodies and writes replies; a client writes a request and reads its answer.
#![tactic(auto)]

mod answer_heads;
mod answers;
mod bodies;
mod body_sends;
mod buffers;
mod connections;
mod duplexes;
mod entity_tags;
mod expectations;
mod faults;
mod field_texts;
mod fields;
mod gets;
mod halts;
mod heads;
pub mod laws;
mod lengths;
mod replies;
mod reply_heads;
mod scans;
mod sends;
mod sinks;
mod sources;
mod wires;

pub use answers::{AnswerFault, read_answer};
pub use duplexes::{Duplex, Pair, Steady};
pub use entity_tags::EntityTag;
pub use faults::{BodyFault, HeadFault, LengthFault, WriteFault};
pub use field_texts::FieldText;
pub use fields::{Fields, Values};
pub use gets::write_get;
pub use halts::Halt;
pub use heads::Head;
pub use lengths::check_body;
pub use replies::{
    ContentRange, ReplyBody, ReplyHead, decimal_text, range_value, try_write_interim,
    try_write_reply, write_reply,
};
pub use sends::Outgoing;
pub use sinks::{Sink, WriteFailed, Writing, write_all};
pub use sources::{ReadFailed, Reading, Source};
pub use wires::Wire;
