//! What a house answers a connection with a note.
ghost use Rattle.std.specs.Prelude.{◌≡◌, IfNone, IfSome};
ghost use Rattle.host_connection.specs.Again.{IsAgain};
ghost use Rattle.host_replies.specs.Bodies.{answer_of};
ghost use Rattle.shared_house.specs.Desks.{shows};
ghost use Rattle.shared_house.specs.Guests.{IsGuestAnswer};
ghost use Rattle.shared_house.specs.Seeing.{HasAll};

use crate::desk_access::DeskAccess;
use crate::file_access::FileAccess;
use crate::houses::SharedHouse;
use crate::kept::Kept;
use crate::notes::Note;
use host_answers::answer;
use host_replies::Reply;
use http_wire::Head;
use seen_lists::ListName;
use site_desk::{DeskName, KnownFiles};
use std::alloc::Global;
use std::sync::Arc;

/// The reply to a request of a connection with this note: the house learns the note before, and the note is what the house knows then.
pub(crate) fn answer_guest<
    J: DeskName,
    K: ListName<KnownFiles>,
    D: DeskAccess<J, K>,
    G: FileAccess,
>(
    alloc: Global,
    house: &mut SharedHouse<J, K, D, G>,
    note: &mut Note<J, K>,
    head: &Head,
    body: &[u8],
) -> Reply
    ensures replied { IsGuestAnswer (shows D.did G.fails) note.old head.now body.now (answer_of result) note.new }
    ensures grows { HasAll note.old note.new }
{
    house.learn_note(note);
    let reply = answer(alloc, house, head, body);
    *note = house.note();
    reply
}

/// The text of a reply that a worker keeps, as an answer to a connection with this note: the house learns the note before and looks, and the note is what the
/// house knows then. There is none if the look shows another log than that over which the reply was made.
pub(crate) fn recall_guest<
    J: DeskName,
    K: ListName<KnownFiles>,
    D: DeskAccess<J, K>,
    G: FileAccess,
>(
    house: &mut SharedHouse<J, K, D, G>,
    kept: &Kept<J>,
    known: &mut Note<J, K>,
) -> Option<Arc<Vec<u8>>>
    ensures kept { IfSome result (λ text.
        IsAgain (IsGuestAnswer (shows D.did G.fails)) known.old kept.now text.value.items known.new) }
    ensures grows { IfSome result (λ text. HasAll known.old known.new) }
    ensures none { IfNone result (known.new ≡ known.old) }
{
    house.learn_note(known);
    let Ok(_) = house.see() else {
        return None;
    };
    match kept.text_over(&house.front()) {
        Some(text) => {
            *known = house.note();
            Some(text)
        }
        None => None,
    }
}
