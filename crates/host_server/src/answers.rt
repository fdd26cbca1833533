//! What a request is answered.
ghost use Rattle.std.specs.Prelude.{◌≡◌, ℕ, ◌+◌, ◌≤◌, List, [], ◌∷◌, ◌++◌, length};
ghost use Rattle.change_log.specs.Logs as logs;
ghost use Rattle.site_change.specs.declared.entries.Entry.TheVariants as entry;
ghost use Rattle.host_names.specs.declared.names.SiteName.{SiteName as Site};
ghost use Rattle.site_change.specs.declared.commands.Command.{Command as Change};
ghost use Rattle.host_server.specs.Asks.{IsAnswer};
ghost use Rattle.host_replies.specs.Bodies.{answer_of};
ghost use Rattle.host_server.specs.Hosts.{Grows, state_of, with_log};

use crate::servers::Server;
use blob_store::Shelf;
use host_connection::Request;
use host_disk::Disk;
use host_replies::Reply;
use std::alloc::Global;

/// The reply to a request, and what it does to the host. If memory runs out the reply says so; the request may then have done nothing, its
/// first part (an opening without its publish, an upload), or everything. If the device fails while an entry is put into the journal, the
/// reply says so, and the host doesn't get that entry.
///
/// The contract speaks of the journal's disk (`IsPut`, `IsPutInVain`), and not of its entries alone: so it says what a crash leaves after
/// each reply. It also names an entry whose put failed, since the disk may have it though the host doesn't.
pub fn answer<S: Shelf, D: Disk>(
    alloc: Global,
    request: &Request,
    server: &mut Server<S, D>,
) -> Reply
    ensures replied { IsAnswer S.did S.failures server.old request.now.head request.now.body.items (answer_of result)
        server.new }
    ensures grows { Grows server.old.house server.new.house }
    ensures count { S.failures server.old.files.shelf ≤ S.failures server.new.files.shelf }
    // Where an accepted change is undone next, the state is the one before it.
    ensures undone { (before : logs.Log) (command : Change) (site : Site)
        → server.old.house.entries ≡ logs.with_entry before (entry.Change command)
        → server.new.house.entries ≡ logs.with_entry server.old.house.entries
        (entry.Undo site (logs.next_number before))
        → state_of server.new.house ≡ state_of (with_log server.old.house before) }
{
    server.house.lawful();
    host_answers::answer(alloc, server, &request.head, request.body.as_slice())
}
