//! A server answers the requests of a connection.
ghost use Rattle.host_server.specs.Hosts.{Grows};
ghost use Rattle.host_server.specs.Growth.{itself, grows_then};
ghost use Rattle.host_server.specs.Asks.{IsAnswer};
ghost use Rattle.host_server.specs.Withheld.{withheld_to_head};

use crate::answers::answer;
use crate::servers::Server;
use blob_store::Shelf;
use host_connection::{Prompt, Request, Service};
use host_disk::Disk;
use host_replies::Reply;
use std::alloc::Global;

impl<S: Shelf, D: Disk> Service for Server<S, D> {
    ghost answers = { IsAnswer S.did S.failures };

    ghost grows = { λ old new. Grows old.house new.house };

    ghost postpones = { ⊥ };

    fn answer(&mut self, alloc: Global, request: &Request) -> Option<Reply> {
        Some(answer(alloc, request, self))
    }

    ghost withheld = { λ old parts body answer new is told.
        withheld_to_head S.did S.failures old new parts body answer is told };

    ghost stays = { λ server. itself server.house };

    ghost goes_on = { λ first mid last. grows_then first.house mid.house last.house };
}

impl<S: Shelf, D: Disk> Prompt for Server<S, D> {
    ghost at_once = { λ never. never };
}
