//! What answers the requests of a connection.
ghost use Rattle.std.specs.Prelude.{◌≡◌, ℕ, List, true, IfNone, IfSome};
ghost use Rattle.http_wire.specs.Requests.{RequestParts};
ghost use Rattle.host_connection.specs.Again.{IsAgain};
ghost use Rattle.host_replies.specs.Bodies.{answer_of};
ghost use Rattle.host_replies.specs.Replies.{Answer, is_head};

use crate::requests::Request;
use host_replies::Reply;
use std::alloc::Global;
use std::sync::Arc;

/// Answers requests, one after another. It may leave a request for later, and is asked again then.
pub trait Service {
    // What a request of these parts and this body is answered, and what the service has then.
    ghost answers: { Self → RequestParts → List ℕ → Answer → Self → Type 0 };

    // What stays of a service, whatever it answers.
    ghost grows: { Self → Self → Type 0 };

    // Whether it may leave a request to be answered later.
    ghost postpones: { Type 0 };

    /// The reply to a request; or none yet, where the service answers it later, and is what it was.
    fn answer(&mut self, alloc: Global, request: &Request) -> Option<Reply>
        ensures replied { IfSome result (λ reply.
            answers self.old request.now.head request.now.body.items (answer_of reply) self.new) }
        ensures later { IfNone result (postpones × (self.new ≡ self.old)) }
        ensures grows { grows self.old self.new };

    /// The text of the reply to a request with this head and no body, as it is sent, where the connection goes on after it. The service may have kept it from
    /// an earlier request. Where it has none, it is what it was.
    fn recall(&mut self, _head: &[u8]) -> Option<Arc<Vec<u8>>>
        ensures kept { IfSome result (λ text. IsAgain answers self.old _head.now text.value.items self.new) }
        ensures grows { IfSome result (λ text. grows self.old self.new) }
        ensures none { IfNone result (self.new ≡ self.old) }
    {
        None
    }

    // Only to HEAD is a body told by its length alone.
    ghost withheld: { (old : Self) (parts : RequestParts) (body : List ℕ) (answer : Answer) (new : Self)
        → answers old parts body answer new → answer.withheld ≡ true → is_head parts ≡ true };

    // It stays where nothing is answered, and from one answer to the next.
    ghost stays: { (service : Self) → grows service service };

    ghost goes_on: { (first mid last : Self) → grows first mid → grows mid last → grows first last };
}

/// A service that answers each request at once.
pub trait Prompt: Service {
    ghost at_once: { Self.Service.postpones → ⊥ };
}
