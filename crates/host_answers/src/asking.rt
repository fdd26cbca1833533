//! What a request asks for.
ghost use Rattle.std.specs.Prelude.{◌≡◌, ◌⊎◌, Ok, Err, IsTrue, IfOk, IfErr};
ghost use Rattle.host_answers.specs.Asking as spec;
ghost use Rattle.host_answers.specs.Asking.{asking_takes};

use host_api::{Ask, Refusal, ask_of, route_of};
use http_wire::Head;
use std::alloc::Global;

/// What a request asks for, or the first reason why it asks for nothing.
pub fn asked_for(alloc: Global, head: &Head, body: &[u8]) -> Result<Ask, Refusal>
    ensures ok { IfOk result (λ ask. spec.asked_for head.now body.now ≡ Ok ask) }
    ensures refused { IfErr result (λ reason.
        ((reason ≡ Refusal.OutOfMemory) × IsTrue (asking_takes head.now body.now))
        ⊎ (spec.asked_for head.now body.now ≡ Err reason)) }
{
    let route = route_of(alloc, head.method().as_str(), head.target())?;
    ask_of(alloc, route, body)
}
