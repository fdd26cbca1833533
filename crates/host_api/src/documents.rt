//! The bodies of requests as JSON (RFC 8259).
ghost use Rattle.std.specs.Prelude.{◌≡◌, ◌≢◌, None, IsTrue, IfOk, IfErr, IsErrOf};
ghost use Rattle.std.specs.Str.{is_utf8};
ghost use Rattle.serde_json.specs.Find.{as_object};
ghost use Rattle.serde_json.specs.View.{view};
ghost use Rattle.host_api.specs.Bodies.{object_of};

use crate::refusals::Refusal;
use serde_json::Value;
use std::alloc::Global;
use std::str;

/// The JSON value of a body. A body that is not an object has no members.
#[tactic(auto, using(crate::proofs::ObjectBodies::object_of_text, crate::proofs::ObjectBodies::object_of_bytes, crate::proofs::ObjectBodies::text_is_utf8))]
pub(crate) fn document(alloc: Global, body: &[u8]) -> Result<Value, Refusal>
    ensures ok { IfOk result (λ value. object_of body.now ≡ as_object (view value)) }
    ensures text { IfOk result (λ _. IsTrue (is_utf8 body.now)) }
    ensures refused { IfErr result (λ refusal. refusal ≢ Refusal.OutOfMemory →
        (object_of body.now ≡ None) × (refusal ≡ Refusal.BadBody)) }
    ensures memory { IsErrOf result Refusal.OutOfMemory → IsTrue (is_utf8 body.now) }
{
    let Ok(text) = str::from_utf8(body) else {
        return Err(Refusal::BadBody);
    };
    match Value::from_str(alloc, text) {
        Ok(value) => Ok(value),
        Err(error) => {
            if error.is_memory() {
                Err(Refusal::OutOfMemory)
            } else {
                Err(Refusal::BadBody)
            }
        }
    }
}
