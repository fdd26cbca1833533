//! Members of bodies that name an entry or a path.
ghost use Rattle.std.specs.Prelude.{◌≡◌, option_and_then, option_map};
ghost use Rattle.serde_json.specs.Find.{as_object, as_str, get_member};
ghost use Rattle.serde_json.specs.View.{number_view, view};
ghost use Rattle.host_api.specs.Bodies as spec;

use crate::numbers::{GREATEST_NUMBER, number_of};
use serde_json::{Number, Value};

// A number as that of an entry; 0 if no entry can have it.
fn entry_number(number: &Number) -> u64
    ensures { result ≡ spec.entry_number (number_view number.now) }
{
    match number.as_u64() {
        Some(number) if number <= GREATEST_NUMBER => number,
        _ => 0,
    }
}

// The number that a value writes, as a number or as text.
fn number_in(value: &Value) -> Option<u64>
    ensures { result ≡ spec.number_in (view value.now) }
{
    match value {
        Value::Number(number) => Some(entry_number(number)),
        Value::String(text) => Some(number_of(text.as_str())),
        _ => None,
    }
}

// The text that a value is.
fn text_in(value: &Value) -> Option<&str>
    ensures { option_map (λ text. text.now) result ≡ as_str (view value.now) }
{
    match value {
        Value::String(text) => Some(text.as_str()),
        _ => None,
    }
}

/// The number in the member of this name; 0 if no entry can have it.
#[tactic(auto, using(crate::proofs::ObjectBodies::get_in_object))]
pub(crate) fn number_member(body: &Value, name: &str) -> Option<u64>
    ensures { result
        ≡ option_and_then spec.number_in (option_and_then (get_member name.now) (as_object (view body.now))) }
{
    number_in(body.get(name)?)
}

/// The text in the member of this name.
#[tactic(auto, using(crate::proofs::ObjectBodies::get_in_object))]
pub(crate) fn text_member<'a>(body: &'a Value, name: &str) -> Option<&'a str>
    ensures { option_map (λ text. text.now) result
        ≡ option_and_then as_str (option_and_then (get_member name.now) (as_object (view body.now))) }
{
    text_in(body.get(name)?)
}
