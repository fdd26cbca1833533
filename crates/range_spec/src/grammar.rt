//! The value of a Range field.
ghost use Rattle.std.specs.Prelude.{◌≡◌, ◌↔◌, List, IsTrue, IsSome, IfSome, Some};
ghost use Rattle.range_spec.specs.Asks.{IsInOrder, IsAskable, AsksRanges};
ghost use Rattle.range_spec.specs.Understood.{IsUnderstoodAs};

use crate::reading::{range_set, specs_of_set};
use arrayvec::ArrayVec;
use std::marker::Model;

/// A range-spec of RFC 9110, section 14.1.2. Positions count bytes from 0.
#[derive(Clone, Copy, Debug, PartialEq, Eq)]
pub enum Spec {
    /// An int-range: from the first position to the last, both included, or to the end.
    From(u64, Option<u64>),
    /// A suffix-range: the last bytes, as many as this number.
    Suffix(u64),
}

impl Spec {
    /// Whether its last position, if it has one, is not below its first.
    fn is_in_order(self) -> bool
        ensures { IsTrue result ↔ IsInOrder self }
    {
        match self {
            Spec::From(first, Some(last)) => first <= last,
            _ => true,
        }
    }
}

/// Every byte.
impl Default for Spec {
    ghost use Rattle.std.specs.Prelude.{◌≡◌, None};
    ghost use Rattle.range_spec.specs.declared.grammar.Spec.TheVariants.{From};

    ghost is_default = { λ spec. spec ≡ From 0 None };

    fn default() -> Self {
        Spec::From(0, None)
    }
}

/// The specs that one field asks for, in order: 1 to 16 of them, none with its last position below its first.
#[derive(Clone, Debug, PartialEq, Eq, Drop)]
pub struct Specs {
    list: ArrayVec<Spec, 16>,
}

impl Model for Specs {
    ghost use Rattle.std.specs.Prelude.{List};
    ghost use Rattle.range_spec.specs.declared.grammar.Spec.{Spec};
    ghost use Rattle.range_spec.specs.Asks.{IsAskable};

    ghost Value = { List Spec };

    ghost view = { λ s. s.list.items };

    ghost invariant = { λ s. IsAskable s.list.items };

    ghost inverse = { λ specs. record { list = record { items = specs } } };
}

impl Specs {
    /// The list of these specs, if a field may ask for it.
    fn of(list: ArrayVec<Spec, 16>) -> Option<Self>
        ensures askable { IsSome result ↔ IsAskable list.items }
        ensures value { IfSome result (λ specs. specs ≡ list.items) }
    {
        if list.is_empty() || !list.iter().all(|spec| spec.is_in_order()) {
            return None;
        }
        Some(Specs { list })
    }

    /// The specs, in the order asked.
    pub fn as_slice(&self) -> &[Spec]
        ensures value { result.now ≡ self.now }
        ensures askable { IsAskable self.now }
    {
        self.list.as_slice()
    }
}

/// What a Range field asks for.
#[derive(Clone, Debug, PartialEq, Eq, Drop)]
pub enum Asked {
    /// Nothing that is understood: the field is ignored (RFC 9110, section 14.2).
    Ignore,
    /// These specs.
    Specs(Specs),
}

/// Reads the value of a Range field, in one pass whatever its length.
pub fn parse(value: &[u8]) -> Asked
    ensures understood { IsUnderstoodAs value.now result }
{
    match specs_asked(value) {
        Some(specs) => Asked::Specs(specs),
        None => Asked::Ignore,
    }
}

/// The specs that a value asks for, if it asks for some.
fn specs_asked(value: &[u8]) -> Option<Specs>
    ensures { (specs : List Spec) → (result ≡ Some specs) ↔ AsksRanges value.now specs }
{
    let set = range_set(value)?;
    Specs::of(specs_of_set(set)?)
}
