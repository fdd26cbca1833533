//! What is in a cell.
use crate::files::File;
use crate::listings::Listing;
use crate::paths::PathMap;
use std::alloc::AllocError;

/// The files of a deploy.
pub type Tree = PathMap<File>;

/// An open deploy.
#[derive(Drop)]
pub struct Draft {
    /// Whether it is published by itself once nothing is missing.
    pub auto: bool,
    /// What it lists.
    pub files: Listing,
}

/// What is in a cell; the kinds are those of cells.
#[derive(Drop)]
pub enum Value {
    /// The file that is served.
    Live(File),
    /// The files of a published deploy.
    Kept(Tree),
    /// The number of the deploy that an alias names.
    Alias(u64),
    /// An open deploy.
    Draft(Draft),
}

impl Clone for Draft {
    ghost use Rattle.std.specs.Prelude.{◌≡◌};

    ghost is_clone = { λ draft copy. copy ≡ draft };

    fn clone(&self) -> Result<Draft, AllocError> {
        Ok(Draft {
            auto: self.auto,
            files: self.files.clone()?,
        })
    }
}

impl PartialEq for Draft {
    ghost use Rattle.std.specs.Cmp.{partial_equiv_from_equiv};
    ghost use Rattle.site_state.specs.Values.{draft_eq};
    ghost use Rattle.site_state.specs.SameValues.{draft_eq-equiv};

    ghost eq = { draft_eq };

    ghost laws = { partial_equiv_from_equiv draft_eq-equiv };

    fn eq(&self, other: &Draft) -> bool {
        self.auto == other.auto && self.files == other.files
    }
}

impl Eq for Draft {
    ghost use Rattle.site_state.specs.SameValues.{draft_eq-equiv};

    ghost laws = { draft_eq-equiv };
}

impl Clone for Value {
    ghost use Rattle.std.specs.Prelude.{◌≡◌};

    ghost is_clone = { λ value copy. copy ≡ value };

    fn clone(&self) -> Result<Value, AllocError> {
        match self {
            Value::Live(file) => Ok(Value::Live(file.clone()?)),
            Value::Kept(tree) => Ok(Value::Kept(tree.clone()?)),
            Value::Alias(number) => Ok(Value::Alias(*number)),
            Value::Draft(draft) => Ok(Value::Draft(draft.clone()?)),
        }
    }
}

/// Files are compared by their digests.
impl PartialEq for Value {
    ghost use Rattle.std.specs.Cmp.{partial_equiv_from_equiv};
    ghost use Rattle.site_state.specs.Values.{value_alike};
    ghost use Rattle.site_state.specs.SameValues.{value_alike-equiv};

    ghost eq = { value_alike };

    ghost laws = { partial_equiv_from_equiv value_alike-equiv };

    fn eq(&self, other: &Value) -> bool {
        match (self, other) {
            (Value::Live(a), Value::Live(b)) => a == b,
            (Value::Kept(a), Value::Kept(b)) => a == b,
            (Value::Alias(a), Value::Alias(b)) => a == b,
            (Value::Draft(a), Value::Draft(b)) => a == b,
            _ => false,
        }
    }
}

impl Eq for Value {
    ghost use Rattle.site_state.specs.SameValues.{value_alike-equiv};

    ghost laws = { value_alike-equiv };
}
