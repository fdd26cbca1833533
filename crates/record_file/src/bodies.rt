//! The seam between the file, which is lists of bytes, and what these bytes mean.
//!
//! `openings::open_file` hands each body, in order, to a `Bodies`. For entries, `has self bodies` says that the bodies are the texts of the
//! entries taken so far, each of which has a text; `is_lawful header before body` says that the body spells an entry that a file with this header
//! may have, whatever came before it. The position that `open_file` answers makes `Records`, whose `put` takes the bytes of a record: `framed body ++ 0`.
ghost use Rattle.std.specs.Prelude.{IsErrOf, List, OnOk, [], ◌∷◌, ◌++◌, ℕ};
ghost use Rattle.record_file.specs.declared.bodies.BodyFault.TheVariants.{Bad};

/// Why a body isn't taken.
#[derive(Clone, Copy, Debug, PartialEq, Eq)]
pub enum BodyFault {
    Bad,
    OutOfMemory,
}

/// Takes the bodies of a file, one after another.
pub trait Bodies {
    /// Whether bytes are a body of a file with this header, after those before it.
    ghost is_lawful: { List ℕ → List (List ℕ) → List ℕ → Type 0 };

    /// Whether these are the bodies that it has taken.
    ghost has: { Self → List (List ℕ) → Type 0 };

    /// Takes one more, of a file with this header.
    fn take(&mut self, header: &[u8], body: &[u8]) -> Result<(), BodyFault>
        ensures taken { (bodies : List (List ℕ)) → has self.old bodies
            → OnOk result (has self.new (bodies ++ body.now ∷ [])) }
        ensures lawful { (bodies : List (List ℕ)) → has self.old bodies → OnOk result (is_lawful header.now bodies body.now) }
        ensures bad { (bodies : List (List ℕ)) → has self.old bodies → IsErrOf result Bad
            → is_lawful header.now bodies body.now → ⊥ };
}
