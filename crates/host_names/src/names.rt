//! The names of sites and of aliases.
ghost use Rattle.std.specs.Prelude.{◌≡◌, ◌↔◌, Some, IsTrue, IsOk, IfOk, nat_eq, refl};
ghost use Rattle.std.specs.List.{list_all};
ghost use Rattle.std.specs.Ordering.{nat_cmp};
ghost use Rattle.std.specs.Cmp.{partial_equiv_from_equiv};
ghost use Rattle.std.specs.Cmp.Lexicographic.{pointwise, slice_cmp, nat_list_eq_equiv, nat_list_cmp_total, texts_po, texts_ties};
ghost use Rattle.host_names.specs.Name.{is_name};

use arrayvec::ArrayString;
use std::alloc::AllocError;
use std::cmp::Ordering;
use std::fmt;
use std::marker::Model;
use thiserror::Error;

/// The greatest length of a name, in bytes.
const LONGEST: usize = 63;

/// A text is no name.
#[derive(Clone, Copy, Debug, PartialEq, Eq, Error)]
#[error("a name is 1 to 63 of the characters a-z, 0-9 and -")]
pub struct BadName;

/// 1 to 63 of the characters `a` to `z`, `0` to `9` and `-`. Contracts see its bytes.
#[derive(Drop)]
pub struct Name {
    text: ArrayString<LONGEST>,
}

impl Model for Name {
    ghost use Rattle.std.specs.Prelude.{List, ℕ, IsTrue};
    ghost use Rattle.host_names.specs.Name.{is_name};

    ghost Value = { List ℕ };

    ghost view = { λ n. n.text.bytes };

    ghost invariant = { λ n. IsTrue (is_name n.text.bytes) };
}

fn is_name_byte(byte: u8) -> bool
    ensures { result ≡ Rattle.host_names.specs.Name.is_name_byte byte }
{
    matches!(byte, b'a'..=b'z' | b'0'..=b'9' | b'-')
}

fn has_name_bytes(text: &[u8]) -> bool
    ensures { result ≡ list_all Rattle.host_names.specs.Name.is_name_byte text.now }
{
    text.iter().all(|byte| is_name_byte(*byte))
}

fn is_lawful(text: &[u8]) -> bool
    ensures { result ≡ is_name text.now }
{
    1 <= text.len() && text.len() <= LONGEST && has_name_bytes(text)
}

impl Name {
    /// The name that a text is.
    pub fn new(text: &str) -> Result<Name, BadName>
        ensures lawful { IsOk result ↔ IsTrue (is_name text.now) }
        ensures kept { IfOk result (λ name. name ≡ text.now) }
    {
        if !is_lawful(text.as_bytes()) {
            return Err(BadName);
        }
        match ArrayString::from(text) {
            Ok(text) => Ok(Name { text }),
            Err(_) => Err(BadName),
        }
    }

    /// Its text.
    pub fn as_str(&self) -> &str
        ensures value { result.now ≡ self.now }
        ensures lawful { IsTrue (is_name self.now) }
    {
        self.text.as_str()
    }

    /// A copy, which takes no memory.
    pub fn copied(&self) -> Name
        ensures { result ≡ self.now }
    {
        Name { text: self.text }
    }
}

impl Clone for Name {
    ghost is_clone = { λ name copy. copy ≡ name };

    ghost is_infallible = { λ _. Unit {0} };

    fn clone(&self) -> Result<Name, AllocError> {
        Ok(self.copied())
    }
}

impl PartialEq for Name {
    ghost eq = { pointwise nat_eq };

    ghost laws = { partial_equiv_from_equiv nat_list_eq_equiv };

    fn eq(&self, other: &Name) -> bool {
        self.as_str() == other.as_str()
    }
}

impl Eq for Name {
    ghost laws = { nat_list_eq_equiv };
}

impl PartialOrd for Name {
    ghost partial_cmp = { λ x y. Some (slice_cmp nat_cmp x y) };

    ghost laws = { texts_po };

    fn partial_cmp(&self, other: &Name) -> Option<Ordering> {
        Some(self.cmp(other))
    }
}

impl Ord for Name {
    ghost cmp = { slice_cmp nat_cmp };

    ghost total = { nat_list_cmp_total };

    ghost matches_partial_cmp = { λ x y. refl };

    ghost matches_eq = { texts_ties };

    fn cmp(&self, other: &Name) -> Ordering {
        self.as_str().cmp(other.as_str())
    }
}

impl fmt::Display for Name {
    ghost output = { λ name. Some name };

    fn fmt<W: fmt::Write>(&self, f: &mut fmt::Formatter<W>) -> fmt::Result {
        f.pad(self.as_str())
    }
}

impl fmt::Debug for Name {
    fn fmt<W: fmt::Write>(&self, f: &mut fmt::Formatter<W>) -> fmt::Result {
        fmt::Debug::fmt(&self.as_str(), f)
    }
}

/// The name of a site.
#[derive(Clone, Debug, PartialEq, Eq, PartialOrd, Ord, Drop)]
pub struct SiteName(pub Name);

impl SiteName {
    /// The site that a text names.
    pub fn new(text: &str) -> Result<SiteName, BadName>
        ensures lawful { IsOk result ↔ IsTrue (is_name text.now) }
        ensures kept { IfOk result (λ site. site.0 ≡ text.now) }
    {
        Ok(SiteName(Name::new(text)?))
    }

    /// Its text.
    pub fn as_str(&self) -> &str
        ensures value { result.now ≡ self.now.0 }
        ensures lawful { IsTrue (is_name self.now.0) }
    {
        self.0.as_str()
    }

    /// A copy, which takes no memory.
    pub fn copied(&self) -> SiteName
        ensures { result ≡ self.now }
    {
        SiteName(self.0.copied())
    }
}

/// The name of an alias, which names a kept deploy of its site.
#[derive(Clone, Debug, PartialEq, Eq, PartialOrd, Ord, Drop)]
pub struct AliasName(pub Name);

impl AliasName {
    /// The alias that a text names.
    pub fn new(text: &str) -> Result<AliasName, BadName>
        ensures lawful { IsOk result ↔ IsTrue (is_name text.now) }
        ensures kept { IfOk result (λ alias. alias.0 ≡ text.now) }
    {
        Ok(AliasName(Name::new(text)?))
    }

    /// Its text.
    pub fn as_str(&self) -> &str
        ensures value { result.now ≡ self.now.0 }
        ensures lawful { IsTrue (is_name self.now.0) }
    {
        self.0.as_str()
    }

    /// A copy, which takes no memory.
    pub fn copied(&self) -> AliasName
        ensures { result ≡ self.now }
    {
        AliasName(self.0.copied())
    }
}

impl fmt::Display for SiteName {
    ghost output = { λ site. Some site.0 };

    fn fmt<W: fmt::Write>(&self, f: &mut fmt::Formatter<W>) -> fmt::Result {
        f.pad(self.as_str())
    }
}

impl fmt::Display for AliasName {
    ghost output = { λ alias. Some alias.0 };

    fn fmt<W: fmt::Write>(&self, f: &mut fmt::Formatter<W>) -> fmt::Result {
        f.pad(self.as_str())
    }
}
