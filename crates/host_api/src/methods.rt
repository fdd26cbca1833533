//! The methods of what targets name (RFC 9110, section 9).
ghost use Rattle.std.specs.Prelude.{◌≡◌, codes, map};
ghost use Rattle.std.specs.List.{join_by, list_any};
ghost use Rattle.std.specs.Str.{bytes_eq};
ghost use Rattle.host_api.specs.Methods.{names_of};

/// Which methods something has.
#[derive(Clone, Copy, Debug, PartialEq, Eq)]
pub enum Methods {
    /// It is read.
    Read,
    /// It is read or removed.
    ReadOrDelete,
    /// It is put in its place or removed.
    PutOrDelete,
    /// It is put in its place.
    Put,
    /// It is removed.
    Delete,
    /// It takes what is posted to it.
    Post,
}

impl Methods {
    // Their names, and the text that lists them.
    fn listed(self) -> (&'static [&'static str], &'static str)
        ensures names { map (λ name. name.now) result.0.now ≡ names_of self }
        ensures text { result.1.now ≡ join_by (λ name. name) (codes ", ") (names_of self) }
    {
        match self {
            Methods::Read => (&["GET", "HEAD"], "GET, HEAD"),
            Methods::ReadOrDelete => (&["GET", "HEAD", "DELETE"], "GET, HEAD, DELETE"),
            Methods::PutOrDelete => (&["PUT", "DELETE"], "PUT, DELETE"),
            Methods::Put => (&["PUT"], "PUT"),
            Methods::Delete => (&["DELETE"], "DELETE"),
            Methods::Post => (&["POST"], "POST"),
        }
    }

    /// Their names, separated by commas.
    pub(crate) fn text(self) -> &'static str
        ensures { result.now ≡ join_by (λ name. name) (codes ", ") (names_of self) }
    {
        self.listed().1
    }

    /// Whether the method is one of them.
    pub(crate) fn contains(self, method: &str) -> bool
        ensures { result ≡ list_any (bytes_eq method.now) (names_of self) }
    {
        self.listed().0.contains(&method)
    }
}
