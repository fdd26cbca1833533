//! Checks whether a request waits for an interim reply.
ghost use Rattle.std.specs.Prelude.{◌≡◌, ◌≢◌, ◌↔◌, IsTrue, ℕ, []};
ghost use Rattle.http_wire.specs.Expectations as spec;
ghost use Rattle.http_wire.specs.Fields.{SayLength};

use crate::fields::Values;
use crate::heads::Head;
use crate::lengths::read_length;
use http::Version;

// Whether there is exactly one value and it is `100-continue`.
fn asks_continue(values: Values<'_>) -> bool
    ensures { result ≡ spec.asks_continue values.entry }
{
    let mut values = values;
    match (values.next(), values.next()) {
        (Some(value), None) => value.eq_ignore_ascii_case(b"100-continue"),
        _ => false,
    }
}

// Whether there is exactly one value and it is a valid length.
fn says_length(values: Values<'_>) -> bool
    ensures { IsTrue result ↔ ((values.entry ≢ []) × ((n : ℕ) × SayLength values.entry n)) }
{
    let mut values = values;
    match (values.next(), values.next()) {
        (Some(value), None) => read_length(value).is_some(),
        _ => false,
    }
}

impl Head {
    ghost use Rattle.std.specs.Prelude.{◌↔◌, IsTrue};
    ghost use Rattle.http_wire.specs.Expectations.{ExpectsContinue};

    /// Whether the client may wait for an interim reply before it sends the body (RFC 9110, section 10.1.1). It may if the version is
    /// HTTP/1.1, the only `Expect` field is `100-continue`, ignoring ASCII case, and the head has exactly one `Content-Length` with a valid
    /// length (0 is allowed). Allocates no memory.
    pub fn expects_continue(&self) -> bool
        ensures { IsTrue result ↔ ExpectsContinue self.now }
    {
        self.version() == Version::HTTP_11
            && asks_continue(self.values("expect"))
            && says_length(self.values("content-length"))
    }
}
