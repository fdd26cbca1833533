//! Checks whether a request asks to close its connection.
ghost use Rattle.std.specs.Prelude.{◌≡◌, reverse};
ghost use Rattle.httparse.specs.Grammar.{skip_ows};
ghost use Rattle.http_wire.specs.Connections as connections;

use crate::heads::Head;

// Returns a text without its leading blanks.
fn trim_front(text: &[u8]) -> &[u8]
    ensures { result.now ≡ skip_ows text.now }
{
    let mut rest = text;
    while let Some((first, others)) = rest.split_first() {
        if !matches!(*first, b' ' | b'\t') {
            return rest;
        }
        rest = others;
    }
    rest
}

// Returns a text without its trailing blanks.
fn trim_back(text: &[u8]) -> &[u8]
    ensures { result.now ≡ reverse (skip_ows (reverse text.now)) }
{
    let mut rest = text;
    while let Some((last, others)) = rest.split_last() {
        if !matches!(*last, b' ' | b'\t') {
            return rest;
        }
        rest = others;
    }
    rest
}

// Whether an element is `close`, with or without blanks around it.
fn is_close(element: &[u8]) -> bool
    ensures { result ≡ connections.is_close element.now }
{
    trim_back(trim_front(element)).eq_ignore_ascii_case(b"close")
}

// Whether one of the comma-separated elements is `close`.
fn lists_close(value: &[u8]) -> bool
    ensures { result ≡ connections.lists_close value.now }
{
    value
        .split(|byte| *byte == b',')
        .any(|element| is_close(element))
}

impl Head {
    ghost use Rattle.http_wire.specs.Connections.{asks_close};

    /// Whether a `Connection` field lists `close`, ignoring ASCII case (RFC 9112, section 9.6).
    pub fn asks_close(&self) -> bool
        ensures { result ≡ asks_close self.now.fields }
    {
        self.values("connection").any(|value| lists_close(value))
    }
}
