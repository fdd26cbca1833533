//! Iterators over the fields of a head.
ghost use Rattle.std.specs.Prelude.{◌≡◌, All, map, length};
ghost use Rattle.std.specs.Iterator.{YieldsFirstBy, YieldsFirstRef, item_count};
ghost use Rattle.httparse.specs.Spans.{header_bytes, IsHeaderWithin};
ghost use Rattle.http_wire.specs.Fields.{values_of};

use httparse::spans::HeaderSpan;
use std::marker::Model;

/// Iterates over the values of the fields with one name, in order. Contracts see the list of the values that are left.
#[derive(Drop)]
pub struct Values<'h> {
    text: &'h [u8],
    fields: &'h [HeaderSpan],
    name: &'h str,
}

impl<'h> Model for Values<'h> {
    ghost use Rattle.std.specs.Prelude.{ℕ, List, map, All, length};
    ghost use Rattle.httparse.specs.Spans.{header_bytes, IsHeaderWithin};
    ghost use Rattle.http_wire.specs.Fields.{values_of};

    ghost Value = { List (List ℕ) };

    ghost view = { λ v. values_of v.name.now (map (header_bytes v.text.now) v.fields.now) };

    ghost invariant = { λ v. All (IsHeaderWithin (length v.text.now)) v.fields.now };
}

impl<'h> Values<'h> {
    pub(crate) fn new(text: &'h [u8], fields: &'h [HeaderSpan], name: &'h str) -> Values<'h>
        requires { All (IsHeaderWithin (length text.now)) fields.now }
        ensures { result ≡ values_of name.now (map (header_bytes text.now) fields.now) }
    {
        Values { text, fields, name }
    }
}

impl<'h> Iterator for Values<'h> {
    type Item = &'h [u8];

    ghost next_gives = { YieldsFirstRef (λ v. v) };

    ghost remaining = { item_count (λ v. v) };

    fn next(&mut self) -> Option<&'h [u8]> {
        while let Some((first, others)) = self.fields.split_first() {
            self.fields = others;
            if first
                .name
                .of(self.text)
                .eq_ignore_ascii_case(self.name.as_bytes())
            {
                return Some(first.value.of(self.text));
            }
        }
        None
    }
}

/// Iterates over all fields, in order. Yields the name of each field and its value without the white space around it. Contracts see the
/// list of the fields that are left.
#[derive(Drop)]
pub struct Fields<'h> {
    text: &'h [u8],
    fields: &'h [HeaderSpan],
}

impl<'h> Model for Fields<'h> {
    ghost use Rattle.std.specs.Prelude.{ℕ, List, map, All, length};
    ghost use Rattle.httparse.specs.Spans.{header_bytes, IsHeaderWithin};

    ghost Value = { List (List ℕ × List ℕ) };

    ghost view = { λ f. map (header_bytes f.text.now) f.fields.now };

    ghost invariant = { λ f. All (IsHeaderWithin (length f.text.now)) f.fields.now };
}

impl<'h> Fields<'h> {
    pub(crate) fn new(text: &'h [u8], fields: &'h [HeaderSpan]) -> Fields<'h>
        requires { All (IsHeaderWithin (length text.now)) fields.now }
        ensures { result ≡ map (header_bytes text.now) fields.now }
    {
        Fields { text, fields }
    }
}

impl<'h> Iterator for Fields<'h> {
    type Item = (&'h [u8], &'h [u8]);

    ghost next_gives = { YieldsFirstBy (λ field. (field.0.now, field.1.now)) (λ f. f) };

    ghost remaining = { item_count (λ f. f) };

    fn next(&mut self) -> Option<(&'h [u8], &'h [u8])> {
        let (first, others) = self.fields.split_first()?;
        self.fields = others;
        Some((first.name.of(self.text), first.value.of(self.text)))
    }
}
