//! How many bytes a connection moved of late.
ghost use Rattle.std.specs.Prelude.{◌≡◌};
ghost use Rattle.connection_rules.specs.Recent as spec;

/// How many bytes a connection moved in the span of time that goes on, and in the one before. Spans are as long as each other, and numbered.
#[derive(Clone, Copy, Debug, PartialEq, Eq)]
pub struct Recent {
    pub span: u64,
    pub before: u64,
    pub moved: u64,
}

impl Recent {
    /// Nothing moved yet.
    pub fn new(span: u64) -> Recent
        ensures { result ≡ spec.unmoved span }
    {
        Recent {
            span,
            before: 0,
            moved: 0,
        }
    }

    // The same in this span.
    fn in_span(&self, span: u64) -> Recent
        ensures { result ≡ spec.in_span span self.now }
    {
        if span == self.span {
            return *self;
        }
        match self.span.checked_add(1) {
            Some(next) if span == next => Recent {
                span,
                before: self.moved,
                moved: 0,
            },
            _ => Recent::new(span),
        }
    }

    /// So many bytes moved in this span.
    pub fn add(&mut self, bytes: u64, span: u64)
        ensures { self.new ≡ spec.moved_more bytes (spec.in_span span self.old) }
    {
        let now = self.in_span(span);
        *self = Recent {
            moved: now.moved.saturating_add(bytes),
            ..now
        };
    }

    /// How many bytes moved in this span and in the one before.
    pub fn of_late(&self, span: u64) -> u64
        ensures { result ≡ spec.of_late (spec.in_span span self.now) }
    {
        let now = self.in_span(span);
        now.before.saturating_add(now.moved)
    }
}
