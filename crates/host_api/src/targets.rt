//! The target of a request, in its parts (RFC 9112, section 3.2; RFC 3986, sections 3.3 to 3.5).
ghost use Rattle.std.specs.Prelude.{◌≡◌, ◌<◌, ◌==◌, [], IsTrue, IfSome, map, option_map};
ghost use Rattle.std.specs.List.{before_first};
ghost use Rattle.host_api.specs.Targets as spec;
ghost use Rattle.host_api.specs.Patterns.{part_of, bindings_of, may_bind, next_segment, is_rest};

/// What is between two slashes of a target.
#[derive(Clone, Copy)]
pub enum Part {
    /// This word, with no escapes.
    Word(&'static str),
    /// The name of a site.
    Site,
    /// The name of an alias.
    Alias,
    /// The number of a deploy.
    Number,
}

/// What a target has in the places that its pattern leaves open. A place that its pattern doesn't have is empty.
#[derive(Clone, Copy)]
pub struct Bindings<'t> {
    pub site: &'t str,
    pub alias: &'t str,
    pub number: &'t str,
    /// What follows the pattern, with its leading slash.
    pub rest: &'t str,
}

// The text before the first such character, and the text from it on.
fn cut_at(text: &str, mark: char) -> (&str, &str)
    requires { mark < 128 }
    ensures front { result.0.now ≡ before_first (λ c. c == mark) text.now }
    ensures back { result.1.now ≡ spec.from_first mark text.now }
{
    match text.find(mark) {
        Some(end) => text.split_at(end),
        None => (text, ""),
    }
}

/// The target without its query (RFC 3986, section 3.4).
pub fn path_of(target: &str) -> &str
    ensures { result.now ≡ spec.path_of target.now }
{
    cut_at(target, '?').0
}

/// Whether the path has a `#`, and so is malformed: a target has no fragment (RFC 3986, section 3.5).
pub fn has_hash(path: &str) -> bool
    ensures { result ≡ spec.has_hash path.now }
{
    path.as_bytes().contains(&b'#')
}

// The segment after the slash that the text begins with, and what follows it.
fn take_segment(text: &str) -> Option<(&str, &str)>
    ensures { option_map (λ s. (s.0.now, s.1.now)) result ≡ next_segment text.now }
{
    Some(cut_at(text.strip_prefix('/')?, '/'))
}

// What a text that follows the last part gives, where it may.
fn fit_rest(has_rest: bool, text: &str) -> Option<Bindings<'_>>
    ensures value { option_map bindings_of result ≡ spec.fit [] has_rest text.now }
    ensures led { IfSome result (λ b. IsTrue (is_rest b.rest.now)) }
{
    let fits = if has_rest {
        text.starts_with('/')
    } else {
        text.is_empty()
    };
    fits.then_some(Bindings {
        site: "",
        alias: "",
        number: "",
        rest: text,
    })
}

// Whether a segment may be in the place of a part.
fn may_stand(part: &Part, segment: &str) -> bool
    ensures { result ≡ may_bind (part_of part.now) segment.now }
{
    match part {
        Part::Word(word) => segment == *word,
        Part::Site | Part::Alias | Part::Number => true,
    }
}

// What is found with the segment in the place of a part.
fn with_segment<'t>(part: &Part, segment: &'t str, found: Bindings<'t>) -> Bindings<'t>
    ensures value { bindings_of result ≡ spec.with_part (part_of part.now) segment.now (bindings_of found.entry) }
    ensures rest { result.rest.now ≡ found.entry.rest.now }
{
    match part {
        Part::Word(_) => found,
        Part::Site => Bindings {
            site: segment,
            ..found
        },
        Part::Alias => Bindings {
            alias: segment,
            ..found
        },
        Part::Number => Bindings {
            number: segment,
            ..found
        },
    }
}

/// What is in the open places of a pattern, if the text fits it: a segment for each of these parts, each after a slash, and then nothing,
/// or a rest that begins with a slash.
pub fn fit<'t>(parts: &[Part], has_rest: bool, text: &'t str) -> Option<Bindings<'t>>
    ensures value { option_map bindings_of result ≡ spec.fit (map part_of parts.now) has_rest text.now }
    ensures led { IfSome result (λ b. IsTrue (is_rest b.rest.now)) }
{
    let Some((part, others)) = parts.split_first() else {
        return fit_rest(has_rest, text);
    };
    let (segment, rest) = take_segment(text)?;
    if !may_stand(part, segment) {
        return None;
    }
    let found = fit(others, has_rest, rest)?;
    Some(with_segment(part, segment, found))
}
