//! The media types of files.
ghost use Rattle.std.specs.Prelude.{◌≡◌, ◌≢◌, ◌<◌, ℕ, MatchOption, EachIndex, slice_index, length};
ghost use Rattle.std.specs.List.{find};
ghost use Rattle.std.specs.Option.{option_map};
ghost use Rattle.std.specs.Str.{str_eq_ignore_ascii_case};
ghost use Rattle.host_api.specs.Types.{after_last, extension_of, type_of};

use host_names::FilePath;

// The endings of names, and the types of the files whose names end so.
static TYPES: [(&str, &str); 11] = [
    ("html", "text/html; charset=utf-8"),
    ("css", "text/css; charset=utf-8"),
    ("js", "text/javascript; charset=utf-8"),
    ("txt", "text/plain; charset=utf-8"),
    ("json", "application/json"),
    ("svg", "image/svg+xml"),
    ("png", "image/png"),
    ("jpg", "image/jpeg"),
    ("jpeg", "image/jpeg"),
    ("gif", "image/gif"),
    ("woff2", "font/woff2"),
];

// The place of the last such byte, if there is one.
fn last_place(text: &[u8], byte: u8) -> Option<usize>
    ensures { MatchOption result
        (EachIndex text.now (λ k. slice_index text.now k ≢ byte))
        (λ at. (at < length text.now) × (slice_index text.now at ≡ byte)
        × ((k : ℕ) → at < k → k < length text.now → slice_index text.now k ≢ byte)) }
{
    text.iter().rposition(|other| *other == byte)
}

// What follows the last such byte, if there is one.
fn behind_last(text: &[u8], byte: u8) -> Option<&[u8]>
    ensures { option_map (λ rest. rest.now) result ≡ after_last byte text.now }
{
    let at = last_place(text, byte)?;
    Some(&text[at + 1..])
}

// What follows the last dot of the last segment, if it has one.
fn extension(path: &[u8]) -> Option<&[u8]>
    ensures { option_map (λ rest. rest.now) result ≡ extension_of path.now }
{
    behind_last(behind_last(path, b'/').unwrap_or(path), b'.')
}

// The type in the first of some rows that has the extension, ASCII case ignored.
fn listed(rows: &'static [(&str, &str)], extension: &[u8]) -> Option<&'static str>
    ensures { option_map (λ media_type. media_type.now) result
        ≡ option_map (λ row. row.1.now) (find (λ row. str_eq_ignore_ascii_case extension.now row.0.now) rows.now) }
{
    rows.iter()
        .find(|row| extension.eq_ignore_ascii_case(row.0.as_bytes()))
        .map(|row| row.1)
}

/// The media type of the file at a path, by what follows the last dot of its last segment.
pub fn content_type(path: &FilePath) -> &'static str
    ensures { result.now ≡ type_of path.now }
{
    extension(path.as_str().as_bytes())
        .and_then(|extension| listed(&TYPES, extension))
        .unwrap_or("application/octet-stream")
}
