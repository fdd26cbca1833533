//! The texts of refusals, as JSON (RFC 8259).
ghost use Rattle.std.specs.Prelude.{◌≡◌, ◌+◌, ◌≤◌, ◌++◌, true, false, codes, length, IfOk, MatchOption};
ghost use Rattle.std.specs.String.{string_bytes};
ghost use Rattle.arrayvec.specs.ArrayString.{array_string_len};
ghost use Rattle.host_names.specs.Cells.{cell_text};
ghost use Rattle.serde_json.specs.Data.{string};
ghost use Rattle.serde_json.specs.Written.{compact_text};
ghost use Rattle.host_api.specs.Refusals.{name_of};
ghost use Rattle.host_api.specs.Texts.{quoted, detail_of, has_cell, refused_text};

use crate::refusals::Refusal;
use arrayvec::ArrayString;
use host_names::Cell;
use serde_json::Value;
use site_change::ChangeRefusal;
use std::alloc::{AllocError, Global};

/// The text of a refusal that names no cell fits in this many bytes, also if it names an alias of 63 bytes.
pub const SHORT_TEXT: usize = 100;

// Appends a member that comes before the name of a refusal: its key, and its value as a string.
fn push_member(text: &mut ArrayString<SHORT_TEXT>, key: &str, value: &str)
    requires { array_string_len text.old + length key.now + length value.now + 6 ≤ SHORT_TEXT }
    ensures bytes { text.new.bytes ≡ text.old.bytes ++ quoted key.now ++ codes ":" ++ quoted value.now ++ codes "," }
    ensures len { array_string_len text.new ≡ array_string_len text.old + length key.now + length value.now + 6 }
{
    text.push_str("\"");
    text.push_str(key);
    text.push_str("\":\"");
    text.push_str(value);
    text.push_str("\",");
}

// Appends the name of a refusal, and the end of the object.
fn push_name(text: &mut ArrayString<SHORT_TEXT>, refusal: &Refusal)
    requires { array_string_len text.old + 25 ≤ SHORT_TEXT }
    ensures { text.new.bytes ≡ text.old.bytes ++ codes "\"error\":\"" ++ name_of refusal.now ++ codes "\"}" }
{
    text.push_str("\"error\":\"");
    text.push_str(refusal.name());
    text.push_str("\"}");
}

// Appends what comes before the name of a refusal.
fn push_detail(text: &mut ArrayString<SHORT_TEXT>, refusal: &Refusal)
    requires plain { has_cell refusal.now ≡ false }
    requires room { array_string_len text.old ≤ 1 }
    ensures bytes { text.new.bytes ≡ text.old.bytes ++ detail_of refusal.now }
    ensures room { array_string_len text.new + 25 ≤ SHORT_TEXT }
{
    match refusal {
        Refusal::Change(ChangeRefusal::NotComplete(digest)) => {
            push_member(text, "digest", digest.to_hex().as_str());
        }
        Refusal::Change(ChangeRefusal::DeployInUse(name)) => {
            push_member(text, "alias", name.as_str());
        }
        _ => {}
    }
}

// The text of a refusal that names no cell.
fn plain_text(refusal: &Refusal) -> ArrayString<SHORT_TEXT>
    requires { has_cell refusal.now ≡ false }
    ensures { result.bytes ≡ refused_text refusal.now }
{
    let mut text = ArrayString::new();
    text.push_str("{");
    push_detail(&mut text, refusal);
    push_name(&mut text, refusal);
    text
}

/// The text of a refusal; none if it names a cell, whose path may be long. Takes no memory.
pub fn short_text(refusal: &Refusal) -> Option<ArrayString<SHORT_TEXT>>
    ensures { MatchOption result (has_cell refusal.now ≡ true) (λ text. text.bytes ≡ refused_text refusal.now) }
{
    if matches!(refusal, Refusal::Change(ChangeRefusal::Clash { .. })) {
        return None;
    }
    Some(plain_text(refusal))
}

// The text of a cell as a JSON string. A path may hold what has to be escaped.
fn cell_string(alloc: Global, cell: &Cell) -> Result<String, AllocError>
    ensures { IfOk result (λ text. string_bytes text ≡ compact_text (string (cell_text cell.now))) }
{
    let text = format!(in alloc; "{cell}")?;
    Value::String(text).to_string(alloc)
}

// The text of a clash.
fn clash_text(alloc: Global, change: u64, cell: &Cell) -> Result<String, AllocError>
    ensures { IfOk result (λ text. string_bytes text ≡ refused_text (Refusal.Change (ChangeRefusal.Clash change cell.now))) }
{
    let cell = cell_string(alloc, cell)?;
    let mut text = String::with_capacity(alloc, SHORT_TEXT.saturating_add(cell.len()))?;
    write!(text, "{{\"cell\":{cell},\"change\":{change},")?;
    text.push_str("\"error\":\"Clash\"}")?;
    Ok(text)
}

/// The text of a refusal.
pub(crate) fn refusal_text(alloc: Global, refusal: &Refusal) -> Result<String, AllocError>
    ensures { IfOk result (λ text. string_bytes text ≡ refused_text refusal.now) }
{
    match refusal {
        Refusal::Change(ChangeRefusal::Clash { change, cell }) => {
            clash_text(alloc, *change, cell)
        }
        _ => String::from_str(alloc, plain_text(refusal).as_str()),
    }
}
