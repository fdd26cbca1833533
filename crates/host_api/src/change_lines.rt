//! The list of the changes of a site, and its text.
ghost use Rattle.std.specs.Prelude.{◌≡◌, ◌++◌, IfOk, OnOk, codes, map};
ghost use Rattle.std.specs.List.{flat_map, join_with_byte};
ghost use Rattle.std.specs.Str.{byte};
ghost use Rattle.std.specs.String.{string_bytes};
ghost use Rattle.host_api.specs.ChangeLines as spec;

use site_change::Command;
use std::alloc::{AllocError, Global};
use std::marker::Model;

/// A word of a reply. Contracts see its bytes.
#[derive(Debug, Drop)]
pub struct Word {
    text: &'static str,
}

impl Model for Word {
    ghost use Rattle.std.specs.Prelude.{List, ℕ};

    ghost Value = { List ℕ };

    ghost view = { λ word. word.text.now };
}

impl Word {
    /// Its text.
    pub fn as_str(&self) -> &'static str
        ensures { result.now ≡ self.now }
    {
        self.text
    }
}

/// The word that a list of changes has for a command.
pub fn word_of(command: &Command) -> Word
    ensures { result ≡ spec.word_of command.now }
{
    let text = match command {
        Command::Open { .. } => "open",
        Command::Publish { .. } => "publish",
        Command::Cancel { .. } => "cancel",
        Command::Remove { .. } => "remove",
        Command::Rename { .. } => "rename",
        Command::RenameFolder { .. } => "rename-folder",
        Command::MoveAlias { .. } => "alias",
        Command::RemoveAlias { .. } => "unalias",
        Command::Restore { .. } => "restore",
        Command::RemoveDeploy { .. } => "delete",
    };
    Word { text }
}

/// An entry, as the list of changes shows it.
#[derive(Debug, Drop)]
pub enum ChangeLine {
    /// A change. It is live if no undo names it.
    Change {
        entry: u64,
        kind: Word,
        is_live: bool,
    },
    /// An undo of the change of that number.
    Undo {
        entry: u64,
        of: u64,
    },
}

// What is around the lines of a list fits in this many bytes.
const ROOM: usize = 14;

// A line and a comma fit in this many bytes, whatever the numbers are.
const LINE_ROOM: usize = 71;

// Appends a line.
fn push_line(text: &mut String, line: &ChangeLine) -> Result<(), AllocError>
    ensures { OnOk result (string_bytes text.new ≡ string_bytes text.old ++ spec.line_text line.now) }
{
    match line {
        ChangeLine::Change {
            entry,
            kind,
            is_live,
        } => {
            let kind = kind.as_str();
            write!(
                text,
                "{{\"entry\":{entry},\"kind\":\"{kind}\",\"live\":{is_live}}}"
            )
        }
        ChangeLine::Undo { entry, of } => {
            write!(text, "{{\"entry\":{entry},\"kind\":\"undo\",\"of\":{of}}}")
        }
    }
}

// Appends lines, each after a comma.
fn push_others(text: &mut String, lines: &[ChangeLine]) -> Result<(), AllocError>
    ensures { OnOk result (string_bytes text.new ≡ string_bytes text.old ++ flat_map (λ line. codes "," ++ spec.line_text line) lines.now) }
{
    for line in lines {
        text.push_str(",")?;
        push_line(text, line)?;
    }
    Ok(())
}

// Appends lines, with a comma between each two.
fn push_lines(text: &mut String, lines: &[ChangeLine]) -> Result<(), AllocError>
    ensures { OnOk result (string_bytes text.new
        ≡ string_bytes text.old ++ join_with_byte (byte ",") (map spec.line_text lines.now)) }
{
    let Some((first, others)) = lines.split_first() else {
        return Ok(());
    };
    push_line(text, first)?;
    push_others(text, others)
}

/// The text of a list of changes.
pub(crate) fn list_text(alloc: Global, lines: &[ChangeLine]) -> Result<String, AllocError>
    ensures { IfOk result (λ text. string_bytes text ≡ spec.list_text lines.now) }
{
    let room = lines.len().saturating_mul(LINE_ROOM).saturating_add(ROOM);
    let mut text = String::with_capacity(alloc, room)?;
    text.push_str("{\"changes\":[")?;
    push_lines(&mut text, lines)?;
    text.push_str("]}")?;
    Ok(text)
}
