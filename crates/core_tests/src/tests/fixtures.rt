//! Rows of tables, and what is asserted of them.
use std::process::Abort;
use std::test::Fail;

/// The two halves of a row of a table.
pub(crate) fn halves<'a>(row: &'a str, separator: &str) -> Result<(&'a str, &'a str), Fail> {
    Ok(row.split_once(separator).ok_or("a row has two halves")?)
}

/// Asserts what is told of what is asked.
pub(crate) fn assert_text(rt: &impl Abort, asked: &str, text: &str, wanted: &str) {
    assert_eq!(rt; text, wanted, "{asked}");
}

/// Asserts whether something holds.
pub(crate) fn assert_holds(rt: &impl Abort, asked: &str, holds: bool, wanted: bool) {
    assert_eq!(rt; holds, wanted, "{asked}");
}
