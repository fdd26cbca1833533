//! Tests of `change_journal` by its public calls: what no file shows that the program opens.
#![tactic(auto)]

#[cfg(test)]
mod tests;
