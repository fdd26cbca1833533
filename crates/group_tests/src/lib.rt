//! Tests of the libraries of a group of nodes, by their public calls.
#![tactic(auto)]

#[cfg(test)]
mod tests;
