//! Tests of what threads share of a host, by public calls.
#![tactic(auto)]

#[cfg(test)]
mod tests;
