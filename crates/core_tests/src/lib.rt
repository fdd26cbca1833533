//! Tests of calls below the server that no connection makes, or makes so that nothing is seen of it.
#![tactic(auto)]

#[cfg(test)]
mod tests;
