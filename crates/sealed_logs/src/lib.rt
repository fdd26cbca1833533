//! Logs that are sealed: what the changes up to an entry leave becomes the base. No call seals one yet; these are the laws of it.
#![tactic(auto)]

pub mod laws;
