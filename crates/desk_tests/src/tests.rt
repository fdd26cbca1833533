//! One file of tests for lists, and one for what is shown of them; and what both push.
mod lists;
mod numbers;
mod visitors;
