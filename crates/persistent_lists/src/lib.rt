//! Lists whose copies share what neither has changed. They know nothing of sites: a log keeps its entries in such a list.
#![tactic(auto)]

mod block_lists;
mod lists;

pub use lists::SharedList;
