// Tools over one lent slice: fill and copy, a stable counting sort, and a winner tree.
#![tactic(auto)]

pub mod layout;
pub mod sort;
pub mod tree;
pub mod words;
