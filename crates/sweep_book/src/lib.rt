// The sweep entry with a book of its merges.
#![tactic(auto)]

pub mod book;
pub mod entry;
