#![tactic(auto)]

pub mod bits;
pub mod entry;
pub mod format;
pub mod reader;
pub mod writer;
