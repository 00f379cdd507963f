// The sweep call and the second entry, and the questions that they put.
#![tactic(auto)]

pub mod entry;
pub mod input;
pub mod questions;
pub mod refusal;
pub mod sweep;
pub mod velocity;
