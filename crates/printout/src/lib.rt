// What the programs print, as text: lines of numbers, the text for a file, and the answers to a file or to a recorded list of files.
#![tactic(auto)]

pub mod book;
pub mod input;
pub mod lines;
pub mod list;
pub mod numbers;
pub mod unfold;
