// The region map: the label of each gate, as an answer of its own.
#![tactic(auto)]

pub mod map;
