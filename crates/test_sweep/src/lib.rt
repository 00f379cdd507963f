// Test sweeps from a seed number, by which sites compare their installations.
#![tactic(auto)]

pub mod entry;
pub mod generator;
