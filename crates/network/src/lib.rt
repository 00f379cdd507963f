// The network of regions: the run of merges that joins them, and the counts that it gives.
#![tactic(auto)]

pub mod find;
pub mod input;
pub mod network;
pub mod options;
pub mod reduce;
pub mod sizes;
