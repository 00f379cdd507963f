// The wind over the last sweeps: a window of up to eight unfolded sweeps, and the picture of their medians.
#![tactic(auto)]

pub mod entry;
pub mod median;
pub mod picture;
pub mod questions;
