// Arithmetic below region finding: the float helpers and the interval limits.
#![tactic(auto)]

pub mod doubtful;
pub mod intervals;
pub mod narrow;
pub mod rounding;
pub mod whole;
