// The regions of a sweep: connected areas of the gates of each velocity interval.
#![tactic(auto)]

pub mod label;
pub mod regions;
