// The library's boundary: what a host links.
#![tactic(auto)]

pub mod exports;
