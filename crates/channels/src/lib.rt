// The call of two polarisations of one antenna: each channel by limits that both share.
#![tactic(auto)]

pub mod both;
pub mod entry;
pub mod input;
