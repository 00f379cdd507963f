// One merge of the network, over its tables in the lent words.
#![tactic(auto)]

pub mod log;
pub mod mark;
pub mod merge;
pub mod places;
