// Which regions see each other, and the edges between them.
#![tactic(auto)]

pub mod edges;
pub mod pairs;
