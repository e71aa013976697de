//! Nodes that serve, each on a machine in memory, and the letters that they post to one another.
#![tactic(auto)]

pub mod host;
pub mod laws;
pub mod letter;
pub mod machine;
