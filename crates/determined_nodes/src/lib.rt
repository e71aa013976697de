//! Laws that a node on a machine in memory does one thing: what a call of it does is determined by the node, its machine, and what it is called with.
#![tactic(auto)]

pub mod laws;
