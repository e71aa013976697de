//! The calls of the system that a node's machine makes, with their answers.
#![tactic(auto)]

pub mod system;
