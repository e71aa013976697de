//! The model of the protocol: a node's book, its steps, its recovery, and the worlds of several nodes.
#![tactic(auto)]

pub mod runs;
