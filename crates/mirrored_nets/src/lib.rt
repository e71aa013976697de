//! Nodes that serve, each on a machine in memory, that mirror the nodes of a world.
#![tactic(auto)]

pub mod armed;
pub mod asks;
pub mod calls;
pub mod came;
pub mod host;
pub mod laws;
