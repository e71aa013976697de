//! Device calls of a node that fail, or at which it stops.
#![tactic(auto)]

pub mod fault;
