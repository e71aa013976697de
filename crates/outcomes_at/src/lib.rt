//! The outcomes that a node keeps.
#![tactic(auto)]

pub mod outcomes;
