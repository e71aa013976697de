//! Laws alone: what bytes that come to a node ask of it.
#![tactic(auto)]

pub mod laws;
