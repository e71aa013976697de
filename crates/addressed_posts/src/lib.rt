//! Laws alone: what a step posts goes to some endpoint.
#![tactic(auto)]

pub mod laws;
