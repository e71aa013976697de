//! Laws alone: what a node that serves does in one call is one event of the model's world.
#![tactic(auto)]

pub mod laws;
