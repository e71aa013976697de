//! Laws alone: what an event does to a node is what the fates of its calls say.
#![tactic(auto)]

pub mod laws;
