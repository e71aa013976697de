//! Nodes that are served and post to one another are a world of the model.
#![tactic(auto)]

pub mod laws;
pub mod lives;
