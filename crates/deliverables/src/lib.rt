//! Laws alone: what is to be asked of endpoints and texts so that a message can be read where it is posted to, and that a node's own
//! have it.
#![tactic(auto)]

pub mod laws;
