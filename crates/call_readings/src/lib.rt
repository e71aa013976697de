//! What the calls that a node made in one event say of it.
#![tactic(auto)]

pub mod became;
