//! Laws of what the calls that a node made in one event say of it: they are always read, and in one way.
#![tactic(auto)]

pub mod laws;
