//! Agreement: in every run each activity has one outcome.
#![tactic(auto)]

pub mod laws;
