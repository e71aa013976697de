//! Who works with whom, in every run.
#![tactic(auto)]

pub mod laws;
