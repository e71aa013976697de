//! The audit of runs: the journals of a run's nodes agree.
#![tactic(auto)]

pub mod laws;
