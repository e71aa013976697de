//! Settling over every run, layer by layer: laws of the model that lead to it.
#![tactic(auto)]

pub mod laws;
