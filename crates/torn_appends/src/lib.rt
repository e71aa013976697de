//! Laws alone: what is left of an append at one of whose calls a machine in memory stops.
#![tactic(auto)]

pub mod laws;
