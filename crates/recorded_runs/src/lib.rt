//! What the journals of a run say of its transactions.
#![tactic(auto)]

pub mod laws;
