//! Settled outcomes: at rest nobody who has voted is without an outcome, and all under one root have the same.
#![tactic(auto)]

pub mod laws;
