//! Laws alone: which messages have small envelopes.
#![tactic(auto)]

pub mod laws;
