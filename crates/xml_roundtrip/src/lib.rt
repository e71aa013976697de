//! Canonical texts and the grammar: what is written spells what was to be written.
#![tactic(auto)]

pub mod laws;
