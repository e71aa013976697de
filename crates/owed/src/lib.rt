//! What coordinators and participants owe one another, until it is answered.
#![tactic(auto)]

pub mod laws;
