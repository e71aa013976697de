//! Whom coordinators, participants and initiators know, in every run.
#![tactic(auto)]

pub mod laws;
