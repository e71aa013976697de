//! How soon a post that nobody answers goes out again.
#![tactic(auto)]

pub mod delays;
